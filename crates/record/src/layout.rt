// The mark of a page and its 32 bytes.
// Fields are read and written at the places that docs/LAYOUT.md names: a pattern or a split would name each byte or part, and then join them.
ghost use Rattle.std.specs.Prelude.{◌≡◌, length};
ghost use Rattle.record.specs.Decoding.{Decoded};
ghost use Rattle.record.specs.Marks.{block_field, fields_of, tag_bytes, field_bytes, bytes_of};

use crate::errors::Malformed;
use crate::marks::{HeaderMark, Mark, RecordMark, VoidMark};
use crate::numbers::{BlockIndex, BlockNumber, RecordIndex};
use crate::tags::{Fields, Kind, Tag};
use words::{read, write};

// Stands for no block on the chip, by its layout; only the next two functions know it.
const NO_BLOCK: u32 = 0xffff_ffff;
// What each mark has at its end.
const VERSION: u32 = 1;

// The number that stands for a block or for none. No `From`: both types would be the library's.
pub fn block_field(block: Option<BlockIndex>) -> u32
    ensures { result ≡ block_field block }
{
    match block {
        Some(block) => block.index,
        None => NO_BLOCK,
    }
}

// The block or none that a number stands for.
pub fn block_of(field: u32) -> Result<Option<BlockIndex>, Malformed>
    ensures { Decoded block_field field result }
{
    if field == NO_BLOCK {
        Ok(None)
    } else {
        Ok(Some(field.try_into()?))
    }
}

impl From<Mark> for Fields {
    ghost from_gives = { λ m f. f ≡ fields_of m };

    fn from(mark: Mark) -> Fields {
        match mark {
            Mark::Header(header) => Fields {
                tag: Tag {
                    commit: header.commit.index,
                    place: block_field(header.predecessor),
                    ..Tag::bare(Kind::Header)
                },
                number: header.number.number,
                tail: header.tail.index,
                bad_blocks: header.bad_blocks,
                version: VERSION,
            },
            Mark::Record(record) => Fields {
                tag: record.content.into(),
                number: record.index.index,
                tail: record.tail.index,
                bad_blocks: 0,
                version: VERSION,
            },
            Mark::Void(void) => Fields {
                tag: Tag::bare(Kind::Void),
                number: void.number.number,
                tail: void.tail.index,
                bad_blocks: 0,
                version: VERSION,
            },
        }
    }
}

impl TryFrom<Fields> for Mark {
    type Error = Malformed;

    ghost try_from_gives = { λ f r. Decoded fields_of f r };

    fn try_from(f: Fields) -> Result<Mark, Malformed> {
        if f.version != VERSION {
            return Err(Malformed);
        }
        let tail = RecordIndex { index: f.tail };
        match (Kind::try_from(f.tag.kind)?, f.tag, f.bad_blocks) {
            (
                Kind::Header,
                Tag {
                    flag: 0,
                    commit,
                    place,
                    ..
                },
                bad_blocks,
            ) => Ok(Mark::Header(HeaderMark {
                commit: commit.try_into()?,
                predecessor: block_of(place)?,
                number: BlockNumber { number: f.number },
                tail,
                bad_blocks,
            })),
            (Kind::Void, tag, 0) if tag == Tag::bare(Kind::Void) => Ok(Mark::Void(VoidMark {
                number: BlockNumber { number: f.number },
                tail,
            })),
            (_, tag, 0) => Ok(Mark::Record(RecordMark {
                content: tag.try_into()?,
                index: RecordIndex { index: f.number },
                tail,
            })),
            _ => Err(Malformed),
        }
    }
}

// Writes the first 8 bytes of a mark.
pub fn write_tag(tag: Tag, out: &mut [u8])
    requires { length out.old ≡ 8 }
    ensures { out.new ≡ tag_bytes tag }
{
    out[0] = tag.kind;
    out[1] = tag.flag;
    write(out, 2, tag.commit);
    write(out, 4, tag.place);
}

// The tag that has these bytes.
pub fn read_tag(bytes: &[u8]) -> Tag
    requires { length bytes.now ≡ 8 }
    ensures { bytes.now ≡ tag_bytes result }
{
    Tag {
        kind: bytes[0],
        flag: bytes[1],
        commit: read(bytes, 2),
        place: read(bytes, 4),
    }
}

fn write_fields(f: Fields, out: &mut [u8; 32])
    ensures { out.new ≡ field_bytes f }
{
    write_tag(f.tag, &mut out[0..8]);
    write(out, 8, f.number);
    write(out, 16, f.tail);
    write(out, 24, f.bad_blocks);
    write(out, 28, f.version);
}

fn read_fields(bytes: &[u8; 32]) -> Fields
    ensures { bytes.now ≡ field_bytes result }
{
    Fields {
        tag: read_tag(&bytes[0..8]),
        number: read(bytes, 8),
        tail: read(bytes, 16),
        bad_blocks: read(bytes, 24),
        version: read(bytes, 28),
    }
}

// Writes the bytes of a mark.
pub fn to_bytes(mark: Mark, out: &mut [u8; 32])
    ensures { out.new ≡ bytes_of mark }
{
    write_fields(Fields::from(mark), out);
}

// The mark that has these bytes.
pub fn from_bytes(bytes: &[u8; 32]) -> Result<Mark, Malformed>
    ensures { Decoded bytes_of bytes.now result }
{
    Mark::try_from(read_fields(bytes))
}
