// The data of a header page: a fixed part, and an entry for each record of the predecessor that counts.
// What is asked of a page's length stands with each function: a type for it would be two, to read and to write, made anew for each call.
ghost use Rattle.std.specs.Prelude.{◌≡◌, ℕ, ◌+◌, ◌*◌, ◌≤◌, length, take, drop, ◌≢◌};
ghost use Rattle.record.specs.Decoding.{Decoded};
ghost use Rattle.record.specs.Headers.{data_fields, header_field_bytes, header_bytes, entry_at, content_bytes};

use crate::errors::Malformed;
use crate::headers::{HeaderData, Predecessor};
use crate::layout::{block_field, block_of, read_tag, write_tag};
use crate::marks::Content;
use crate::numbers::{BlockNumber, RecordIndex};
use crate::tags::{HeaderFields, Tag};
use words::{read, write};

impl From<HeaderData> for HeaderFields {
    ghost from_gives = { λ h f. f ≡ data_fields h };

    fn from(header: HeaderData) -> HeaderFields {
        let (block, number, records) = match header.predecessor {
            Some(p) => (Some(p.block), p.number.number, p.records.count),
            None => (None, 0, 0),
        };
        HeaderFields {
            first: header.first.index,
            number,
            tail: header.tail.index,
            keep: header.keep.index,
            block: block_field(block),
            records,
        }
    }
}

impl TryFrom<HeaderFields> for HeaderData {
    type Error = Malformed;

    ghost try_from_gives = { λ f r. Decoded data_fields f r };

    fn try_from(f: HeaderFields) -> Result<HeaderData, Malformed> {
        let predecessor = match block_of(f.block)? {
            Some(block) => Some(Predecessor {
                block,
                number: BlockNumber { number: f.number },
                records: f.records.try_into()?,
            }),
            None if f.number == 0 && f.records == 0 => None,
            None => return Err(Malformed),
        };
        Ok(HeaderData {
            first: RecordIndex { index: f.first },
            predecessor,
            tail: RecordIndex { index: f.tail },
            keep: RecordIndex { index: f.keep },
        })
    }
}

// Writes the 40 bytes.
fn write_fields(f: HeaderFields, out: &mut [u8])
    requires { length out.old ≡ 40 }
    ensures { out.new ≡ header_field_bytes f }
{
    write(out, 0, f.first);
    write(out, 8, f.number);
    write(out, 16, f.tail);
    write(out, 24, f.keep);
    write(out, 32, f.block);
    write(out, 36, f.records);
}

// The fields that have these bytes.
fn read_fields(bytes: &[u8]) -> HeaderFields
    requires { length bytes.now ≡ 40 }
    ensures { bytes.now ≡ header_field_bytes result }
{
    HeaderFields {
        first: read(bytes, 0),
        number: read(bytes, 8),
        tail: read(bytes, 16),
        keep: read(bytes, 24),
        block: read(bytes, 32),
        records: read(bytes, 36),
    }
}

// Writes the fixed part of a header page's data, and leaves the entries.
pub fn write_header(page: &mut [u8], header: HeaderData)
    requires { 40 ≤ length page.old }
    ensures here { take 40 page.new ≡ header_bytes header }
    ensures rest { drop 40 page.new ≡ drop 40 page.old }
{
    write_fields(HeaderFields::from(header), &mut page[0..40]);
}

// The fixed part of a header page's data.
pub fn read_header(page: &[u8]) -> Result<HeaderData, Malformed>
    requires { 40 ≤ length page.now }
    ensures { Decoded header_bytes (take 40 page.now) result }
{
    HeaderData::try_from(read_fields(&page[0..40]))
}

// Writes entry `i`, and leaves the fixed part and the other entries.
pub fn write_entry(page: &mut [u8], i: usize, content: Content)
    requires { 40 + 8 * i + 8 ≤ length page.old }
    ensures here { entry_at page.new i ≡ content_bytes content }
    ensures others { (j : ℕ) → (j ≢ i) → entry_at page.new j ≡ entry_at page.old j }
    ensures fixed { take 40 page.new ≡ take 40 page.old }
{
    let at = 40 + 8 * i;
    write_tag(Tag::from(content), &mut page[at..at + 8]);
}

// Entry `i`.
pub fn read_entry(page: &[u8], i: usize) -> Result<Content, Malformed>
    requires { 40 + 8 * i + 8 ≤ length page.now }
    ensures { Decoded content_bytes (entry_at page.now i) result }
{
    let at = 40 + 8 * i;
    Content::try_from(read_tag(&page[at..at + 8]))
}
