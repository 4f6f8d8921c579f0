// Fields as they stand in bytes.
ghost use Rattle.std.specs.Prelude.{◌≡◌};
ghost use Rattle.record.specs.Decoding.{Decoded};
ghost use Rattle.record.specs.Contents.{code_of, bare};

use crate::errors::Malformed;

// What a page is: a header, a record of one of three kinds of content, or a void.
#[derive(Clone, Copy, PartialEq, Eq)]
pub enum Kind {
    Header = 1,
    Data = 2,
    Table = 3,
    Seal = 4,
    Void = 5,
}

impl TryFrom<u8> for Kind {
    type Error = Malformed;

    ghost try_from_gives = { λ n r. Decoded code_of n r };

    fn try_from(code: u8) -> Result<Kind, Malformed> {
        match code {
            1 => Ok(Kind::Header),
            2 => Ok(Kind::Data),
            3 => Ok(Kind::Table),
            4 => Ok(Kind::Seal),
            5 => Ok(Kind::Void),
            _ => Err(Malformed),
        }
    }
}

// The first 8 bytes of a mark.
#[derive(Clone, Copy, PartialEq, Eq)]
pub struct Tag {
    pub kind: u8,
    pub flag: u8,
    pub commit: u16,
    pub place: u32,
}

impl Tag {
    // A tag with no more than its kind.
    pub const fn bare(kind: Kind) -> Tag
        ensures { result ≡ bare kind }
    {
        Tag {
            kind: kind as u8,
            flag: 0,
            commit: 0,
            place: 0,
        }
    }
}

// The 32 bytes of a mark; a kind leaves those that it has no use for at 0.
#[derive(Clone, Copy)]
pub struct Fields {
    pub tag: Tag,
    pub number: u64,
    pub tail: u64,
    pub bad_blocks: u32,
    pub version: u32,
}

// The first 40 bytes of the data of a header page.
#[derive(Clone, Copy)]
pub struct HeaderFields {
    pub first: u64,
    pub number: u64,
    pub tail: u64,
    pub keep: u64,
    pub block: u32,
    pub records: u32,
}
