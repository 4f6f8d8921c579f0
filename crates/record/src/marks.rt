// What the mark of a page says.
use crate::numbers::{BlockIndex, BlockNumber, PageIndex, RecordIndex, SectorNumber, TableNumber};

// Where a record comes from: it is new, or was copied from the tail of the log. Its number is the tag's flag.
#[derive(Clone, Copy, PartialEq, Eq)]
pub enum Origin {
    Fresh = 0,
    Copied = 1,
}

// Where a seal comes from: a flush, or the recovery after a power loss. Its number is the tag's flag.
#[derive(Clone, Copy, PartialEq, Eq)]
pub enum SealOrigin {
    Flush = 0,
    Recovery = 2,
}

// The first page of a block of the log.
#[derive(Clone, Copy)]
pub struct HeaderMark {
    pub commit: PageIndex,
    pub predecessor: Option<BlockIndex>,
    pub number: BlockNumber,
    pub tail: RecordIndex,
    pub bad_blocks: u32,
}

// What a record holds: a sector's contents, a page of the table of places, or nothing but the word that those before it are whole.
#[derive(Clone, Copy, PartialEq, Eq)]
pub enum Content {
    Data {
        origin: Origin,
        sector: SectorNumber,
    },
    Table {
        origin: Origin,
        page: TableNumber,
    },
    Seal {
        origin: SealOrigin,
    },
}

// A page behind the header of a block of the log.
#[derive(Clone, Copy)]
pub struct RecordMark {
    pub content: Content,
    pub index: RecordIndex,
    pub tail: RecordIndex,
}

// The first page of an erased block that is in no log.
#[derive(Clone, Copy)]
pub struct VoidMark {
    pub number: BlockNumber,
    pub tail: RecordIndex,
}

// A page of the chip says that it is a header, a record or a void.
#[derive(Clone, Copy)]
pub enum Mark {
    Header(HeaderMark),
    Record(RecordMark),
    Void(VoidMark),
}
