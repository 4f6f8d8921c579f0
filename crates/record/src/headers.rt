// What the data of a header page say.
use crate::numbers::{BlockIndex, BlockNumber, RecordCount, RecordIndex};

// The block that comes before in the log, and how many of its records count.
#[derive(Clone, Copy)]
pub struct Predecessor {
    pub block: BlockIndex,
    pub number: BlockNumber,
    pub records: RecordCount,
}

// The index of the block's first record, its predecessor, and the two places back to which records are needed.
#[derive(Clone, Copy)]
pub struct HeaderData {
    pub first: RecordIndex,
    pub predecessor: Option<Predecessor>,
    pub tail: RecordIndex,
    pub keep: RecordIndex,
}
