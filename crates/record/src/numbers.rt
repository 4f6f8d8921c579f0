// Numbers that say what they count, with their ranges.
// Each is a type of its own with a field that says what it counts: of one generic type over the limit two with the same limit would be the same.
ghost use Rattle.std.specs.Prelude.{◌<◌};
ghost use Rattle.record.specs.Decoding.{Decoded};

use crate::errors::Malformed;

// The index of a block of the chip.
#[derive(Clone, Copy, PartialEq, Eq)]
pub struct BlockIndex {
    pub index: u32,
    ghost range: { index < 65536 },
}

impl TryFrom<u32> for BlockIndex {
    type Error = Malformed;

    ghost try_from_gives = { λ n r. Decoded (λ (b : Self). b.index) n r };

    fn try_from(index: u32) -> Result<BlockIndex, Malformed> {
        if index < 65_536 {
            Ok(BlockIndex { index })
        } else {
            Err(Malformed)
        }
    }
}

// The index of a page in its block.
#[derive(Clone, Copy, PartialEq, Eq)]
pub struct PageIndex {
    pub index: u16,
    ghost range: { index < 256 },
}

impl TryFrom<u16> for PageIndex {
    type Error = Malformed;

    ghost try_from_gives = { λ n r. Decoded (λ (p : Self). p.index) n r };

    fn try_from(index: u16) -> Result<PageIndex, Malformed> {
        if index < 256 {
            Ok(PageIndex { index })
        } else {
            Err(Malformed)
        }
    }
}

// The number of a sector.
#[derive(Clone, Copy, PartialEq, Eq)]
pub struct SectorNumber {
    pub number: u32,
    ghost range: { number < 10485760 },
}

impl TryFrom<u32> for SectorNumber {
    type Error = Malformed;

    ghost try_from_gives = { λ n r. Decoded (λ (s : Self). s.number) n r };

    fn try_from(number: u32) -> Result<SectorNumber, Malformed> {
        if number < 10_485_760 {
            Ok(SectorNumber { number })
        } else {
            Err(Malformed)
        }
    }
}

// The number of a page of the table of places, which has 1,024 sectors.
#[derive(Clone, Copy, PartialEq, Eq)]
pub struct TableNumber {
    pub number: u32,
    ghost range: { number < 10240 },
}

impl TryFrom<u32> for TableNumber {
    type Error = Malformed;

    ghost try_from_gives = { λ n r. Decoded (λ (t : Self). t.number) n r };

    fn try_from(number: u32) -> Result<TableNumber, Malformed> {
        if number < 10_240 {
            Ok(TableNumber { number })
        } else {
            Err(Malformed)
        }
    }
}

// How many records of a block count: all pages but the header at most.
#[derive(Clone, Copy, PartialEq, Eq)]
pub struct RecordCount {
    pub count: u32,
    ghost range: { count < 256 },
}

impl TryFrom<u32> for RecordCount {
    type Error = Malformed;

    ghost try_from_gives = { λ n r. Decoded (λ (c : Self). c.count) n r };

    fn try_from(count: u32) -> Result<RecordCount, Malformed> {
        if count < 256 {
            Ok(RecordCount { count })
        } else {
            Err(Malformed)
        }
    }
}

// The index of a record in the log.
#[derive(Clone, Copy, PartialEq, Eq)]
pub struct RecordIndex {
    pub index: u64,
}

// The number that a block was given when it was taken.
#[derive(Clone, Copy, PartialEq, Eq)]
pub struct BlockNumber {
    pub number: u64,
}
