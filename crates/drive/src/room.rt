// What lies where in the room: the one place that says it.
ghost use Rattle.std.specs.Prelude.{◌≡◌, ◌+◌, ◌*◌, ◌<◌, ◌≤◌, ◌==◌};
ghost use Rattle.words.specs.Words.{value_at, Written};
ghost use Rattle.drive.specs.Room.{block_at, place_at, standing, code_of, placed};

use crate::Chip;
use crate::store::Store;
use words::{read, write};

// Where the page buffer begins; the eight command buffers lie before it.
pub const PAGE: usize = 262_144;
// Where the page buffer ends, and the head's list of records begins, laid out as in a header.
pub const LIST: usize = 266_496;
// Where the list ends, and the table of blocks begins, 32 bytes for each.
pub const BLOCKS: usize = 270_848;

// The geometry of the chip: blocks, pages in each, and pages in all.
#[derive(Clone, Copy)]
pub struct Shape {
    pub blocks: u32,
    pub pages: u32,
    pub total: u32,
}

// Where a block stands: it may be taken, it must be kept, or its header can't be read.
#[derive(Clone, Copy, PartialEq, Eq)]
pub enum Standing {
    Free = 0,
    Kept = 1,
    Unreadable = 2,
}

impl From<u16> for Standing {
    ghost from_gives = { λ k s. s ≡ standing k };

    fn from(code: u16) -> Self {
        match code {
            0 => Standing::Free,
            1 => Standing::Kept,
            _ => Standing::Unreadable,
        }
    }
}

// Where a record lies: its block, and the page in it.
#[derive(Clone, Copy, PartialEq, Eq)]
pub struct Address {
    pub block: u32,
    pub page: u32,
}

// Where a block's entry begins.
fn entry(block: u32) -> usize
    ensures { result ≡ block_at block }
{
    BLOCKS + 32 * block as usize
}

// The table of blocks and the table of places. One getter and one setter for each field, so that its place and its type are said once: one pair for all would
// let a field be read as another. Each asks for a block of the chip, as a slice does for an index: a type can't tie a number to a geometry.
impl<C: Chip> Store<'_, C> {
    ghost use Rattle.drive.specs.Stores.{Spent, Wrote};

    // The number that a block was given; the chip's void marks have 0 for none, and so has the room.
    pub fn number_of(&self, block: u32) -> u64
        requires { block < self.now.journal.now.shape.blocks }
        ensures { result ≡ value_at 8 self.now.room.now (block_at block) }
    {
        read(self.room, entry(block))
    }

    // Notes a block's number.
    pub fn set_number(&mut self, block: u32, number: u64)
        requires { block < self.old.journal.now.shape.blocks }
        ensures written { Written 8 (block_at block) number self.old.room.now self.new.room.now }
        ensures spent { Spent 0 self.old self.new }
        ensures wrote { Wrote self.old self.new }
    {
        write(self.room, entry(block), number);
    }

    // The index of a block's first record.
    pub fn first_of(&self, block: u32) -> u64
        requires { block < self.now.journal.now.shape.blocks }
        ensures { result ≡ value_at 8 self.now.room.now (block_at block + 8) }
    {
        read(self.room, entry(block) + 8)
    }

    // Notes the index of a block's first record.
    pub fn set_first(&mut self, block: u32, first: u64)
        requires { block < self.old.journal.now.shape.blocks }
        ensures written { Written 8 (block_at block + 8) first self.old.room.now self.new.room.now }
        ensures spent { Spent 0 self.old self.new }
        ensures wrote { Wrote self.old self.new }
    {
        write(self.room, entry(block) + 8, first);
    }

    // The block behind a block in the log.
    pub fn successor_of(&self, block: u32) -> u32
        requires { block < self.now.journal.now.shape.blocks }
        ensures { result ≡ value_at 4 self.now.room.now (block_at block + 16) }
    {
        read(self.room, entry(block) + 16)
    }

    // Notes the block behind a block in the log.
    pub fn set_successor(&mut self, block: u32, successor: u32)
        requires { block < self.old.journal.now.shape.blocks }
        ensures written { Written 4 (block_at block + 16) successor self.old.room.now self.new.room.now }
        ensures spent { Spent 0 self.old self.new }
        ensures wrote { Wrote self.old self.new }
    {
        write(self.room, entry(block) + 16, successor);
    }

    // How many records of a block count.
    pub fn records_of(&self, block: u32) -> u16
        requires { block < self.now.journal.now.shape.blocks }
        ensures { result ≡ value_at 2 self.now.room.now (block_at block + 20) }
    {
        read(self.room, entry(block) + 20)
    }

    // Notes how many records of a block count.
    pub fn set_records(&mut self, block: u32, records: u16)
        requires { block < self.old.journal.now.shape.blocks }
        ensures written { Written 2 (block_at block + 20) records self.old.room.now self.new.room.now }
        ensures spent { Spent 0 self.old self.new }
        ensures wrote { Wrote self.old self.new }
    {
        write(self.room, entry(block) + 20, records);
    }

    // Where a block stands.
    pub fn standing_of(&self, block: u32) -> Standing
        requires { block < self.now.journal.now.shape.blocks }
        ensures { result ≡ standing (value_at 2 self.now.room.now (block_at block + 22)) }
    {
        Standing::from(read::<u16, 2>(self.room, entry(block) + 22))
    }

    // Notes where a block stands.
    pub fn set_standing(&mut self, block: u32, standing: Standing)
        requires { block < self.old.journal.now.shape.blocks }
        ensures written { Written 2 (block_at block + 22) (code_of standing) self.old.room.now self.new.room.now }
        ensures spent { Spent 0 self.old self.new }
        ensures wrote { Wrote self.old self.new }
    {
        write(self.room, entry(block) + 22, standing as u16);
    }

    // Whether a block may be taken.
    pub fn is_free(&self, block: u32) -> bool
        requires { block < self.now.journal.now.shape.blocks }
        ensures { result ≡ (value_at 2 self.now.room.now (block_at block + 22) == 0) }
    {
        self.standing_of(block) == Standing::Free
    }

    // Where the place of a sector lies.
    fn place(&self, sector: u32) -> usize
        ensures { result ≡ place_at self.now.journal.now.shape.blocks sector }
    {
        BLOCKS + 32 * self.journal.shape.blocks as usize + 4 * sector as usize
    }

    // The place of a sector, if it has one. The room has it as the address of the page plus one, 0 for none.
    pub fn place_of(&self, sector: u32) -> Option<Address>
        requires { sector < self.now.journal.now.shape.total }
        ensures { result ≡ placed (value_at 4 self.now.room.now (place_at self.now.journal.now.shape.blocks sector)) }
    {
        let address = read::<u32, 4>(self.room, self.place(sector)).checked_sub(1)?;
        Some(Address {
            block: address / 256,
            page: address % 256,
        })
    }

    // Notes the place of a sector.
    pub fn set_place(&mut self, sector: u32, place: Address)
        requires within { sector < self.old.journal.now.shape.total }
        requires small { (place.block < 65536) × (place.page < 256) }
        ensures written { Written 4 (place_at self.old.journal.now.shape.blocks sector) (256 * place.block + place.page + 1) self.old.room.now self.new.room.now }
        ensures spent { Spent 0 self.old self.new }
        ensures wrote { Wrote self.old self.new }
    {
        let at = self.place(sector);
        write(self.room, at, 256 * place.block + place.page + 1);
    }

    // No sector has a place.
    pub fn clear_places(&mut self)
        ensures spent { Spent 0 self.old self.new }
        ensures wrote { Wrote self.old self.new }
    {
        let begin = self.place(0);
        let end = self.place(self.journal.shape.total);
        self.room[begin..end].fill(0);
    }

    // Copies the data of a page from one place to another.
    pub fn copy_data(&mut self, from: usize, to: usize)
        requires { (from ≤ 266496) × (to ≤ 266496) }
        ensures spent { Spent 0 self.old self.new }
        ensures wrote { Wrote self.old self.new }
    {
        self.room.copy_within(from..from + 4096, to);
    }
}
