// Garbage collection: the oldest records are looked at, and those that are still needed are copied to the head.
ghost use Rattle.std.specs.Prelude.{◌≡◌, ◌<◌, ◌≤◌};
ghost use Rattle.words.specs.Words.{value_at};
ghost use Rattle.drive.specs.Room.{place_at, placed};
ghost use Rattle.drive.specs.Host.{noughts};
ghost use Rattle.laws.specs.Log.{Log, contents};
ghost use Rattle.drive.specs.Places.{Tabled};

use crate::room::{Address, LIST, PAGE};
use crate::store::Store;
use crate::{Chip, Gone};
use record::marks::{Content, Origin, RecordMark};
use record::numbers::PageIndex;

// The tail and the places.
impl<C: Chip> Store<'_, C> {
    ghost use Rattle.drive.specs.Stores.{Spent, Wrote, Noted};

    // Where the oldest record is; the first page of its block, which is no record's, if it is none of them.
    fn tail_place(&self) -> Address
        ensures { result.page < 256 }
    {
        let block = self.journal.tail_block;
        let offset = self.journal.tail.saturating_sub(self.first_of(block));
        let page = if offset < 255 { offset as u32 + 1 } else { 0 };
        Address { block, page }
    }

    // The tail moves on by one record, and to the next block where that was the block's last.
    fn pass(&mut self)
        ensures spent { Spent 0 self.old self.new }
        ensures noted { Noted self.old self.new }
        ensures room { self.new.room.now ≡ self.old.room.now }
    {
        self.journal.tail = self.journal.tail.saturating_add(1);
        let block = self.journal.tail_block;
        let next = self.successor_of(block);
        if block != self.journal.block
            && self.journal.tail >= self.end_of(block)
            && next < self.journal.shape.blocks
        {
            self.journal.tail_block = next;
        }
    }

    // Where a sector is. Without a place it holds noughts, by every log whose places the room has.
    pub fn find(&self, sector: u32) -> Option<Address>
        ensures value { sector < self.now.journal.now.shape.total → result ≡ placed (value_at 4 self.now.room.now (place_at self.now.journal.now.shape.blocks sector)) }
        ensures nowhere { (l : Log) → Tabled self.now.journal.now.shape self.now.room.now l → sector < self.now.journal.now.shape.total → result ≡ None → contents l sector ≡ noughts }
    {
        if sector < self.journal.shape.total {
            self.place_of(sector)
        } else {
            None
        }
    }

    // Notes that a sector is where the newest record is.
    pub fn note_place(&mut self, sector: u32)
        ensures spent { Spent 0 self.old self.new }
        ensures wrote { Wrote self.old self.new }
    {
        if sector < self.journal.shape.total {
            let newest = Address {
                block: self.journal.block,
                page: self.journal.count,
            };
            self.set_place(sector, newest);
        }
    }

    // Whether the oldest record is the newest of its sector.
    fn is_needed(&self, content: Content) -> bool {
        let Content::Data { sector, .. } = content else {
            return false;
        };
        self.find(sector.number) == Some(self.tail_place())
    }

    // Mends the data of the page in the room.
    pub fn mend_page(&mut self)
        ensures spent { Spent 0 self.old self.new }
        ensures wrote { Wrote self.old self.new }
    {
        codec::unseal(&mut self.room[PAGE..LIST]);
    }
}

impl<C: Chip> Store<'_, C> {
    ghost use Rattle.drive.specs.Stores.{Went};

    // The oldest record, if it can be read.
    fn show_oldest(&mut self) -> Result<Option<RecordMark>, Gone>
        requires { 1 ≤ self.old.journal.now.asks }
        ensures { Went 1 result self.old self.new }
    {
        let place = self.tail_place();
        match self.show_record(place)? {
            Some(record) if record.index.index == self.journal.tail => Ok(Some(record)),
            _ => Ok(None),
        }
    }

    // Looks at the oldest record: if it is still needed it is copied, and the tail moves on. False if that failed.
    pub fn look(&mut self) -> Result<bool, Gone>
        requires { 4 ≤ self.old.journal.now.asks }
        ensures { Went 4 result self.old self.new }
    {
        let Some(record) = self.show_oldest()? else {
            self.journal.stuck = true;
            return Ok(false);
        };
        if self.is_needed(record.content) {
            return self.copy(record.content);
        }
        self.pass();
        Ok(true)
    }

    // Copies the oldest record, which was just read, to the head, and moves the tail on.
    fn copy(&mut self, content: Content) -> Result<bool, Gone>
        requires { 3 ≤ self.old.journal.now.asks }
        ensures { Went 3 result self.old self.new }
    {
        self.mend_page();
        if !self.append(as_copy(content), PageIndex { index: 1 })? {
            return Ok(false);
        }
        if let Content::Data { sector, .. } = content {
            self.note_place(sector.number);
        }
        self.pass();
        Ok(true)
    }
}

// A record as a copy of it is marked.
fn as_copy(content: Content) -> Content {
    let origin = Origin::Copied;
    match content {
        Content::Data { sector, .. } => Content::Data { origin, sector },
        Content::Table { page, .. } => Content::Table { origin, page },
        seal => seal,
    }
}
