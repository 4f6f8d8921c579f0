// Coming up, second part: back over the log, newest first, to where each sector is.
ghost use Rattle.std.specs.Prelude.{◌<◌, ◌≤◌};

use crate::room::{Address, PAGE, Standing};
use crate::store::Store;
use crate::{Chip, Gone};
use record::entries::{read_entry, read_header};
use record::headers::{HeaderData, Predecessor};
use record::marks::Content;
use record::numbers::RecordCount;

// A block of the log, by what its successor's header says: where its records begin, how many count, and which block comes behind.
#[derive(Clone, Copy)]
pub struct Stretch {
    pub block: u32,
    pub first: u64,
    pub records: RecordCount,
    pub above: u32,
}

impl<C: Chip> Store<'_, C> {
    ghost use Rattle.drive.specs.Stores.{Spent, Wrote, Noted};

    // Notes the place of a record's sector, unless a newer one is known.
    fn place_entry(&mut self, content: Content, place: Address)
        requires { (place.block < 65536) × (place.page < 256) }
        ensures spent { Spent 0 self.old self.new }
        ensures wrote { Wrote self.old self.new }
    {
        if let Content::Data { sector, .. } = content {
            let sector = sector.number;
            if sector < self.journal.shape.total && self.place_of(sector).is_none() {
                self.set_place(sector, place);
            }
        }
    }

    // Notes the places of a block's records, newest first, as the header in the room has them.
    fn place_entries(&mut self, stretch: Stretch)
        requires { stretch.block < self.old.journal.now.shape.blocks }
        ensures spent { Spent 0 self.old self.new }
        ensures wrote { Wrote self.old self.new }
    {
        for i in (0..stretch.records.count).rev() {
            if stretch.first.saturating_add(u64::from(i)) < self.journal.tail {
                break;
            }
            let place = Address {
                block: stretch.block,
                page: i + 1,
            };
            if let Ok(content) = read_entry(&self.room[PAGE..PAGE + 4096], i as usize) {
                self.place_entry(content, place);
            }
        }
    }

    // Notes that a block is in the log.
    fn note_stretch(&mut self, stretch: Stretch)
        requires { stretch.block < self.old.journal.now.shape.blocks }
        ensures spent { Spent 0 self.old self.new }
        ensures noted { Noted self.old self.new }
    {
        let Stretch {
            block,
            first,
            records: RecordCount { count },
            above,
        } = stretch;
        self.place_entries(stretch);
        self.set_first(block, first);
        self.set_records(block, count as u16);
        self.set_successor(block, above);
        self.set_standing(block, Standing::Kept);
        self.journal.oldest = block;
        let tail = self.journal.tail;
        if first <= tail && tail < first.saturating_add(u64::from(count)) {
            self.journal.tail_block = block;
        }
    }
}

impl<C: Chip> Store<'_, C> {
    ghost use Rattle.drive.specs.Stores.{Went, Rose};

    // Reads a block's header data into the room.
    pub fn read_header_of(&mut self, block: u32) -> Result<Option<HeaderData>, Gone>
        requires { 1 ≤ self.old.journal.now.asks }
        ensures { Went 1 result self.old self.new }
    {
        if self.show(Address { block, page: 0 })?.is_none() {
            return Ok(None);
        }
        self.mend_page();
        Ok(read_header(&self.room[PAGE..PAGE + 4096]).ok())
    }

    // Notes a block that a header in the room names, if it still has that number, and reads its own header.
    fn walk_block(
        &mut self,
        named: Predecessor,
        stretch: Stretch,
    ) -> Result<Option<HeaderData>, Gone>
        requires { 1 ≤ self.old.journal.now.asks }
        ensures { Went 1 result self.old self.new }
    {
        let block = stretch.block;
        if block >= self.journal.shape.blocks || self.number_of(block) != named.number.number {
            return Ok(None);
        }
        self.note_stretch(stretch);
        self.read_header_of(block)
    }

    // Walks back from a block, whose header data stand in the room, to the tail and on to what must be kept. False if the log is broken off.
    pub fn walk(&mut self, block: u32, header: HeaderData) -> Result<bool, Gone>
        ensures { Rose result self.old self.new }
    {
        let keep = header.keep.index;
        let mut above = block;
        let mut header = header;
        for _ in 0..self.journal.shape.blocks {
            let first = header.first.index;
            let needed = first > self.journal.tail;
            if !needed && first <= keep {
                break;
            }
            let Some(named) = header.predecessor else {
                return Ok(!needed);
            };
            if self.journal.asks < 1 {
                return Ok(false);
            }
            let records = named.records;
            let stretch = Stretch {
                block: named.block.index,
                first: first.saturating_sub(u64::from(records.count)),
                records,
                above,
            };
            let Some(next) = self.walk_block(named, stretch)? else {
                return Ok(!needed);
            };
            above = stretch.block;
            header = next;
        }
        Ok(true)
    }
}
