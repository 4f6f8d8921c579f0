// The blocks of the log: which one is next, and what is noted of each.
ghost use Rattle.std.specs.Prelude.{◌<◌, ◌≤◌};

use crate::Chip;
use crate::room::{LIST, PAGE, Standing};
use crate::store::Store;
use record::entries::{write_entry, write_header};
use record::headers::HeaderData;
use record::layout::to_bytes;
use record::marks::{Content, HeaderMark, Mark, RecordMark};
use record::numbers::{BlockNumber, PageIndex, RecordIndex};

impl<C: Chip> Store<'_, C> {
    ghost use Rattle.drive.specs.Stores.{Spent, Wrote, Noted};

    // Makes the header of a successor, in the room.
    pub fn make_header(&mut self, commit: PageIndex)
        ensures spent { Spent 0 self.old self.new }
        ensures wrote { Wrote self.old self.new }
    {
        let predecessor = self.journal.predecessor();
        let tail = RecordIndex {
            index: self.journal.last_tail,
        };
        let header = HeaderData {
            first: RecordIndex {
                index: self.journal.next_index(),
            },
            predecessor,
            tail,
            keep: RecordIndex {
                index: self.journal.keep(),
            },
        };
        write_header(&mut self.room[LIST..LIST + 4096], header);
        let mark = HeaderMark {
            commit,
            predecessor: predecessor.map(|p| p.block),
            number: BlockNumber {
                number: self.journal.highest,
            },
            tail,
            bad_blocks: self.journal.bad,
        };
        self.seal_at(LIST, Mark::Header(mark));
    }

    // Makes the next record of the page in the room.
    pub fn make_record(&mut self, content: Content)
        ensures spent { Spent 0 self.old self.new }
        ensures wrote { Wrote self.old self.new }
    {
        let record = RecordMark {
            content,
            index: RecordIndex {
                index: self.journal.next_index(),
            },
            tail: RecordIndex {
                index: self.journal.tail,
            },
        };
        self.seal_at(PAGE, Mark::Record(record));
    }

    // Seals a page of the room under a mark.
    pub fn seal_at(&mut self, at: usize, mark: Mark)
        requires { at ≤ 266496 }
        ensures spent { Spent 0 self.old self.new }
        ensures wrote { Wrote self.old self.new }
    {
        let mut bytes = [0u8; 32];
        to_bytes(mark, &mut bytes);
        codec::seal(&mut self.room[at..at + 4352], &bytes);
    }

    // The index behind the last record of a block.
    pub fn end_of(&self, block: u32) -> u64
        requires { block < self.now.journal.now.shape.blocks }
    {
        let records = self.records_of(block);
        self.first_of(block).saturating_add(u64::from(records))
    }

    // Lets go of the oldest block of the log if all of its records are older than a tail; whether it did.
    fn release_oldest(&mut self, tail: u64) -> bool
        ensures spent { Spent 0 self.old self.new }
        ensures noted { Noted self.old self.new }
    {
        let block = self.journal.oldest;
        let next = self.successor_of(block);
        if block == self.journal.block
            || self.end_of(block) > tail
            || next >= self.journal.shape.blocks
        {
            return false;
        }
        self.set_standing(block, Standing::Free);
        self.journal.oldest = next;
        true
    }

    // Lets go of what no look needs once the newest block has a successor.
    pub fn release(&mut self)
        ensures spent { Spent 0 self.old self.new }
        ensures noted { Noted self.old self.new }
    {
        let keep = self.journal.keep();
        for _ in 0..self.journal.shape.blocks {
            if !self.release_oldest(keep) {
                break;
            }
        }
    }

    // Notes that a block, whose header and first record were programmed, is the newest of the log.
    pub fn adopt(&mut self, block: u32)
        requires { block < self.old.journal.now.shape.blocks }
        ensures spent { Spent 0 self.old self.new }
        ensures noted { Noted self.old self.new }
    {
        let first = self.journal.next_index();
        let number = self.journal.highest;
        self.set_number(block, number);
        self.set_first(block, first);
        self.set_standing(block, Standing::Kept);
        self.link(block);
        self.journal.begin_block(block);
    }

    // Links a new block to the newest one, if that is kept.
    fn link(&mut self, block: u32)
        requires { block < self.old.journal.now.shape.blocks }
        ensures spent { Spent 0 self.old self.new }
        ensures noted { Noted self.old self.new }
    {
        let newest = self.journal.block;
        if self.journal.count == 0 || self.is_free(newest) {
            self.journal.oldest = block;
        } else {
            self.set_successor(newest, block);
        }
    }

    // Notes a record that was programmed behind the others of the newest block.
    pub fn note_record(&mut self, content: Content)
        ensures spent { Spent 0 self.old self.new }
        ensures noted { Noted self.old self.new }
    {
        self.list_record(content);
        self.journal.note_tail(content);
    }

    // Puts it on the newest block's list, which its successor's header will have.
    fn list_record(&mut self, content: Content)
        ensures spent { Spent 0 self.old self.new }
        ensures noted { Noted self.old self.new }
    {
        let count = self.journal.count;
        if count >= 255 {
            return;
        }
        write_entry(&mut self.room[LIST..LIST + 4096], count as usize, content);
        self.journal.count = count + 1;
        self.set_records(self.journal.block, count as u16 + 1);
    }
}
