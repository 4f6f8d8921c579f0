// Coming up: what is believed is written down in a block of its own before anything else is done.
ghost use Rattle.std.specs.Prelude.{◌≡◌, ◌<◌, ◌≤◌};

use crate::belief::Belief;
use crate::journal::Journal;
use crate::room::{Address, LIST, PAGE, Standing};
use crate::store::Store;
use crate::survey::Candidate;
use crate::{Chip, Gone};
use record::headers::HeaderData;
use record::marks::{Content, Mark, SealOrigin, VoidMark};
use record::numbers::{BlockNumber, PageIndex, RecordCount, RecordIndex};

impl Journal {
    ghost use Rattle.drive.specs.Journals.{Alike};

    // Stands where the predecessor of a head stood, with what is believed; the head's records follow.
    fn inherit(&mut self, header: HeaderData, tail: u64)
        ensures alike { Alike self.old self.new }
        ensures oldest { (self.new.oldest ≡ self.old.oldest) × (self.new.tail_block ≡ self.old.tail_block) }
    {
        self.tail = tail;
        self.last_tail = tail;
        self.before_tail = header.keep.index;
        self.first = header.first.index;
        self.count = 0;
        if let Some(named) = header.predecessor {
            let block = named.block.index;
            if block < self.shape.blocks {
                self.block = block;
                self.number = named.number.number;
                self.count = named.records.count;
                self.first = header.first.index.saturating_sub(u64::from(self.count));
            }
        }
    }

    // It is up: the newest record is a seal.
    fn arrive(&mut self, owed: bool)
        ensures { Alike self.old self.new }
    {
        self.rising = false;
        self.blind = false;
        self.last_tail = self.tail;
        self.before_tail = self.tail;
        self.last_seal = true;
        self.owed = owed;
    }
}

// Clearing.
impl<C: Chip> Store<'_, C> {
    ghost use Rattle.drive.specs.Stores.{Spent, Went, Rose, Wrote};

    // Makes a void header.
    fn make_void(&mut self)
        ensures spent { Spent 0 self.old self.new }
        ensures wrote { Wrote self.old self.new }
    {
        let void = VoidMark {
            number: BlockNumber { number: 0 },
            tail: RecordIndex { index: 0 },
        };
        self.seal_at(PAGE, Mark::Void(void));
    }

    // Erases a block whose header can't be read, and gives it a void header.
    fn clear_block(&mut self, block: u32) -> Result<(), Gone>
        requires soon { 2 ≤ self.old.journal.now.asks }
        requires within { block < self.old.journal.now.shape.blocks }
        ensures { Went 2 result self.old self.new }
    {
        if self.chip.is_bad(block) {
            return Ok(());
        }
        if self.take_block(block)? {
            self.make_void();
            let _written = self.put(PAGE)?;
        }
        self.note_block(block, 0, Standing::Free);
        Ok(())
    }

    // Does so with all of them.
    fn clear_unreadable(&mut self) -> Result<(), Gone>
        ensures { Rose result self.old self.new }
    {
        for block in 0..self.journal.shape.blocks {
            if self.journal.asks < 2 {
                break;
            }
            if self.standing_of(block) == Standing::Unreadable {
                self.clear_block(block)?;
            }
        }
        self.journal.head = None;
        Ok(())
    }
}

// Copying.
impl<C: Chip> Store<'_, C> {
    ghost use Rattle.drive.specs.Stores.{Went, Rose};

    // Appends a record of the head, trying again as long as blocks are left; so many are still to come, with this one.
    fn append_rest(&mut self, content: Content, rest: u32) -> Result<bool, Gone>
        ensures { Rose result self.old self.new }
    {
        let commit = PageIndex {
            index: rest.min(255) as u16,
        };
        for _ in 0..=self.journal.shape.blocks {
            if self.journal.stuck || self.journal.asks < 3 {
                break;
            }
            if self.append(content, commit)? {
                return Ok(true);
            }
        }
        Ok(false)
    }

    // Copies a page of the head.
    fn copy_page(&mut self, head: Candidate, page: u32, rest: u32) -> Result<bool, Gone>
        requires { 1 ≤ self.old.journal.now.asks }
        ensures { Rose result self.old self.new }
    {
        let place = Address {
            block: head.block,
            page,
        };
        let Some(record) = self.show_record(place)? else {
            return Ok(false);
        };
        self.mend_page();
        if !self.append_rest(record.content, rest)? {
            return Ok(false);
        }
        if let Content::Data { sector, .. } = record.content {
            self.note_place(sector.number);
        }
        Ok(true)
    }

    // Copies so many of the head's records, and seals them. A seal that was believed isn't looked at again: it may not be seen twice.
    fn copy_head(
        &mut self,
        head: Candidate,
        count: RecordCount,
        origin: SealOrigin,
    ) -> Result<bool, Gone>
        ensures { Rose result self.old self.new }
    {
        let RecordCount { count } = count;
        for done in 0..count {
            if self.journal.asks < 1 {
                return Ok(false);
            }
            if !self.copy_page(head, done + 1, count - done + 1)? {
                return Ok(false);
            }
        }
        self.append_rest(Content::Seal { origin }, 1)
    }
}

// All of it.
impl<C: Chip> Store<'_, C> {
    ghost use Rattle.drive.specs.Stores.{Spent, Rose, Noted};

    // How many blocks are bad.
    fn count_bad(&self) -> u32 {
        let blocks = 0..self.journal.shape.blocks;
        blocks.filter(|&b| self.chip.is_bad(b)).count() as u32
    }

    // The head that is believed, and the log behind it. None if it can't be read.
    fn find_log(&mut self, head: Candidate) -> Result<Option<Belief>, Gone>
        ensures { Rose result self.old self.new }
    {
        if self.journal.asks < 1 {
            return Ok(None);
        }
        let Some(header) = self.read_header_of(head.block)? else {
            return Ok(None);
        };
        let belief = self.believe(head, header.tail.index)?;
        let whole = self.retrace(head.block, header, belief.tail)?;
        Ok(whole.then_some(belief))
    }

    // Goes back over the log from a head whose last believed record carries this tail; false if it is broken off.
    fn retrace(&mut self, head: u32, header: HeaderData, tail: u64) -> Result<bool, Gone>
        ensures { Rose result self.old self.new }
    {
        if head >= self.journal.shape.blocks || self.journal.asks < 1 {
            return Ok(false);
        }
        if self.read_header_of(head)?.is_none() {
            return Ok(false);
        }
        self.take_over(head, header, tail);
        self.walk(head, header)
    }

    // Keeps the head, and stands where its predecessor stood.
    fn take_over(&mut self, head: u32, header: HeaderData, tail: u64)
        requires { head < self.old.journal.now.shape.blocks }
        ensures spent { Spent 0 self.old self.new }
        ensures noted { Noted self.old self.new }
    {
        self.copy_data(PAGE, LIST);
        self.clear_places();
        self.set_standing(head, Standing::Kept);
        self.journal.inherit(header, tail);
    }

    // Writes down what is believed. False if that can't be done.
    fn settle(&mut self, head: Candidate, belief: Belief) -> Result<bool, Gone>
        ensures { Rose result self.old self.new }
    {
        self.clear_unreadable()?;
        let RecordCount { count } = belief.count;
        let copied = RecordCount {
            count: if belief.sealed {
                count.saturating_sub(1)
            } else {
                count
            },
        };
        let origin = if belief.sealed && !belief.owed {
            SealOrigin::Flush
        } else {
            SealOrigin::Recovery
        };
        self.copy_head(head, copied, origin)
    }

    // Comes up on a chip that was used; the old head may be taken then.
    fn rise_again(&mut self, head: Candidate) -> Result<bool, Gone>
        ensures { Rose result self.old self.new }
    {
        let Some(belief) = self.find_log(head)? else {
            return Ok(false);
        };
        if !self.settle(head, belief)? {
            return Ok(false);
        }
        if head.block < self.journal.shape.blocks {
            self.set_standing(head.block, Standing::Free);
        }
        self.journal.arrive(belief.owed || !belief.sealed);
        Ok(true)
    }

    // Comes up on a new chip: no sector has a place, and the log is a seal.
    fn rise_new(&mut self) -> Result<bool, Gone>
        ensures { Rose result self.old self.new }
    {
        self.clear_places();
        self.clear_unreadable()?;
        let origin = SealOrigin::Recovery;
        if !self.append_rest(Content::Seal { origin }, 1)? {
            return Ok(false);
        }
        self.journal.arrive(true);
        Ok(true)
    }

    // Comes up. False if nothing can be believed, or there is no block to write it down.
    pub fn rise(&mut self) -> Result<bool, Gone>
        ensures { Rose result self.old self.new }
    {
        self.journal.bad = self.count_bad();
        let survey = self.survey()?;
        if self.journal.stuck {
            return Ok(false);
        }
        match survey.best {
            Some(head) => self.rise_again(head),
            None if survey.foreign => Ok(false),
            None => self.rise_new(),
        }
    }
}
