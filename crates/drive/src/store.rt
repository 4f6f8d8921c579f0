// The chip, the room and the journal together, and single asks.
ghost use Rattle.std.specs.Prelude.{◌≡◌, ◌<◌, ◌≤◌, true, IfSome};
ghost use Rattle.std.proofs.Props.{props};
ghost use Rattle.drive.specs.Journals.{Ready, Free};

use crate::chip_ops::{Programmed, erase_block, program_next, read_mark};
use crate::journal::Journal;
use crate::room::Address;
use crate::{Chip, Gone};
use record::marks::{Mark, RecordMark};
use std::mem::take;

// A journal, with the chip that its log lies on and the room that is lent to it.
#[derive(Drop)]
pub struct Store<'a, C: Chip> {
    pub chip: &'a mut C,
    pub room: &'a mut [u8],
    pub journal: &'a mut Journal,
    ghost ready: { Ready (C.nand chip.now) journal.now room.now } by { Prim.hlevel props },
}

// Each function that asks the chip says how many asks it may need: these numbers are its own, so no fact of the type.
impl<C: Chip> Store<'_, C> {
    ghost use Rattle.drive.specs.Stores.{Went};

    // Reads a page into the room, and the mark that it shows; none where the chip has no such page.
    pub fn show(&mut self, place: Address) -> Result<Option<Mark>, Gone>
        requires { 1 ≤ self.old.journal.now.asks }
        ensures { Went 1 result self.old self.new }
    {
        let shape = self.journal.shape;
        if place.block >= shape.blocks || place.page >= shape.pages {
            return Ok(None);
        }
        self.journal.asks -= 1;
        let mark = read_mark(self.chip, self.room, place)?;
        Ok(mark)
    }

    // The same of a page that should be a record.
    pub fn show_record(&mut self, place: Address) -> Result<Option<RecordMark>, Gone>
        requires { 1 ≤ self.old.journal.now.asks }
        ensures { Went 1 result self.old self.new }
    {
        match self.show(place)? {
            Some(Mark::Record(record)) => Ok(Some(record)),
            _ => Ok(None),
        }
    }

    // Programs a page of the room as the head's next page; false if there is no head, or its block went bad.
    pub fn put(&mut self, at: usize) -> Result<bool, Gone>
        requires soon { 1 ≤ self.old.journal.now.asks }
        requires within { at ≤ 266496 }
        ensures went { Went 1 result self.old self.new }
        ensures room { self.new.room.now ≡ self.old.room.now }
    {
        let journal = &mut *self.journal;
        let Some(head) = journal.head.take() else {
            return Ok(false);
        };
        journal.asks -= 1;
        // Taken out meanwhile: of a `&` of the room's bytes beside the chip's `&mut` it isn't known afterwards that they are the same.
        let room = take(&mut self.room);
        let programmed = program_next(self.chip, head, &room[at..at + 4352]);
        self.room = room;
        match programmed? {
            Programmed::Next(next) => {
                self.journal.head = Some(next);
                Ok(true)
            }
            Programmed::Full => Ok(true),
            Programmed::Failed => {
                self.journal.bad = self.journal.bad.saturating_add(1);
                Ok(false)
            }
        }
    }

    // Erases a block, which is then the head with a number above all others; false if it went bad.
    pub fn take_block(&mut self, block: u32) -> Result<bool, Gone>
        requires soon { 1 ≤ self.old.journal.now.asks }
        requires free { Free (C.nand self.old.chip.now) block }
        ensures went { Went 1 result self.old self.new }
        ensures room { self.new.room.now ≡ self.old.room.now }
    {
        self.journal.asks -= 1;
        self.journal.head = None;
        self.journal.highest = self.journal.highest.saturating_add(1);
        match erase_block(self.chip, block)? {
            Some(head) => {
                self.journal.head = Some(head);
                Ok(true)
            }
            None => {
                self.journal.bad = self.journal.bad.saturating_add(1);
                Ok(false)
            }
        }
    }

    // Whether a block is free and not bad, and another may be given a higher number.
    fn is_usable(&self, block: u32) -> bool
        requires { block < self.now.journal.now.shape.blocks }
        ensures { result ≡ true → Free (C.nand self.now.chip.now) block }
    {
        self.is_free(block) && self.number_of(block) < u64::MAX && !self.chip.is_bad(block)
    }

    // The free block with the lowest number, if one is left.
    pub fn lowest(&self) -> Option<u32>
        ensures { IfSome result (λ b. Free (C.nand self.now.chip.now) b) }
    {
        (0..self.journal.shape.blocks)
            .filter(|&b| self.is_usable(b))
            .min_by_key(|&b| self.number_of(b))
    }
}
