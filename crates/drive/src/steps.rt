// The steps of commands: one record looked at, one sector taken, or a read.
ghost use Rattle.std.specs.Prelude.{◌≡◌, ◌≤◌, length};

use crate::journal::Journal;
use crate::queue::Pending;
use crate::room::PAGE;
use crate::store::Store;
use crate::tag::Tag;
use crate::{Ask, Chip, Gone};
use record::marks::{Content, Origin, SealOrigin};
use record::numbers::{PageIndex, SectorNumber};

// What a fresh record is to hold: a sector of what a write brought, noughts, or nothing.
#[derive(Clone, Copy)]
pub enum Source {
    Written { tag: Tag, i: u32 },
    Noughts,
    Nothing,
}

impl Journal {
    // How many records the log may have before its oldest are looked at.
    fn threshold(&self) -> u64 {
        let blocks = u64::from(self.shape.blocks);
        let good = blocks - blocks / 16;
        let spare = (blocks / 16).max(4);
        let full = good.saturating_sub(3).saturating_sub(spare);
        let records = u64::from(self.shape.pages).saturating_sub(1);
        full.saturating_mul(records).saturating_mul(14) / 15
    }

    // Whether the oldest record is to be looked at before the next fresh one.
    fn owes_look(&self) -> bool {
        let most = if self.owed { 43 } else { 14 };
        self.looked < most && self.next_index().saturating_sub(self.tail) > self.threshold()
    }
}

impl<C: Chip> Store<'_, C> {
    ghost use Rattle.drive.specs.Stores.{Spent, Went, Wrote};

    // Puts what a fresh record is to hold into the page in the room.
    fn load(&mut self, source: Source)
        ensures spent { Spent 0 self.old self.new }
        ensures wrote { Wrote self.old self.new }
    {
        match source {
            Source::Written { tag, i } if i < 8 => {
                self.copy_data(32768 * usize::from(tag.number) + 4096 * i as usize, PAGE);
            }
            Source::Noughts => self.room[PAGE..PAGE + 4096].fill(0),
            _ => {}
        }
    }

    // Looks at the oldest record, if that is owed; whether it was.
    fn look_first(&mut self) -> Result<bool, Gone>
        requires { 4 ≤ self.old.journal.now.asks }
        ensures { Went 4 result self.old self.new }
    {
        if !self.journal.owes_look() {
            return Ok(false);
        }
        if self.look()? {
            self.journal.looked = self.journal.looked.saturating_add(1);
        }
        Ok(true)
    }

    // One step towards a fresh record; whether it was appended.
    fn append_fresh(&mut self, content: Content, source: Source) -> Result<bool, Gone>
        requires { 8 ≤ self.old.journal.now.asks }
        ensures { Went 8 result self.old self.new }
    {
        if self.look_first()? {
            return Ok(false);
        }
        self.load(source);
        if !self.append(content, PageIndex { index: 1 })? {
            return Ok(false);
        }
        self.journal.looked = 0;
        self.journal.owed = false;
        Ok(true)
    }

    // One step towards a sector's new content; whether it is there.
    fn write_sector(&mut self, sector: u64, source: Source) -> Result<bool, Gone>
        requires { 8 ≤ self.old.journal.now.asks }
        ensures { Went 8 result self.old self.new }
    {
        let Some(sector) = sector_number(sector) else {
            return Ok(false);
        };
        let content = Content::Data {
            origin: Origin::Fresh,
            sector,
        };
        if !self.append_fresh(content, source)? {
            return Ok(false);
        }
        self.note_place(sector.number);
        Ok(true)
    }

    // One step towards a seal; whether it is there.
    fn write_seal(&mut self) -> Result<bool, Gone>
        requires { 8 ≤ self.old.journal.now.asks }
        ensures { Went 8 result self.old self.new }
    {
        let seal = Content::Seal {
            origin: SealOrigin::Flush,
        };
        self.append_fresh(seal, Source::Nothing)
    }
}

// The number as one of a sector, if it may be one.
fn sector_number(number: u64) -> Option<SectorNumber> {
    let number = u32::try_from(number).ok()?;
    number.try_into().ok()
}

// What a step did for a command: it has ended, one of its sectors was taken, or it goes on.
#[derive(Clone, Copy)]
pub enum Progress {
    Ended,
    Taken,
    Waiting,
}

// After a sector was taken or not, so many of so many being done before.
fn after_sector(taken: bool, done: u32, many: u32) -> Progress {
    if !taken {
        return Progress::Waiting;
    }
    if done.saturating_add(1) >= many {
        Progress::Ended
    } else {
        Progress::Taken
    }
}

impl<C: Chip> Store<'_, C> {
    ghost use Rattle.drive.specs.Stores.{Rose};

    // Reads the sectors of a command; false if what they hold isn't known.
    fn read_all(&mut self, out: &mut [u8], from: u64, many: u32) -> Result<bool, Gone>
        requires { length out.old ≡ 32768 }
        ensures { Rose result self.old self.new }
    {
        if many > 8 {
            return Ok(false);
        }
        for (i, part) in (0..many).zip(out.chunks_exact_mut(4096)) {
            let Some(sector) = sector_number(from.saturating_add(u64::from(i))) else {
                return Ok(false);
            };
            if self.journal.blind || self.journal.asks < 1 {
                return Ok(false);
            }
            if !self.read_sector(sector.number, part)? {
                return Ok(false);
            }
        }
        Ok(true)
    }

    // One step for a command.
    pub fn step(&mut self, out: &mut [u8], tag: Tag, pending: Pending) -> Result<Progress, Gone>
        requires soon { 8 ≤ self.old.journal.now.asks }
        requires lent { length out.old ≡ 32768 }
        ensures { Rose result self.old self.new }
    {
        let done = pending.taken;
        match pending.ask {
            Ask::Read { from, many } => {
                let read = self.read_all(out, from, many)?;
                Ok(if read {
                    Progress::Ended
                } else {
                    Progress::Waiting
                })
            }
            Ask::Write { from, many } => {
                let sector = from.saturating_add(u64::from(done));
                let taken = self.write_sector(sector, Source::Written { tag, i: done })?;
                Ok(after_sector(taken, done, many))
            }
            Ask::Trim { from, many } => {
                let sector = from.saturating_add(u64::from(done));
                let taken = self.write_sector(sector, Source::Noughts)?;
                Ok(after_sector(taken, done, many))
            }
            Ask::Flush => {
                let sealed = self.write_seal()?;
                Ok(after_sector(sealed, 0, 1))
            }
        }
    }
}
