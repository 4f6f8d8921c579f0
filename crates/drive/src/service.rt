// Between the commands and the log.
ghost use Rattle.std.specs.Prelude.{◌≡◌, false, length, is_ok, IfOk};
ghost use Rattle.drive.specs.Journals.{Ready};
ghost use Rattle.drive.specs.Service.{Serves, Turns};

use crate::journal::Journal;
use crate::queue::Queue;
use crate::steps::Progress;
use crate::store::Store;
use crate::{Chip, Ended, Gone};

impl Journal {
    // Comes up on a chip, or notes that it can't. Not in `open` itself, where the journal is a local variable: what became of it after such calls isn't known there.
    pub fn come_up<C: Chip>(&mut self, c: &mut C, room: &mut [u8]) -> Result<(), Gone>
        requires { Ready (C.nand c.old) self.old room.old }
        ensures ready { IfOk result (λ _. Ready (C.nand c.new) self.new room.new) }
        ensures shape { self.new.shape ≡ self.old.shape }
        ensures off { is_ok result ≡ false → (C.nand c.new).on ≡ false }
    {
        let mut store = Store {
            chip: c,
            room,
            journal: self,
        };
        if !store.rise()? {
            store.journal.stuck = true;
        }
        Ok(())
    }
}

// What was done for the command that came first: there is more to do, nothing can be done now, or it has ended.
pub enum Served {
    More,
    Idle,
    Ended(Ended),
}

// `out` is a slice of 32,768 bytes, as the signature of `turn` has it; an array would have to be made from it there.
impl<C: Chip> Store<'_, C> {
    ghost use Rattle.drive.specs.Stores.{Rose};

    // One step for the command that came first.
    fn serve_front(&mut self, queue: &mut Queue, out: &mut [u8]) -> Result<Served, Gone>
        requires { length out.old ≡ 32768 }
        ensures rose { Rose result self.old self.new }
        ensures serves { Serves queue.old result queue.new }
    {
        if self.journal.asks < 8 {
            return Ok(Served::Idle);
        }
        let Some(tag) = queue.front() else {
            return Ok(Served::Idle);
        };
        let Some(pending) = queue.slot(tag.number) else {
            return Ok(Served::Idle);
        };
        match self.step(out, tag, pending)? {
            Progress::Ended => {
                queue.end(tag);
                Ok(Served::Ended(Ended {
                    tag: tag.number,
                    ask: pending.ask,
                }))
            }
            Progress::Taken => {
                queue.advance(tag, pending);
                Ok(Served::More)
            }
            Progress::Waiting => Ok(if self.journal.stuck {
                Served::Idle
            } else {
                Served::More
            }),
        }
    }

    // At most 64 steps, until a command has ended or nothing can be done now.
    pub fn serve(&mut self, queue: &mut Queue, out: &mut [u8]) -> Result<Option<Ended>, Gone>
        requires { length out.old ≡ 32768 }
        ensures rose { Rose result self.old self.new }
        ensures turns { Turns queue.old result queue.new }
    {
        for _ in 0..64u32 {
            match self.serve_front(queue, out)? {
                Served::More => {}
                Served::Idle => {
                    break;
                }
                Served::Ended(e) => {
                    return Ok(Some(e));
                }
            }
        }
        Ok(None)
    }
}
