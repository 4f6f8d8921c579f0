// The commands under way: which stands under each tag, how much of it is done, and which came first.
ghost use Rattle.std.specs.Prelude.{◌≡◌, ℕ, ◌+◌, ◌*◌, ◌<◌, ◌≤◌, List, length, OnOk};
ghost use Rattle.std.specs.Option.{option_map};
ghost use Rattle.refusals.specs.Refusals.{answered, has};
ghost use Rattle.drive.specs.Host.{Seen, changes};
ghost use Rattle.drive.specs.Promise.{cmd_of};
ghost use Rattle.drive.specs.Admission.{many_of};
ghost use Rattle.drive.specs.Queue.{slot_at, busy, Puts, Adds, First, Under, verdict, Settles, Keeps};
ghost use Rattle.drive.specs.Service.{SameAsks};

use crate::Ask;
use crate::admission::admit;
use crate::tag::Tag;
use refusals::{Refusal, Tags};

// A command under way, how many of its sectors are done, and how many commands came before it.
#[derive(Clone, Copy)]
pub struct Pending {
    pub ask: Ask,
    pub taken: u32,
    pub since: u64,
}

// The commands under way by tag, and how many have come so far; by default none.
#[derive(Default, Drop)]
pub struct Queue {
    pub slots: [Option<Pending>; 8],
    pub arrivals: u64,
}

impl Queue {
    // The command under a tag, if one is under way there.
    pub fn slot(&self, tag: u8) -> Option<Pending>
        ensures { result ≡ slot_at self.now tag }
    {
        *self.slots.get(usize::from(tag))?
    }

    // Puts a command under a tag, or none.
    fn put(&mut self, tag: Tag, slot: Option<Pending>)
        ensures { Puts self.old tag.number slot self.new }
    {
        self.slots[usize::from(tag.number)] = slot;
    }

    // Which tags name a command under way.
    pub fn tags(&self) -> Tags
        ensures { (t : ℕ) → has result t ≡ busy (slot_at self.now t) }
    {
        Tags {
            flags: self.slots.map(|slot| slot.is_some()),
        }
    }

    // A command comes under a tag, none of it done.
    fn add(&mut self, tag: Tag, ask: Ask)
        ensures { Adds self.old tag.number ask self.new }
    {
        let command = Pending {
            ask,
            taken: 0,
            since: self.arrivals,
        };
        self.put(tag, Some(command));
        self.arrivals = self.arrivals.saturating_add(1);
    }

    // One more sector of a command is taken.
    pub fn advance(&mut self, tag: Tag, pending: Pending)
        requires { slot_at self.old tag.number ≡ Some pending }
        ensures { SameAsks self.old self.new }
    {
        let taken = pending.taken.saturating_add(1);
        self.put(tag, Some(Pending { taken, ..pending }));
    }

    // The command under a tag is done.
    pub fn end(&mut self, tag: Tag)
        ensures { Puts self.old tag.number None self.new }
    {
        self.put(tag, None);
    }

    // The number of the tag whose command came first; of two that came at once the lower.
    fn first(&self) -> Option<u8>
        ensures { First self.now 8 result }
    {
        (0..8)
            .filter_map(|tag| Some((self.slot(tag)?.since, tag)))
            .min()
            .map(|(_, tag)| tag)
    }

    // The tag of the command that came first.
    pub fn front(&self) -> Option<Tag>
        ensures { First self.now 8 (option_map (λ t. t.number) result) }
    {
        let number = self.first()?;
        Some(Tag { number })
    }

    // Takes a command in under its tag, if it may begin; else all is as before.
    pub fn accept(&mut self, worn_out: bool, sectors: u64, tag: u8, a: Ask) -> Result<Tag, Refusal>
        ensures told { (h : Seen) (bs : List ℕ) → Under self.old h → answered result ≡ verdict worn_out sectors h tag (cmd_of a bs) }
        ensures settles { Settles result self.old tag a self.new }
        ensures few { OnOk result (many_of a ≤ 8) }
    {
        admit(sectors, &self.tags(), tag, a)?;
        if worn_out && changes(a) {
            return Err(Refusal::WornOut);
        }
        let tag = Tag { number: tag };
        self.add(tag, a);
        Ok(tag)
    }
}

// Whether a command changes what is kept.
#[tactic(auto, unfolding(crate::specs::Promise::cmd_of, crate::specs::Host::changes))]
fn changes(a: Ask) -> bool
    ensures { (bs : List ℕ) → result ≡ changes (cmd_of a bs) }
{
    matches!(a, Ask::Write { .. } | Ask::Trim { .. })
}

// Keeps what a command brings: of a write its sectors, in the part of the room that belongs to its tag.
#[tactic(auto, using(std::proofs::lemmas::Slice::overwrites))]
pub fn keep_bytes(room: &mut [u8], tag: Tag, a: Ask, bytes: &[u8])
    requires few { many_of a ≤ 8 }
    requires lent { (262144 ≤ length room.old) × (32768 ≤ length bytes.now) }
    ensures { Keeps room.old tag.number a bytes.now room.new }
{
    if let Ask::Write { many, .. } = a {
        let at = 32768 * usize::from(tag.number);
        let len = 4096 * many as usize;
        room[at..at + len].copy_from_slice(&bytes[..len]);
    }
}
