// The chip below, whoever asks above, and the life of a drive between them.
#![tactic(auto)]

ghost use Rattle.std.specs.Prelude.{◌≡◌, ℕ, ◌+◌, ◌*◌, ◌<◌, ◌≤◌, false, T, List, ◌∷◌, length, is_ok, ◌≢◌};
ghost use Rattle.drive.specs.Nand.{Nand, MayRead, MayProgram, MayErase, Reading, Programming, Erasing, lit, allowed};
ghost use Rattle.drive.specs.Host.{Event, Explained, Up, Cut, Turned, Told};
ghost use Rattle.drive.specs.Host.{Seen};
ghost use Rattle.drive.specs.Queue.{Under, Adds, Keeps, verdict, busy, slot_at};
ghost use Rattle.drive.specs.Journals.{Sized};
ghost use Rattle.drive.specs.Service.{Came, Standing, Kept, Turns, sectors_of};
ghost use Rattle.drive.specs.Examples.{WhyTold, SixApart};
ghost use Rattle.drive.specs.Shown.{WrittenShown, TornShown, BlankShown};
ghost use Rattle.drive.specs.Promise.{can, room_of, cmd_of, said, tells, MarkLength, MarksTold, NothingMadeUp, LowRises, OneEach, CoreBuilt};

mod admission;
mod append;
mod belief;
mod chain;
mod chip_ops;
mod collect;
mod journal;
mod queue;
mod reading;
mod recovery;
mod room;
mod service;
mod steps;
mod store;
mod survey;
mod tag;
pub mod ties;
mod walk;

pub use admission::admit;
use journal::Journal;
use queue::{Queue, keep_bytes};
pub use refusals::{Refusal, Tags};
use store::Store;

// What a chip answers. Dark: the power has gone, and it answers so from then on.
#[derive(Clone, Copy)]
pub enum Answer {
    Fine,
    Failed,
    Dark,
}

pub trait Chip {
    ghost nand: { Self → Nand };

    fn blocks(&self) -> u32
        ensures { result ≡ (Self.nand self.now).blocks };

    // in each block
    fn pages(&self) -> u32
        ensures { result ≡ (Self.nand self.now).pages };

    fn is_bad(&self, block: u32) -> bool
        requires { block < (Self.nand self.now).blocks }
        ensures { result ≡ ((Self.nand self.now).block block).bad };

    fn read(&mut self, block: u32, page: u32, into: &mut [u8]) -> Answer
        requires { (MayRead (Self.nand self.old) block page) × (length into.old ≡ 4352) }
        ensures { Reading (Self.nand self.old) block page into.new result (Self.nand self.new) };

    fn program(&mut self, block: u32, page: u32, from: &[u8]) -> Answer
        requires { MayProgram (Self.nand self.old) block page from.now }
        ensures { Programming (Self.nand self.old) block page from.now result (Self.nand self.new) };

    fn erase(&mut self, block: u32) -> Answer
        requires { MayErase (Self.nand self.old) block }
        ensures { Erasing (Self.nand self.old) block result (Self.nand self.new) };
}

// What the drive doesn't see.
pub trait Bench: Chip {
    // so often it may be asked now
    fn allow(&mut self, asks: u64)
        ensures { Self.nand self.new ≡ allowed asks (Self.nand self.old) };
    // The power, which has gone, comes back. Nothing is known of what memory holds.
    fn power(&mut self, room: &mut [u8])
        requires { (Self.nand self.old).on ≡ false }
        ensures { Self.nand self.new ≡ lit (Self.nand self.old) };
}

#[derive(Clone, Copy)]
pub enum Ask {
    Read { from: u64, many: u32 },
    Write { from: u64, many: u32 },
    Trim { from: u64, many: u32 },
    Flush,
}

// Whoever asks. What it is told, it may be told: that is the promise.
pub trait Host {
    ghost seen: { Self → List Event };
    // how much more may be noted; whoever notes in finite memory stops in time
    ghost space: { Self → ℕ };

    fn more(&self) -> bool
        ensures { T result → 8 ≤ Self.space self.now };
    // Something is asked, under a tag; what is to be written stands in bytes.
    fn next(&mut self, bytes: &mut [u8]) -> Option<(u8, Ask)>
        ensures { (Self.seen self.new ≡ Self.seen self.old) × (Self.space self.new ≡ Self.space self.old) };

    fn said(&mut self, tag: u8, a: Ask, bytes: &[u8], why: u8, total: u32)
        requires { (Explained can total (said why tag (cmd_of a bytes.now) ∷ Self.seen self.old)) × ((0 < Self.space self.old) × (length bytes.now ≡ 32768)) }
        ensures { (Self.seen self.new ≡ said why tag (cmd_of a bytes.now) ∷ Self.seen self.old) × (Self.space self.old ≤ Self.space self.new + 1) };

    fn told(&mut self, tag: u8, a: Ask, bytes: &[u8], total: u32)
        requires { (Explained can total (Told tag (tells a bytes.now) ∷ Self.seen self.old)) × ((0 < Self.space self.old) × (length bytes.now ≤ 32768)) }
        ensures { (Self.seen self.new ≡ Told tag (tells a bytes.now) ∷ Self.seen self.old) × (Self.space self.old ≤ Self.space self.new + 1) };

    fn turned(&mut self, total: u32)
        requires { (Explained can total (Turned ∷ Self.seen self.old)) × (0 < Self.space self.old) }
        ensures { (Self.seen self.new ≡ Turned ∷ Self.seen self.old) × (Self.space self.old ≤ Self.space self.new + 1) };

    fn up(&mut self)
        requires { 0 < Self.space self.old }
        ensures { (Self.seen self.new ≡ Up ∷ Self.seen self.old) × (Self.space self.old ≤ Self.space self.new + 1) };

    fn cut(&mut self)
        requires { 0 < Self.space self.old }
        ensures { (Self.seen self.new ≡ Cut ∷ Self.seen self.old) × (Self.space self.old ≤ Self.space self.new + 1) };
}

// The power has gone.
#[derive(Drop)]
pub struct Gone;

// What the drive keeps in a struct, beside the room that it is lent: what it knows of its log, and the commands under way.
#[derive(Drop)]
pub struct Drive {
    journal: Journal,
    queue: Queue,
}

pub struct Ended {
    pub tag: u8,
    pub ask: Ask,
}

pub fn open<C: Chip>(c: &mut C, room: &mut [u8]) -> Result<Drive, Gone>
    requires soon { 16 * (C.nand c.old).blocks + 65536 ≤ (C.nand c.old).left }
    requires sized { Sized (C.nand c.old) }
    requires lent { room_of (C.nand c.old).blocks ((C.nand c.old).blocks * (C.nand c.old).pages) ≤ length room.old }
    ensures only { is_ok result ≡ false → (C.nand c.new).on ≡ false }
    ensures came { Came result (C.nand c.new) room.new }
{
    let mut journal = Journal::unknown(c.blocks(), c.pages());
    journal.come_up(c, room)?;
    journal.asks = 0;
    Ok(Drive {
        journal,
        queue: Queue::default(),
    })
}

impl Drive {
    // 0, or why it is turned away, as a number since the signature is fixed. The chip isn't asked.
    pub fn ask(&mut self, room: &mut [u8], tag: u8, a: Ask, bytes: &[u8]) -> u8
        requires lent { (262144 ≤ length room.old) × (32768 ≤ length bytes.now) }
        ensures told { (h : Seen) (bs : List ℕ) → Under self.old.queue h → result ≡ verdict self.old.journal.stuck (sectors_of self.old) h tag (cmd_of a bs) }
        ensures refused { (result ≢ 0) → (self.new ≡ self.old) × (room.new ≡ room.old) }
        ensures begins { result ≡ 0 → (tag < 8) × Adds self.old.queue tag a self.new.queue }
        ensures stored { result ≡ 0 → Keeps room.old tag a bytes.now room.new }
        ensures keeps { self.new.journal ≡ self.old.journal }
    {
        let sectors = 5 * u64::from(self.journal.shape.total) / 8;
        match self.queue.accept(self.journal.stuck, sectors, tag, a) {
            Ok(tag) => {
                keep_bytes(room, tag, a, bytes);
                0
            }
            Err(why) => u8::from(why),
        }
    }

    // Whether no command is under way.
    pub fn is_idle(&self) -> bool
        ensures { T result → (t : ℕ) → t < 8 → busy (slot_at self.now.queue t) ≡ false }
    {
        self.queue.front().is_none()
    }

    // A turn. A command that has ended is handed back; what a read read stands in out.
    pub fn turn<C: Chip>(
        &mut self,
        c: &mut C,
        room: &mut [u8],
        out: &mut [u8],
    ) -> Result<Option<Ended>, Gone>
        requires soon { 64 ≤ (C.nand c.old).left }
        requires stands { Standing (C.nand c.old) self.old room.old }
        requires lent { length out.old ≡ 32768 }
        ensures only { is_ok result ≡ false → (C.nand c.new).on ≡ false }
        ensures kept { Kept result (C.nand c.new) self.new room.new }
        ensures turns { Turns self.old.queue result self.new.queue }
    {
        self.journal.asks = 64;
        let mut store = Store {
            chip: c,
            room,
            journal: &mut self.journal,
        };
        let ended = store.serve(&mut self.queue, out)?;
        self.journal.asks = 0;
        Ok(ended)
    }
}

// The drive's own value is small; what is large is lent.
pub fn drive_is_small() -> bool
    ensures { T result }
{
    std::mem::size_of::<Drive>() <= 4096
}

// What the first landings build is never taken back.
pub fn core_built() -> u8
    ensures { CoreBuilt }
{
    0
}

// What is promised beside, each a theorem that a contract names.
pub fn marks_told() -> u8
    ensures { (MarkLength) × (MarksTold) }
{
    0
}

pub fn nothing_made_up() -> u8
    ensures { NothingMadeUp }
{
    0
}

pub fn low_rises() -> u8
    ensures { (LowRises) × (OneEach) }
{
    0
}

// Why four commands are turned away, or aren't.
pub fn why_told() -> u8
    ensures { WhyTold }
{
    0
}

// Marks are far apart even where what they say differs in one bit.
pub fn six_apart() -> u8
    ensures { SixApart }
{
    0
}

// What is read off the chip of a page that was sealed.
pub fn pages_shown() -> u8
    ensures { (WrittenShown) × ((TornShown) × (BlankShown)) }
{
    0
}
