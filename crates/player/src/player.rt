// A drive on a chip, through cuts.
ghost use Rattle.std.specs.Prelude.{◌≡◌, ℕ, ◌<◌, ◌≤◌, false, ◌&&◌, T, List, [], length, None, nat_lt};
ghost use Rattle.output.specs.Outputs.{Shows};
ghost use Rattle.player.specs.Drives.{Up, Up-prop, Fit};

use drive::{Ask, Bench, Drive, Ended, Gone, open};
use output::Output;

// How a script is played. `once`: it ends when the power goes. `trace`: the number of each line and turn is printed before what it tells.
#[derive(Clone, Copy, Default, PartialEq, Eq, Debug)]
pub struct Options {
    pub once: bool,
    pub trace: bool,
}

// A drive that is up or isn't, on a lent chip and with a lent room; the sectors of a command, what is printed, how many turns it had in this life, and how
// often the power went.
#[derive(Drop)]
pub struct Player<'a, C: Bench> {
    pub chip: &'a mut C,
    pub room: &'a mut [u8],
    pub out: Output<'a>,
    buffer: [u8; 32768],
    pub drive: Option<Drive>,
    pub turns: u32,
    pub cuts: u64,
    pub options: Options,
    ghost up: { Up (C.Chip.nand chip.now) drive room.now } by { Up-prop (C.Chip.nand chip.now) drive room.now },
}

// The most turns of a life.
const MOST_TURNS: u32 = 16_777_215;

// How often it tries to come up before a turn or a command.
const MOST_TRIES: u32 = 4;

// The byte that all bytes are, if they are the same.
fn uniform(bytes: &[u8]) -> Option<u8> {
    let (first, rest) = bytes.split_first()?;
    rest.iter().all(|b| b == first).then_some(*first)
}

// Prints what a command that has ended is told.
fn tell(out: &mut Output, tag: u8, ask: Ask, bytes: &[u8; 32768]) {
    out.numbered(b"told ", u64::from(tag), b"");
    if let Ask::Read { many, .. } = ask {
        for sector in bytes.chunks(4096).take(many as usize) {
            out.push(b' ');
            match uniform(sector) {
                Some(b) => out.byte(b),
                None => out.text(b"mixed"),
            }
        }
    }
    out.push(b'\n');
}

// Whether a chip and a room are such as the drive can come up on.
pub fn is_fit(blocks: u32, pages: u32, room: usize) -> bool
    ensures { ((T result → Fit blocks pages room)) × ((Fit blocks pages room → T result)) }
{
    if !(32..=65536).contains(&blocks) || !(16..=256).contains(&pages) {
        return false;
    }
    let total = u64::from(blocks) * u64::from(pages);
    1_048_576 + 64 * u64::from(blocks) + 8 * total <= room as u64
}

impl<'a, C: Bench> Player<'a, C> {
    // Before the drive comes up for the first time; what is told is printed into these bytes.
    pub fn new(chip: &'a mut C, room: &'a mut [u8], text: &'a mut [u8], options: Options) -> Self
        ensures down { (result.drive ≡ None) × (result.cuts ≡ 0) × (result.options ≡ options) }
        ensures out { Shows result.out [] }
        ensures chip { (result.chip.ghost_name ≡ chip.entry.ghost_name) × (result.chip.now ≡ chip.old) }
        ensures room { (result.room.ghost_name ≡ room.entry.ghost_name) × (result.room.now ≡ room.old) }
    {
        Player {
            chip,
            room,
            out: Output::new(text),
            buffer: [0; 32768],
            drive: None,
            turns: 0,
            cuts: 0,
            options,
        }
    }
}

impl<C: Bench> Player<'_, C> {
    ghost use Rattle.player.specs.Players.{Same};

    // Whether it has ended.
    pub fn is_over(&self) -> bool
        ensures { result ≡ self.now.options.once && nat_lt 0 self.now.cuts }
    {
        self.options.once && self.cuts > 0
    }

    // Prints a number behind a word, where that is wanted.
    pub(crate) fn note(&mut self, word: &[u8], n: u64)
        ensures same { Same self.old self.new }
        ensures rest { (self.new.chip.now ≡ self.old.chip.now) × ((self.new.room.now ≡ self.old.room.now) × ((self.new.drive ≡ self.old.drive) × ((self.new.turns ≡ self.old.turns) × ((self.new.cuts ≡ self.old.cuts) × (self.new.options ≡ self.old.options))))) }
        ensures quiet { self.old.options.trace ≡ false → (l : List ℕ) → Shows self.old.out l → Shows self.new.out l }
    {
        if self.options.trace {
            self.out.numbered(word, n, b"\n");
        }
    }

    // Tries to come up once.
    fn rise(&mut self)
        ensures { Same self.old self.new }
    {
        self.drive = None;
        self.turns = 0;
        let blocks = self.chip.blocks();
        if !is_fit(blocks, self.chip.pages(), self.room.len()) {
            return;
        }
        self.chip.allow(16 * u64::from(blocks) + 65536);
        match open(self.chip, self.room) {
            Ok(drive) => self.drive = Some(drive),
            Err(Gone) => self.lose(),
        }
    }

    // Comes up, if it isn't; a coming-up that is cut begins anew.
    fn ensure_up(&mut self)
        ensures { Same self.old self.new }
    {
        for _ in 0..MOST_TRIES {
            if self.drive.is_some() || self.is_over() {
                return;
            }
            self.rise();
        }
    }

    // One turn; the drive comes up first if it isn't up, and is down afterwards if the power went. False where there is nothing to do.
    fn turn_once(&mut self) -> bool
        ensures { Same self.old self.new }
    {
        self.ensure_up();
        if self.turns >= MOST_TURNS {
            return false;
        }
        let Some(mut drive) = self.drive.take() else {
            return false;
        };
        self.turns += 1;
        let idle = drive.is_idle();
        self.chip.allow(64);
        match drive.turn(self.chip, self.room, &mut self.buffer) {
            Ok(ended) => {
                self.drive = Some(drive);
                if let Some(Ended { tag, ask }) = ended {
                    self.note(b"# turn ", u64::from(self.turns));
                    tell(&mut self.out, tag, ask, &self.buffer);
                }
            }
            Err(Gone) => {
                self.note(b"# turn ", u64::from(self.turns));
                self.lose();
            }
        }
        !idle
    }

    // So many turns, as long as there is something to do.
    pub(crate) fn turn(&mut self, count: u32)
        ensures { Same self.old self.new }
    {
        for _ in 0..count {
            if !self.turn_once() {
                break;
            }
        }
    }

    // A command; the drive comes up first if it isn't up. Prints why it is turned away, if it is: a number, which the fixed text of `Drive::ask` asks for.
    pub(crate) fn ask(&mut self, tag: u8, ask: Ask)
        ensures { Same self.old self.new }
    {
        self.ensure_up();
        if self.room.len() < 262_144 {
            return;
        }
        let Some(mut drive) = self.drive.take() else {
            return;
        };
        // `&mut` of the buffer, since a `&` of a field beside the room, which lies behind a reference, isn't covered
        let why = drive.ask(self.room, tag, ask, &mut self.buffer);
        self.drive = Some(drive);
        if why != 0 {
            self.out.pair(b"refused ", u64::from(tag), u64::from(why));
        }
    }

    // A command that writes sectors of one byte.
    pub(crate) fn write(&mut self, tag: u8, from: u64, many: u32, b: u8)
        ensures { Same self.old self.new }
    {
        self.buffer.fill(b);
        self.ask(tag, Ask::Write { from, many });
    }

    // The power has gone, and comes back unless it ends with that.
    pub(crate) fn lose(&mut self)
        requires { (C.Chip.nand self.old.chip.now).on ≡ false }
        ensures { Same self.old self.new }
    {
        self.drive = None;
        self.cuts = self.cuts.saturating_add(1);
        self.out.text(b"cut\n");
        if !self.options.once {
            self.chip.power(self.room);
        }
    }
}
