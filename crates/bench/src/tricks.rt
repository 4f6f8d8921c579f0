// Which of the outcomes that the data sheet allows comes.
ghost use Rattle.std.specs.Prelude.{◌≡◌, ◌-◌, false, T, length, nat_eq, None};
ghost use Rattle.drive.specs.Bits.{all_bytes, nearly, under};
ghost use Rattle.bench.specs.Tricks.{Showing, ask_of, seed_of};
ghost use Rattle.bench.specs.declared.tricks.Mode.TheVariants.{Plain};

use super::events::{Counts, View};
use super::generator::{Generator, scramble};
use super::memory::PageState;
use super::pieces::{raise, turn_bits};

// A plain chip turns no bit over and never fails, and shows every second bit of a torn page that should be 0 as 1.
// A random one does now and then whatever the sheet allows. An adversarial one too, but it shows a torn page whole
// or blank, as a bit for the block and the life says.
#[derive(Clone, Copy, Debug, PartialEq, Eq)]
pub enum Mode {
    Plain,
    Random { seed: u64 },
    Adversarial { seed: u64 },
}

impl Mode {
    // The seed that it chooses by.
    pub fn seed(self) -> u64
        ensures { result ≡ seed_of self }
    {
        match self {
            Mode::Plain => 0,
            Mode::Random { seed } | Mode::Adversarial { seed } => seed,
        }
    }
}

// What a chip chooses by. `asks_before_cut`: so many asks are left before the one in whose midst the power goes.
// `odds`: of so many programmings and erasings one is to fail, if the mode lets any fail.
#[derive(Drop)]
pub struct Tricks {
    pub mode: Mode,
    pub generator: Generator,
    pub life: u64,
    pub asks_before_cut: Option<u64>,
    pub odds: Option<u64>,
    pub counts: Counts,
}

impl Tricks {
    // At the start of the first life.
    pub fn new(mode: Mode) -> Tricks
        ensures start { (result.mode ≡ mode) × ((result.life ≡ 0) × (result.asks_before_cut ≡ None)) }
        ensures counted { (result.counts.reads.made ≡ 0) × ((result.counts.programs.made ≡ 0) × (result.counts.erasings.made ≡ 0)) }
    {
        Tricks {
            mode,
            generator: Generator { state: mode.seed() },
            life: 0,
            asks_before_cut: None,
            odds: Some(512),
            counts: Counts::default(),
        }
    }

    // Whether the power goes in the midst of this ask.
    pub fn goes(&mut self) -> bool
        ensures which { result ≡ nat_eq (ask_of self.old.asks_before_cut) 1 }
        ensures left { ask_of self.new.asks_before_cut ≡ ask_of self.old.asks_before_cut - 1 }
    {
        let goes = self.asks_before_cut == Some(0);
        self.asks_before_cut = self.asks_before_cut.and_then(|asks| asks.checked_sub(1));
        goes
    }

    // Whether a programming or an erasing is to fail, if it may.
    pub fn wants_failure(&mut self) -> bool
        ensures { self.old.mode ≡ Plain → result ≡ false }
    {
        match (self.mode, self.odds) {
            (Mode::Plain, _) | (_, None) => false,
            (Mode::Random { .. } | Mode::Adversarial { .. }, Some(odds)) => {
                odds != 0 && self.generator.next().is_multiple_of(odds)
            }
        }
    }

    // What a reading shows of a page that holds these bytes, before bits turn over.
    pub fn show(&mut self, state: PageState, block: u32, page: &mut [u8])
        ensures shown { Showing state page.old page.new }
        ensures bytes { T (all_bytes page.new) }
    {
        match state {
            PageState::Blank | PageState::Written => {}
            PageState::Torn => self.tear(block, page),
        }
    }

    // What a reading shows of a torn page.
    fn tear(&mut self, block: u32, page: &mut [u8])
        ensures { T (under page.old page.new) }
    {
        let view = self.view(block);
        self.counts.shown.note(view);
        match view {
            View::Whole => raise(page, || 0),
            View::Part => self.tear_in_part(page),
            View::Blank => raise(page, || 255),
        }
    }

    // How a torn page of a block is shown.
    fn view(&mut self, block: u32) -> View {
        match self.mode {
            Mode::Plain => View::Part,
            Mode::Random { .. } => match self.generator.next() % 4 {
                0 => View::Whole,
                1 => View::Blank,
                _ => View::Part,
            },
            Mode::Adversarial { seed } => {
                if is_whole(seed, block, self.life) {
                    View::Whole
                } else {
                    View::Blank
                }
            }
        }
    }

    // A torn page with some of its noughts: every second one, or each time others.
    fn tear_in_part(&mut self, page: &mut [u8])
        ensures { T (under page.old page.new) }
    {
        if self.mode == Mode::Plain {
            raise(page, || 0x55);
        } else {
            raise(page, || self.generator.byte());
        }
    }

    // Bits that turn over in a reading: at most one in each piece.
    pub fn turn(&mut self, page: &mut [u8])
        requires { length page.old ≡ 4352 }
        ensures near { T (nearly 17 1 page.old page.new) }
        ensures plain { self.old.mode ≡ Plain → page.new ≡ page.old }
        ensures bytes { T (all_bytes page.new) }
    {
        match self.mode {
            Mode::Plain => {}
            Mode::Random { .. } | Mode::Adversarial { .. } => {
                let turned = turn_bits(page, &mut self.generator);
                self.counts.turned_bits = self.counts.turned_bits.saturating_add(turned);
            }
        }
    }

    // Bytes that nothing is known of.
    pub fn junk(&mut self, bytes: &mut [u8]) {
        bytes.fill_with(|| self.generator.byte());
    }

    // Another life begins.
    pub fn revive(&mut self)
        ensures { self.new.asks_before_cut ≡ None }
    {
        self.life = self.life.wrapping_add(1);
        self.asks_before_cut = None;
    }
}

// Whether the torn pages of a block are shown whole in a life, and not blank.
fn is_whole(seed: u64, block: u32, life: u64) -> bool {
    scramble(scramble(seed ^ block as u64).wrapping_add(life)) % 2 == 0
}
