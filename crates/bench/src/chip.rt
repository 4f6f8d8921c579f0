// A chip in lent memory: its tricks choose what comes, and its store does it.
ghost use Rattle.std.specs.Prelude.{◌≡◌, ◌+◌, ◌<◌, ◌≢◌};
ghost use Rattle.drive.specs.Nand.{counted, dark};
ghost use Rattle.drive.specs.declared.Answer.TheVariants.{Failed};
ghost use Rattle.bench.specs.Held.{limit};
ghost use Rattle.bench.specs.Store.{MayGoBad, held, least, most};
ghost use Rattle.bench.specs.Tricks.{ask_of};

use super::events::Counts;
use super::generator::Generator;
use super::memory::BlockCell;
use super::store::Store;
use super::tricks::{Mode, Tricks};
use drive::{Answer, Bench, Chip};

// A chip in memory that somebody lends.
#[derive(Drop)]
pub struct MemoryChip<'a> {
    pub(super) store: Store<'a>,
    pub(super) tricks: Tricks,
}

impl MemoryChip<'_> {
    // The power goes in the midst of the ask with this number, counted from now on, or at once if that is 0, as a script says it.
    // It takes the place of what was said before.
    pub fn cut(&mut self, ask: u64)
        ensures now { ask ≡ 0 → held self.new.store ≡ dark (held self.old.store) }
        ensures later { 0 < ask → held self.new.store ≡ held self.old.store }
        ensures armed { ask_of self.new.tricks.asks_before_cut ≡ ask }
    {
        if ask == 0 {
            self.store.on = false;
        }
        self.tricks.asks_before_cut = ask.checked_sub(1);
    }

    // From here on the chip chooses by this mode; what was said of a cut stays.
    pub fn choose(&mut self, mode: Mode)
        ensures same { held self.new.store ≡ held self.old.store }
        ensures chosen { (self.new.tricks.mode ≡ mode) × (self.new.tricks.asks_before_cut ≡ self.old.tricks.asks_before_cut) }
    {
        self.tricks.mode = mode;
        self.tricks.generator = Generator { state: mode.seed() };
    }

    // Where blocks may fail, of so many programmings and erasings one does, if any is to.
    pub fn set_odds(&mut self, odds: Option<u64>)
        ensures same { held self.new.store ≡ held self.old.store }
        ensures set { self.new.tricks.odds ≡ odds }
    {
        self.tricks.odds = odds;
    }

    // How often each thing happened.
    pub fn counts(&self) -> Counts
        ensures { result ≡ self.now.tricks.counts }
    {
        self.tricks.counts
    }

    // The fewest erasings of a block that isn't bad; the counter's limit where all are, a number since that is what is printed.
    pub fn least_erased(&self) -> u32
        ensures { result ≡ least (held self.now.store).blocks (held self.now.store).block }
    {
        self.store.least_erased()
    }

    // The most erasings of a block that isn't bad; 0 where all are.
    pub fn most_erased(&self) -> u32
        ensures { result ≡ most (held self.now.store).blocks (held self.now.store).block }
    {
        self.store.most_erased()
    }

    // A reading in which the power goes, or that comes when it has gone.
    fn read_dark(&mut self, into: &mut [u8])
        requires { 0 < (held self.old.store).left }
        ensures { held self.new.store ≡ dark (counted (held self.old.store)) }
    {
        self.tricks.junk(into);
        self.store.go_dark();
    }

    // What comes of a programming of a block with that record.
    fn outcome(&mut self, cell: BlockCell) -> Answer
        ensures same { self.new.store ≡ self.old.store }
        ensures failure { result ≡ Failed → MayGoBad (held self.old.store) cell.erases }
    {
        if self.tricks.goes() {
            Answer::Dark
        } else if self.tricks.wants_failure() && self.store.may_fail(cell) {
            Answer::Failed
        } else {
            Answer::Fine
        }
    }

    // What comes of an erasing of a block with that record: a failure where its counter would end.
    fn erase_outcome(&mut self, cell: BlockCell) -> Answer
        ensures same { self.new.store ≡ self.old.store }
        ensures failure { result ≡ Failed → MayGoBad (held self.old.store) cell.erases }
        ensures early { (result ≢ Failed) → cell.erases + 1 < limit }
    {
        if cell.is_last() {
            Answer::Failed
        } else {
            self.outcome(cell)
        }
    }
}

impl Chip for MemoryChip<'_> {
    ghost nand = { λ s. held s.store };

    // How many blocks there are.
    fn blocks(&self) -> u32 {
        self.store.blocks()
    }

    // How many pages each block has.
    fn pages(&self) -> u32 {
        self.store.geometry.pages
    }

    // Whether a block is bad.
    fn is_bad(&self, block: u32) -> bool {
        self.store.cell(block).is_bad()
    }

    // A page's bytes into `into`, with what the sheet allows to happen to them; junk where the power goes.
    fn read(&mut self, block: u32, page: u32, into: &mut [u8]) -> Answer {
        if !self.store.on {
            self.read_dark(into);
            return Answer::Dark;
        }
        if self.tricks.goes() {
            self.tricks.counts.add_read(Answer::Dark);
            self.read_dark(into);
            return Answer::Dark;
        }
        self.tricks.counts.add_read(Answer::Fine);
        let state = self.store.fetch(block, page, into);
        self.tricks.show(state, block, into);
        self.tricks.turn(into);
        self.store.count();
        Answer::Fine
    }

    // Writes a page.
    fn program(&mut self, block: u32, page: u32, from: &[u8]) -> Answer {
        if !self.store.on {
            self.store.go_dark();
            return Answer::Dark;
        }
        let cell = self.store.cell(block);
        let answer = self.outcome(cell);
        self.tricks.counts.add_program(answer);
        self.store.program(block, page, from, answer);
        answer
    }

    // Erases a block.
    fn erase(&mut self, block: u32) -> Answer {
        if !self.store.on {
            self.store.go_dark();
            return Answer::Dark;
        }
        let cell = self.store.cell(block);
        let answer = self.erase_outcome(cell);
        self.tricks.counts.add_erasing(answer);
        self.store.erase(block, answer);
        answer
    }
}

impl Bench for MemoryChip<'_> {
    // So often it may be asked now.
    fn allow(&mut self, asks: u64) {
        self.tricks.counts.allow(asks, self.store.left);
        self.store.left = asks;
    }

    // Another life: the power is back, and the room is full of junk.
    fn power(&mut self, room: &mut [u8]) {
        self.tricks.revive();
        self.tricks.junk(room);
        self.store.on = true;
    }
}
