// A chip that does what it is told to do: which of the outcomes of the data sheet comes is an argument.
ghost use Rattle.std.specs.Prelude.{◌≡◌, ℕ, ◌+◌, ◌<◌, ◌≤◌, T, not, min, max, length, map, filter, count_by, ◌≢◌};
ghost use Rattle.std.specs.List.{reduce};
ghost use Rattle.drive.specs.Nand.{MayFail, MayErase, MayProgram, Erasing, Programming, blank_page, counted, dark, bads};
ghost use Rattle.drive.specs.declared.Answer.TheVariants.{Failed};
ghost use Rattle.bench.specs.Held.{limit, cell_at, bad_cell, shaped};
ghost use Rattle.bench.specs.declared.memory.PageState.TheVariants.{Blank};
ghost use Rattle.bench.specs.Store.{MayGoBad, held, least, most};

use super::memory::{
    BlockCell, ChipMemory, Geometry, PageState, blank, filled, get_slot, put_slot, still_on, wear,
};
use drive::Answer;

// The memory and the geometry of a chip; whether the power is on, and how often more it may be asked.
// That the memory has space is no ghost field: parts of slices are lent that lie in a struct within this one, which is not covered beside one.
#[derive(Drop)]
pub struct Store<'a> {
    pub memory: ChipMemory<'a>,
    pub geometry: Geometry,
    pub on: bool,
    pub left: u64,
}

impl Store<'_> {
    // How many blocks there are.
    pub fn blocks(&self) -> u32
        ensures is { result ≡ (held self.now).blocks }
        ensures low { result ≤ 65536 }
    {
        if self.memory.has_space(self.geometry) {
            self.geometry.blocks
        } else {
            0
        }
    }

    // The records of the blocks.
    fn cells(&self) -> &[BlockCell]
        ensures long { length result.now ≡ (held self.now).blocks }
        ensures low { length result.now ≤ 65536 }
        ensures each { (k : ℕ) → k < length result.now → (bad_cell (cell_at result.now k) ≡ ((held self.now).block k).bad) × ((cell_at result.now k).erases ≡ ((held self.now).block k).erases) }
    {
        &self.memory.cells[..self.blocks() as usize]
    }

    // The record of a block.
    pub fn cell(&self, block: u32) -> BlockCell
        requires { block < (held self.now).blocks }
        ensures bad { bad_cell result ≡ ((held self.now).block block).bad }
        ensures erases { result.erases ≡ ((held self.now).block block).erases }
    {
        self.memory.cells[block as usize]
    }

    // An ask that changes nothing.
    pub fn count(&mut self)
        requires { 0 < (held self.old).left }
        ensures { held self.new ≡ counted (held self.old) }
    {
        self.left -= 1;
    }

    // An ask in which the power goes, or that comes when it has gone, and that changes nothing else.
    pub fn go_dark(&mut self)
        requires { 0 < (held self.old).left }
        ensures { held self.new ≡ dark (counted (held self.old)) }
    {
        self.left -= 1;
        self.on = false;
    }

    // An erasing that is answered so.
    #[tactic(auto, using(crate::proofs::Space::inside))]
    pub fn erase(&mut self, block: u32, answer: Answer)
        requires asked { MayErase (held self.old) block }
        requires on { T (held self.old).on }
        requires failure { answer ≡ Failed → MayFail (held self.old) block }
        requires early { (answer ≢ Failed) → ((held self.old).block block).erases + 1 < limit }
        ensures { Erasing (held self.old) block answer (held self.new) }
    {
        let pages = self.geometry.pages as usize;
        let first = block as usize * pages;
        let cell = self.memory.cells[block as usize].worn(answer);
        wear(&mut self.memory.states[first..first + pages], answer);
        self.memory.cells[block as usize] = cell;
        self.left -= 1;
        self.on = still_on(answer);
    }

    // A programming that is answered so.
    pub fn program(&mut self, block: u32, page: u32, from: &[u8], answer: Answer)
        requires asked { MayProgram (held self.old) block page from.now }
        requires on { T (held self.old).on }
        requires failure { answer ≡ Failed → MayFail (held self.old) block }
        ensures { Programming (held self.old) block page from.now answer (held self.new) }
    {
        let place = block as usize * self.geometry.pages as usize + page as usize;
        let cell = self.memory.cells[block as usize].filled(page, answer);
        put_slot(self.memory.bytes, place, from);
        self.memory.states[place] = filled(answer);
        self.memory.cells[block as usize] = cell;
        self.left -= 1;
        self.on = still_on(answer);
    }

    // The state of a page, and its bytes into `into`; a blank one has 255 in each.
    pub fn fetch(&self, block: u32, page: u32, into: &mut [u8]) -> PageState
        requires within { (block < (held self.now).blocks) × (page < (held self.now).pages) }
        requires lent { length into.old ≡ 4352 }
        ensures is { ((held self.now).block block).page page ≡ shaped result into.new }
        ensures shows { result ≡ Blank → into.new ≡ blank_page }
    {
        let place = block as usize * self.geometry.pages as usize + page as usize;
        let state = self.memory.states[place];
        match state {
            PageState::Blank => blank(into),
            PageState::Written | PageState::Torn => get_slot(self.memory.bytes, place, into),
        }
        state
    }

    // How many blocks are bad.
    pub fn bad_blocks(&self) -> u32
        ensures count { result ≡ bads (held self.now).blocks (held self.now).block }
        ensures low { result ≤ 65536 }
    {
        count_bad(self.cells()) as u32
    }

    // Whether the data sheet lets a block with that record go bad now.
    pub fn may_fail(&self, cell: BlockCell) -> bool
        ensures { (T result → MayGoBad (held self.now) cell.erases) × (MayGoBad (held self.now) cell.erases → T result) }
    {
        cell.erases >= 3000 || 16 * (self.bad_blocks() + 1) <= self.blocks()
    }

    // The fewest erasings of a block that isn't bad; the counter's limit where all are, a number since that is what is printed.
    pub fn least_erased(&self) -> u32
        ensures { result ≡ least (held self.now).blocks (held self.now).block }
    {
        least_of(self.cells()).unwrap_or(u32::MAX)
    }

    // The most erasings of a block that isn't bad; 0 where all are, a number since that is what is printed.
    pub fn most_erased(&self) -> u32
        ensures { result ≡ most (held self.now).blocks (held self.now).block }
    {
        most_of(self.cells()).unwrap_or(0)
    }
}

// How many of these blocks are bad.
fn count_bad(cells: &[BlockCell]) -> usize
    ensures { result ≡ count_by bad_cell cells.now }
{
    cells.iter().filter(|cell| cell.is_bad()).count()
}

// The fewest erasings of a good one of these blocks.
// One function for this and `most_of` would have to be lent the library's method as a closure, which is longer.
fn least_of(cells: &[BlockCell]) -> Option<u32>
    ensures { result ≡ reduce min (map (λ c. c.erases) (filter (λ c. not (bad_cell c)) cells.now)) }
{
    let good = cells.iter().filter(|cell| !cell.is_bad());
    good.map(|cell| cell.erases).min()
}

// The most erasings of a good one of these blocks.
fn most_of(cells: &[BlockCell]) -> Option<u32>
    ensures { result ≡ reduce max (map (λ c. c.erases) (filter (λ c. not (bad_cell c)) cells.now)) }
{
    let good = cells.iter().filter(|cell| !cell.is_bad());
    good.map(|cell| cell.erases).max()
}
