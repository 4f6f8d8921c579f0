// What a chip holds: the bytes and the state of each page, and the record of each block.
ghost use Rattle.std.specs.Prelude.{◌≡◌, ℕ, ◌+◌, ◌*◌, ◌<◌, ◌≤◌, length, ◌≢◌, nat_le, map};
ghost use Rattle.drive.specs.Nand.{blank_page};
ghost use Rattle.bench.specs.Held.{fits, slot, limit, untouched, bad_cell, erased_cell, half_erased_cell, programmed_cell, broken_cell, worn_state, worn_cell, filled_state, filled_cell, still_on};

use drive::Answer;

// What became of a page since its block was last erased.
#[derive(Clone, Copy, Debug, PartialEq, Eq)]
pub enum PageState {
    Blank,
    Written,
    Torn,
}

// The record of a block.
#[repr(C)]
#[derive(Clone, Copy, Debug, Default, PartialEq, Eq)]
pub struct BlockCell {
    pub next: u32,
    pub clean: bool,
    pub bad: bool,
    pub erases: u32,
}

impl BlockCell {
    // The record of a block that nobody has touched.
    pub fn untouched() -> BlockCell
        ensures { result ≡ untouched }
    {
        BlockCell::default()
    }

    // Whether the block is bad: after a failure, or where its counter has ended.
    pub(super) fn is_bad(self) -> bool
        ensures { result ≡ bad_cell self }
    {
        self.bad || self.erases == u32::MAX
    }

    // Whether the next erasing is the block's last, since the counter then ends.
    pub(super) fn is_last(self) -> bool
        ensures { result ≡ nat_le limit (self.erases + 1) }
    {
        self.erases >= u32::MAX - 1
    }

    // After an erasing. Here and below the counter must not be at its limit; a record at it is one too, so that is no fact of the type.
    fn erased(self) -> BlockCell
        requires { self.erases ≢ limit }
        ensures { result ≡ erased_cell self }
    {
        BlockCell {
            next: 0,
            clean: true,
            erases: self.erases + 1,
            ..self
        }
    }

    // After an erasing that didn't end.
    fn half_erased(mut self) -> BlockCell
        requires { self.erases ≢ limit }
        ensures { result ≡ half_erased_cell self }
    {
        self.clean = false;
        self.erases += 1;
        self
    }

    // After the programming of a page.
    fn programmed(self, page: u32) -> BlockCell
        requires { page < 256 }
        ensures { result ≡ programmed_cell page self }
    {
        BlockCell {
            next: page + 1,
            ..self
        }
    }

    // After an erasing that was answered so.
    pub(super) fn worn(self, answer: Answer) -> BlockCell
        requires { self.erases ≢ limit }
        ensures { result ≡ worn_cell answer self }
    {
        match answer {
            Answer::Fine => self.erased(),
            Answer::Failed => self.half_erased().broken(),
            Answer::Dark => self.half_erased(),
        }
    }

    // After the programming of a page that was answered so.
    pub(super) fn filled(self, page: u32, answer: Answer) -> BlockCell
        requires { page < 256 }
        ensures { result ≡ filled_cell answer page self }
    {
        let cell = self.programmed(page);
        match answer {
            Answer::Fine | Answer::Dark => cell,
            Answer::Failed => cell.broken(),
        }
    }

    // After a failure.
    pub(super) fn broken(self) -> BlockCell
        ensures { result ≡ broken_cell self }
    {
        BlockCell {
            clean: false,
            bad: true,
            ..self
        }
    }
}

// How many blocks a chip has, and how many pages each of them.
#[derive(Clone, Copy, Debug, PartialEq, Eq)]
pub struct Geometry {
    pub blocks: u32,
    pub pages: u32,
}

// What is lent to a chip: 4,352 bytes and a state for each page, and a record for each block. Slices, since there is no heap and C lends bytes and records.
#[derive(Drop)]
pub struct ChipMemory<'a> {
    pub bytes: &'a mut [u8],
    pub states: &'a mut [PageState],
    pub cells: &'a mut [BlockCell],
}

impl ChipMemory<'_> {
    // Whether it has space for a chip of a geometry.
    #[tactic(auto, using(std::proofs::lemmas::Bool::Decides::nat_tests), unfolding(crate::specs::Held::spaced))]
    pub(super) fn has_space(&self, geometry: Geometry) -> bool
        ensures { result ≡ fits self.now geometry }
    {
        let Geometry { blocks, pages } = geometry;
        blocks <= 65536
            && pages <= 256
            && blocks as usize <= self.cells.len()
            && blocks as usize * pages as usize <= self.states.len()
            && 4352 * (blocks as usize * pages as usize) <= self.bytes.len()
    }
}

// The bytes of the page at a place are those of `from`.
pub fn put_slot(bytes: &mut [u8], place: usize, from: &[u8])
    requires { (4352 * place + 4352 ≤ length bytes.old) × (length from.now ≡ 4352) }
    ensures here { slot bytes.new place ≡ from.now }
    ensures others { (i : ℕ) → (i ≢ place) → slot bytes.new i ≡ slot bytes.old i }
{
    let start = 4352 * place;
    bytes[start..start + 4352].copy_from_slice(from);
}

// The bytes of the page at a place, into `into`.
pub fn get_slot(bytes: &[u8], place: usize, into: &mut [u8])
    requires { (4352 * place + 4352 ≤ length bytes.now) × (length into.old ≡ 4352) }
    ensures { into.new ≡ slot bytes.now place }
{
    let start = 4352 * place;
    into.copy_from_slice(&bytes[start..start + 4352]);
}

// The bytes that a blank page shows. Pages are slices throughout, since they are parts of what is lent.
pub fn blank(page: &mut [u8])
    requires { length page.old ≡ 4352 }
    ensures { page.new ≡ blank_page }
{
    page.fill(255);
}

// The state of a page of a block whose erasing was answered so.
fn worn(state: PageState, answer: Answer) -> PageState
    ensures { result ≡ worn_state answer state }
{
    match (answer, state) {
        (Answer::Fine, _) | (_, PageState::Blank) => PageState::Blank,
        (_, PageState::Written | PageState::Torn) => PageState::Torn,
    }
}

// The pages of a block whose erasing was answered so.
pub fn wear(states: &mut [PageState], answer: Answer)
    ensures { states.new ≡ map (worn_state answer) states.old }
{
    for state in states.iter_mut() {
        *state = worn(*state, answer);
    }
}

// The state of a page whose programming was answered so.
pub fn filled(answer: Answer) -> PageState
    ensures { result ≡ filled_state answer }
{
    match answer {
        Answer::Fine => PageState::Written,
        Answer::Failed | Answer::Dark => PageState::Torn,
    }
}

// Whether the power is still on after an answer.
pub fn still_on(answer: Answer) -> bool
    ensures { result ≡ still_on answer }
{
    !matches!(answer, Answer::Dark)
}
