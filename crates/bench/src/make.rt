// Chips as they come from the maker, and chips that are found in memory.
ghost use Rattle.std.specs.Prelude.{◌≡◌, ℕ, ◌<◌, true, ◌⊎◌, length, MatchResult};
ghost use Rattle.bench.specs.Held.{fits, cell_at};
ghost use Rattle.bench.specs.Store.{held};
ghost use Rattle.bench.specs.Made.{OnSheet, Resumed, Unfit, Misfit, Fresh, listed, marked};

use super::chip::MemoryChip;
use super::memory::{BlockCell, ChipMemory, Geometry, PageState};
use super::store::Store;
use super::tricks::{Mode, Tricks};

// Why there is no chip: the number of blocks or of pages isn't on the data sheet, the memory is too small, there is
// no block of a number that is said to be bad, or more than one block in sixteen is bad.
#[derive(Clone, Copy, Debug, PartialEq, Eq)]
pub enum Refusal {
    Blocks,
    Pages,
    Space,
    NoSuchBlock,
    TooManyBad,
}

// Whether a geometry is on the data sheet, and memory has space for it.
fn check(memory: &ChipMemory<'_>, geometry: Geometry) -> Result<(), Refusal>
    ensures { MatchResult result (λ _. OnSheet geometry.blocks geometry.pages × (fits memory.now geometry ≡ true)) (λ e. Unfit e memory.now geometry) }
{
    let Geometry { blocks, pages } = geometry;
    if !(32..=65536).contains(&blocks) {
        return Err(Refusal::Blocks);
    }
    if !(16..=256).contains(&pages) || pages % 8 != 0 {
        return Err(Refusal::Pages);
    }
    if !memory.has_space(geometry) {
        return Err(Refusal::Space);
    }
    Ok(())
}

// The chip that memory holds, with the power on; it may be asked once somebody allows it.
pub fn resume<'a>(
    memory: ChipMemory<'a>,
    geometry: Geometry,
    mode: Mode,
) -> Result<MemoryChip<'a>, Refusal>
    ensures { MatchResult result (λ c. Resumed c.store memory.entry geometry) (λ e. Unfit e memory.entry geometry) }
{
    check(&memory, geometry)?;
    let store = Store {
        memory,
        geometry,
        on: true,
        left: 0,
    };
    let tricks = Tricks::new(mode);
    Ok(MemoryChip { store, tricks })
}

// A new chip, whose bad blocks are those of a list.
pub fn made<'a>(
    memory: ChipMemory<'a>,
    geometry: Geometry,
    bad: &[u32],
    mode: Mode,
) -> Result<MemoryChip<'a>, Refusal>
    ensures { MatchResult result (λ c. Fresh (held c.store) geometry.blocks geometry.pages bad.now) (λ e. Unfit e memory.entry geometry ⊎ Misfit e geometry.blocks bad.now) }
{
    let mut chip = resume(memory, geometry, mode)?;
    format(&mut chip.store, bad)?;
    Ok(chip)
}

// All blocks become untouched, and those of a list bad, unless one of them isn't there.
fn mark(cells: &mut [BlockCell], bad: &[u32]) -> Result<(), Refusal>
    ensures { MatchResult result (λ _. (k : ℕ) → k < length cells.old → cell_at cells.new k ≡ marked (listed bad.now k)) (λ e. Misfit e (length cells.old) bad.now) }
{
    cells.fill(BlockCell::untouched());
    for block in bad {
        let block = *block as usize;
        if block >= cells.len() {
            return Err(Refusal::NoSuchBlock);
        }
        cells[block].bad = true;
    }
    Ok(())
}

// All pages become blank and all blocks untouched, and those of a list bad.
fn format(store: &mut Store<'_>, bad: &[u32]) -> Result<(), Refusal>
    requires sheet { OnSheet store.old.geometry.blocks store.old.geometry.pages }
    requires space { fits store.old.memory store.old.geometry ≡ true }
    requires on { store.old.on ≡ true }
    ensures { MatchResult result (λ _. Fresh (held store.new) store.old.geometry.blocks store.old.geometry.pages bad.now) (λ e. Misfit e store.old.geometry.blocks bad.now) }
{
    let Geometry { blocks, pages } = store.geometry;
    let places = blocks as usize * pages as usize;
    store.memory.states[0..places].fill(PageState::Blank);
    mark(&mut store.memory.cells[0..blocks as usize], bad)?;
    if 16 * store.bad_blocks() > blocks {
        return Err(Refusal::TooManyBad);
    }
    Ok(())
}
