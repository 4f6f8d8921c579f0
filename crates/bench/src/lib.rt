// A chip in lent memory that keeps to the data sheet, with all that the sheet allows a chip to do.
#![tactic(auto)]

mod chip;
mod events;
mod generator;
mod make;
mod memory;
mod pieces;
mod store;
mod tricks;

pub use chip::MemoryChip;
pub use events::{Counts, Shown, Tries, View};
pub use make::{Refusal, made, resume};
pub use memory::{BlockCell, ChipMemory, Geometry, PageState};
pub use tricks::Mode;
