// Playing a script on a drive over a chip in memory.
#![tactic(auto)]

mod play;
mod player;
mod small_chip;

pub use line_buffer::LineBuffer;
pub use output::Output;
pub use play::print_erased;
pub use player::{Options, Player, is_fit};
pub use small_chip::on_small_chip;
