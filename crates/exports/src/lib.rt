// What C calls: numbers, lent bytes and plain structs only. Each function tests what it is given, and says so where it can do nothing.
#![tactic(auto)]

mod chip_exports;
mod codec_exports;
mod page_states;
mod play_exports;
