// Pages of a NAND chip: 4,096 bytes of data, a mark that says what they are, and check bytes by which one bit in each 256 bytes is mended.
#![tactic(auto)]

pub mod check;
pub mod laws;
pub mod mark;
pub mod page;
#[cfg(test)]
mod tests;

pub use page::{mark_of, seal, unseal};
