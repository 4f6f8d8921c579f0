// The language of scripts: one command a line.
#![tactic(auto)]

mod commands;
mod lines;
mod spans;
#[cfg(test)]
mod tests;
mod words;

pub use commands::{Command, one_reading, parse};
pub use lines::{Line, lines_join, next_line};
