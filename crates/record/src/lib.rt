// What the pages of a log say of themselves: the mark of each page, and the data of a header page.
#![tactic(auto)]

pub mod contents;
pub mod entries;
pub mod errors;
pub mod headers;
pub mod laws;
pub mod layout;
pub mod marks;
pub mod numbers;
pub mod tags;
#[cfg(test)]
mod tests;
