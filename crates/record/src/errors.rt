// Why something can't be read.

// What was read is written by no value.
#[derive(Clone, Copy, PartialEq, Eq)]
pub struct Malformed;
