// A line that comes byte by byte.
#![tactic(auto)]

ghost use Rattle.std.specs.Prelude.{◌≡◌, ℕ, List, [], ◌∷◌, ◌++◌, length, ◌==◌};
ghost use Rattle.line_buffer.specs.Buffers.{kept};
ghost use Rattle.script.specs.Commands.{text, Fits};
ghost use Rattle.script.specs.Readings.{Whole};

use arrayvec::ArrayVec;
use script::{Command, parse};
use std::marker::Model;

// The bytes of a line so far, as many as a command may have and one more, by which a longer line is told.
#[derive(Drop)]
pub struct LineBuffer {
    bytes: ArrayVec<u8, 41>,
}

impl Model for LineBuffer {
    ghost Value = { List ℕ };

    ghost view = { λ b. b.bytes.items };
}

impl LineBuffer {
    // A line with no byte yet.
    pub fn new() -> Self
        ensures { result ≡ [] }
    {
        LineBuffer {
            bytes: ArrayVec::new(),
        }
    }

    // One byte more, where there is room.
    pub fn push(&mut self, b: u8)
        ensures { (l : List ℕ) → self.old ≡ kept l → self.new ≡ kept (l ++ b ∷ []) }
    {
        let _ = self.bytes.try_push(b);
    }

    // Whether no byte has come.
    pub fn is_empty(&self) -> bool
        ensures { (l : List ℕ) → self.now ≡ kept l → result ≡ (length l == 0) }
    {
        self.bytes.is_empty()
    }

    // The command of the line, if it gives one.
    pub fn command(&self) -> Option<Command>
        ensures { (l : List ℕ) → self.now ≡ kept l → Whole text Fits l result }
    {
        parse(self.bytes.as_slice())
    }
}
