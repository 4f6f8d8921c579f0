// The lines of a script.
ghost use Rattle.script.specs.Lines.{LinesJoin, NextLine};

use crate::words::split_at_byte;

// Positions and not slices, since the tests compare them and the law of the lines speaks of them.
// Where a line begins, where it ends without its line feed, and where the next one begins.
#[derive(Clone, Copy, PartialEq, Eq, Debug)]
pub struct Line {
    pub start: usize,
    pub end: usize,
    pub next: usize,
}

// The law of the lines: put together again with their ends, they are the script.
pub fn lines_join() -> u8
    ensures { LinesJoin }
{
    0
}

// The line that begins at a place, if that lies within the script.
pub fn next_line(script: &[u8], at: usize) -> Option<Line>
    ensures { NextLine script.now at result }
{
    if at >= script.len() {
        return None;
    }
    let (line, _) = split_at_byte(&script[at..], b'\n');
    let end = at + line.len();
    let next = if end < script.len() { end + 1 } else { end };
    Some(Line {
        start: at,
        end,
        next,
    })
}
