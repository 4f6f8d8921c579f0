// The commands, and the lines that give them.
ghost use Rattle.std.specs.Prelude.{◌≡◌, ◌++◌, codes};
ghost use Rattle.script.specs.Readings.{Whole};
ghost use Rattle.script.specs.Commands.{text, Fits, OneReading, ReadsBack};

use crate::spans::{Span, only_number, only_span, only_tag, span_fields};
use crate::words::{byte_field, split_at_byte};

// What a script asks of a drive.
#[derive(Clone, Copy, PartialEq, Eq, Debug)]
pub enum Command {
    Write {
        tag: u8,
        from: u32,
        many: u32,
        fill: u8,
    },
    Read {
        tag: u8,
        from: u32,
        many: u32,
    },
    Trim {
        tag: u8,
        from: u32,
        many: u32,
    },
    Flush {
        tag: u8,
    },
    Turn {
        count: u32,
    },
    Cut {
        asks: u32,
    },
    Seed {
        seed: u32,
    },
}

// The laws of the lines: none gives two commands, and each command is read back from its own.
pub fn one_reading() -> u8
    ensures { (OneReading) × (ReadsBack) }
{
    0
}

// No command has more bytes.
const LONGEST: usize = 40;

// The command of a line, if it gives one. A longer line isn't looked through for the end of its first word.
pub fn parse(line: &[u8]) -> Option<Command>
    ensures { Whole text Fits line.now result }
{
    if line.len() > LONGEST {
        return None;
    }
    let (word, fields) = split_at_byte(line, b' ');
    match word {
        b"write" => parse_write(fields),
        b"read" => only_span(fields).map(|Span { tag, from, many }| Command::Read {
            tag,
            from,
            many,
        }),
        b"trim" => only_span(fields).map(|Span { tag, from, many }| Command::Trim {
            tag,
            from,
            many,
        }),
        b"flush" => only_tag(fields).map(|tag| Command::Flush { tag }),
        b"turn" => only_number(fields).map(|count| Command::Turn { count }),
        b"cut" => only_number(fields).map(|asks| Command::Cut { asks }),
        b"seed" => only_number(fields).map(|seed| Command::Seed { seed }),
        _ => None,
    }
}

// The command of a line that begins with `write`.
fn parse_write(fields: &[u8]) -> Option<Command>
    ensures { Whole text Fits (codes "write" ++ fields.now) result }
{
    let read = span_fields(fields)?;
    let fill = byte_field(read.rest)?;
    let Span { tag, from, many } = read.value;
    Some(Command::Write {
        tag,
        from,
        many,
        fill,
    })
}
