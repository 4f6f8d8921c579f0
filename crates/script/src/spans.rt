// What stands behind the word of a command.
ghost use Rattle.std.specs.Prelude.{◌≡◌, ℕ, ◌^◌, ◌<◌};
ghost use Rattle.script.specs.Readings.{Reads, Whole};
ghost use Rattle.script.specs.Fields.{field_text};
ghost use Rattle.script.specs.Spans.{span_text, SpanFits};

use crate::words::{Piece, field, tag_field};

// A tag, and the pages that a command is about.
#[derive(Clone, Copy)]
pub struct Span {
    pub tag: u8,
    pub from: u32,
    pub many: u32,
}

// A tag, a first page and a number of pages.
pub fn span_fields(line: &[u8]) -> Option<Piece<'_, Span>>
    ensures { Reads span_text SpanFits line.now result }
{
    let tag = tag_field(line)?;
    let from = field(tag.rest)?;
    let many = field(from.rest)?;
    let value = Span {
        tag: tag.value,
        from: from.value,
        many: many.value,
    };
    Some(Piece {
        value,
        rest: many.rest,
    })
}

// A line that is a span and nothing more.
pub fn only_span(line: &[u8]) -> Option<Span>
    ensures { Whole span_text SpanFits line.now result }
{
    span_fields(line)?.alone()
}

// A line that is a tag and nothing more.
pub fn only_tag(line: &[u8]) -> Option<u8>
    ensures { Whole field_text (λ n. n < 256) line.now result }
{
    tag_field(line)?.alone()
}

// A line that is a number and nothing more.
pub fn only_number(line: &[u8]) -> Option<u32>
    ensures { Whole field_text (λ n. n < 2 ^ 32) line.now result }
{
    field(line)?.alone()
}
