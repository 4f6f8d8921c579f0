// What follows from the contracts of the readers and writers: no two values are written alike, so what is written is read back.
ghost use Rattle.std.specs.Prelude.{◌≡◌, ◌+◌, ◌*◌, ◌≤◌, length, Ok};
ghost use Rattle.record.specs.Decoding.{Distinct};
ghost use Rattle.record.specs.Headers.{header_bytes, content_bytes};
ghost use Rattle.record.specs.Marks.{bytes_of};

use crate::entries::{read_entry, read_header, write_entry, write_header};
use crate::errors::Malformed;
use crate::headers::HeaderData;
use crate::layout::{from_bytes, to_bytes};
use crate::marks::{Content, Mark};

// No two marks, headers or entries have the same bytes.
pub fn distinct()
    ensures marks { Distinct bytes_of }
    ensures headers { Distinct header_bytes }
    ensures entries { Distinct content_bytes }
{}

// A mark that is written is read back.
pub fn mark_round_trip(mark: Mark) -> Result<Mark, Malformed>
    ensures { result ≡ Ok mark }
{
    let mut bytes = [0u8; 32];
    to_bytes(mark, &mut bytes);
    from_bytes(&bytes)
}

// A header that is written is read back.
pub fn header_round_trip(page: &mut [u8], header: HeaderData) -> Result<HeaderData, Malformed>
    requires { 40 ≤ length page.old }
    ensures { result ≡ Ok header }
{
    write_header(page, header);
    read_header(page)
}

// An entry that is written is read back.
pub fn entry_round_trip(page: &mut [u8], i: usize, content: Content) -> Result<Content, Malformed>
    requires { 40 + 8 * i + 8 ≤ length page.old }
    ensures { result ≡ Ok content }
{
    write_entry(page, i, content);
    read_entry(page, i)
}
