// A mark: 32 bytes three times, and their complements three times.
ghost use Rattle.std.specs.Prelude.{◌≡◌, ◌+◌, ◌≤◌, ◌++◌, length, take};
ghost use Rattle.codec.specs.Bits.{apart, turned, mark};
ghost use Rattle.codec.specs.Pages.{mark_in, shown};

use std::array;

// How many bits of a mark may be turned over.
const MOST_TURNED: usize = 1;

// In how many bits two rows of bytes differ.
pub fn bits_apart(a: &[u8], b: &[u8]) -> usize
    requires { (length a.now ≡ length b.now) × (length a.now ≤ 4352) }
    ensures { result ≡ apart a.now b.now }
{
    a.iter()
        .zip(b.iter())
        .map(|(x, y)| (*x ^ *y).count_ones() as usize)
        .sum()
}

// Writes bytes at `at`.
pub fn write_at(page: &mut [u8], at: usize, bytes: &[u8])
    requires { at + length bytes.now ≤ length page.old }
    ensures { take (at + length bytes.now) page.new ≡ take at page.old ++ bytes.now }
{
    page[at..at + bytes.len()].copy_from_slice(bytes);
}

// The complements of 32 bytes.
fn complement(bytes: &[u8]) -> [u8; 32]
    requires { length bytes.now ≡ 32 }
    ensures { result ≡ turned bytes.now }
{
    array::from_fn(|i| 255 - bytes[i])
}

// Writes a mark at `at`.
pub fn write_mark(page: &mut [u8], at: usize, bytes: &[u8])
    requires { (length bytes.now ≡ 32) × (at + 192 ≤ length page.old) }
    ensures { take (at + 192) page.new ≡ take at page.old ++ mark bytes.now }
{
    write_at(page, at, bytes);
    write_at(page, at + 32, bytes);
    write_at(page, at + 64, bytes);
    let turned = complement(bytes);
    write_at(page, at + 96, &turned);
    write_at(page, at + 128, &turned);
    write_at(page, at + 160, &turned);
}

// The only bytes that can stand in a mark with at most one bit turned over.
fn candidate(area: &[u8]) -> &[u8]
    requires { length area.now ≡ 192 }
    ensures long { length result.now ≡ 32 }
    ensures only { result.now ≡ mark_in area.now }
{
    if area[0..32] == area[32..64] {
        &area[0..32]
    } else {
        &area[64..96]
    }
}

// The bytes of the mark that 192 bytes show, or None where they differ in two bits or more from every mark.
pub fn read_mark(area: &[u8]) -> Option<[u8; 32]>
    requires { length area.now ≡ 192 }
    ensures { result ≡ shown area.now }
{
    let mut bytes = [0u8; 32];
    bytes.copy_from_slice(candidate(area));
    let mut whole = [0u8; 192];
    write_mark(&mut whole, 0, &bytes);
    (bits_apart(&whole, area) <= MOST_TURNED).then_some(bytes)
}
