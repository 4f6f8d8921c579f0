// What may become of a page's bytes while it is read.
ghost use Rattle.std.specs.Prelude.{◌≡◌, ℕ, ◌+◌, ◌*◌, ◌^◌, ◌<◌, ◌≤◌, T, length, ◌≢◌};
ghost use Rattle.drive.specs.Bits.{apart, nearly, under};
ghost use Rattle.bench.specs.Pieces.{piece_at};

use super::generator::Generator;

// The byte whose only 1 is that bit.
fn single(bit: u32) -> u8
    requires { bit < 8 }
    ensures { result ≡ 2 ^ bit }
{
    1u8 << bit
}

// One bit of a piece is turned over.
pub fn turn_bit(page: &mut [u8], piece: usize, index: usize, bit: u32)
    requires { (256 * piece + 256 ≤ length page.old) × ((index < 256) × (bit < 8)) }
    ensures here { apart (piece_at page.old piece) (piece_at page.new piece) ≤ 1 }
    ensures others { (j : ℕ) → (j ≢ piece) → piece_at page.new j ≡ piece_at page.old j }
{
    page[256 * piece + index] ^= single(bit);
}

// In some of the pieces one bit is turned over; how many, is told.
pub fn turn_bits(page: &mut [u8], generator: &mut Generator) -> u64
    requires { length page.old ≡ 4352 }
    ensures near { T (nearly 17 1 page.old page.new) }
    ensures low { result ≤ 17 }
{
    let mut turned: u64 = 0;
    // With `chunks_mut` a proof knows nothing but the length of the page after the loop: `near` was left.
    for piece in 0..17usize {
        let draw = generator.next();
        if draw % 2 == 1 {
            turn_bit(
                page,
                piece,
                ((draw >> 8) % 256) as usize,
                ((draw >> 1) % 8) as u32,
            );
            turned += 1;
        }
    }
    turned
}

// In each byte the bits of a mask become 1; each byte has a mask of its own.
pub fn raise<F: FnMut() -> u8>(page: &mut [u8], mut mask: F)
    requires { F.IsAlwaysCallable mask }
    ensures { T (under page.old page.new) }
{
    for byte in page.iter_mut() {
        *byte |= mask();
    }
}
