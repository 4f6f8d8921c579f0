// The parity of a piece of at most 256 bytes, and the mending of one bit.
ghost use Rattle.std.specs.Prelude.{◌≡◌, ◌≤◌, length};
ghost use Rattle.codec.specs.Mending.{column, places, mended};

// All bytes combined by XOR, and so the indexes of the bytes that have an odd number of ones.
#[derive(Clone, Copy)]
pub struct Parity {
    pub sum: u8,
    pub index: u8,
}

// The parity of a piece.
pub fn parity_of(piece: &[u8]) -> Parity
    requires { length piece.now ≤ 256 }
    ensures sum { result.sum ≡ column piece.now }
    ensures index { result.index ≡ places 0 piece.now }
{
    let mut sum: u8 = 0;
    let mut index: u8 = 0;
    for (i, b) in piece.iter().enumerate() {
        sum ^= *b;
        index ^= i as u8 * (b.count_ones() % 2) as u8;
    }
    Parity { sum, index }
}

// Turns back the one bit in which a piece differs from the piece that had this parity.
pub fn mend(piece: &mut [u8], parity: Parity)
    requires { length piece.old ≤ 256 }
    ensures { piece.new ≡ mended parity.sum parity.index piece.old }
{
    let found = parity_of(piece);
    let i = parity.index as usize ^ found.index as usize;
    // By index, since a proof doesn't know what was written through get_mut once its borrow is over.
    if i < piece.len() {
        piece[i] ^= parity.sum ^ found.sum;
    }
}
