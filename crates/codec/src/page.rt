// A page: data at 0, the mark at 4096, the parities of the data at 4288 behind a byte that makes their sum 0, the index parity of those 33 bytes at 4321, and 30 bytes of 255.
ghost use Rattle.std.specs.Prelude.{◌≡◌, ◌≤◌, T, length, take, drop};
ghost use Rattle.codec.specs.Bits.{all_bytes};
ghost use Rattle.codec.specs.Pages.{guarded, paged, data_in, mark_of};

use crate::check::{Parity, mend, parity_of};
use crate::mark::{read_mark, write_at, write_mark};

// The parities of 16 pieces, behind a byte that makes their sum 0.
fn parities(pieces: &[u8]) -> [u8; 33]
    requires { 4096 ≤ length pieces.now }
    ensures { result ≡ guarded pieces.now }
{
    let mut checks = [0u8; 33];
    for (i, piece) in pieces[0..4096].chunks_exact(256).enumerate() {
        let parity = parity_of(piece);
        checks[2 * i + 1] = parity.sum;
        checks[2 * i + 2] = parity.index;
    }
    checks[0] = parity_of(&checks[1..33]).sum;
    checks
}

// Writes the mark and the check bytes behind 4,096 bytes of data. Pages are slices here and below, since callers lend parts of a room, and C lends marks.
pub fn seal(page: &mut [u8], mark: &[u8])
    requires { (length page.old ≡ 4352) × (length mark.now ≡ 32) }
    ensures sealed { page.new ≡ paged mark.now (take 4096 page.old) }
    ensures bytes { (T (all_bytes mark.now)) × (T (all_bytes (take 4096 page.old))) }
{
    let checks = parities(page);
    let all = parity_of(&checks);
    write_mark(page, 4096, mark);
    write_at(page, 4288, &checks);
    page[4321] = all.index;
    let blank = [255u8; 30];
    write_at(page, 4322, &blank);
}

// Mends the data of a page that was read, in place; what lies behind stays as it was read.
pub fn unseal(page: &mut [u8])
    requires { length page.old ≡ 4352 }
    ensures found { take 4096 page.new ≡ data_in page.old }
    ensures rest { drop 4096 page.new ≡ drop 4096 page.old }
{
    let mut checks = [0u8; 33];
    checks.copy_from_slice(&page[4288..4321]);
    let parity = Parity {
        sum: 0,
        index: page[4321],
    };
    mend(&mut checks, parity);
    // By index, since a proof doesn't know what was written through chunks_exact_mut once its borrow is over.
    for i in 0..16usize {
        let told = Parity {
            sum: checks[2 * i + 1],
            index: checks[2 * i + 2],
        };
        mend(&mut page[256 * i..256 * i + 256], told);
    }
}

// The mark that a page shows, as it was read, or None.
pub fn mark_of(page: &[u8]) -> Option<[u8; 32]>
    requires { length page.now ≡ 4352 }
    ensures { result ≡ mark_of page.now }
{
    read_mark(&page[4096..4288])
}
