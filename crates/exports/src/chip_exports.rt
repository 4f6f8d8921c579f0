// The chip in memory alone, to measure it.
ghost use Rattle.std.specs.Prelude.{◌*◌, ◌<◌, ◌≤◌, length, ◌≡◌};
ghost use Rattle.bench_tests.specs.Asked.{Kept};

use crate::page_states::with_states;
use bench::{BlockCell, ChipMemory, Geometry, Mode, made, resume};
use bench_tests::{look, rewrite};
use drive::{Answer, Bench, Chip};
use player::on_small_chip;

// Reads the first page of a chip in memory so often, after it was written, and says how often that went well. The chip has 32 blocks of 16 pages in the
// lent bytes, and does now and then whatever the data sheet allows.
#[unsafe(no_mangle)]
pub extern "C" fn chip_read(pages: &mut [u8], page: &mut [u8], seed: u64, times: u64) -> u64
    ensures { result ≤ times }
{
    on_small_chip(
        pages,
        Mode::Random { seed },
        |chip| read_often(chip, page, times),
    )
    .unwrap_or(0)
}

// Writes the first page, and reads it so often; how often that went well, 0 where it can't be done.
fn read_often<C: Bench>(chip: &mut C, page: &mut [u8], times: u64) -> u64
    ensures { result ≤ times }
{
    if page.len() != 4352 || chip.blocks() == 0 || chip.pages() == 0 {
        return 0;
    }
    rewrite(chip, 0, page, &mut []);
    let mut done: u64 = 0;
    for _ in 0..times {
        if read_once(chip, page) {
            done += 1;
        }
    }
    done
}

// Reads the first page.
fn read_once<C: Bench>(chip: &mut C, page: &mut [u8]) -> bool {
    if page.len() != 4352 || chip.blocks() == 0 || chip.pages() == 0 {
        return false;
    }
    chip.allow(1);
    matches!(chip.read(0, 0, page), Answer::Fine)
}

// On a new plain chip in the lent memory, erases each block and programs a sealed page, once for each page of a block; how many that were.
#[unsafe(no_mangle)]
pub extern "C" fn chip_fill(
    bytes: &mut [u8],
    states: &mut [u8],
    cells: &mut [BlockCell],
    page: &mut [u8],
    blocks: u32,
    pages: u32,
) -> u64
    ensures { (length page.old ≡ 4352 → ⊥) → result ≡ 0 }
{
    with_states(states, |states| {
        let memory = ChipMemory {
            bytes,
            states,
            cells,
        };
        match made(memory, Geometry { blocks, pages }, &[], Mode::Plain) {
            Ok(mut chip) => rounds(&mut chip, page, fill),
            Err(_) => 0,
        }
    })
    .unwrap_or(0)
}

// On the chip that memory holds, reads the first page of each block and mends it, once for each page of a block; how many that were.
// C has a name for each of the two, and only this one finds a chip instead of making one.
// No helper opens the chip for these two and `play`: written out, with seven arguments and a closure, it makes the crate 29 lines longer.
#[unsafe(no_mangle)]
pub extern "C" fn chip_scan(
    bytes: &mut [u8],
    states: &mut [u8],
    cells: &mut [BlockCell],
    page: &mut [u8],
    blocks: u32,
    pages: u32,
) -> u64
    ensures { (length page.old ≡ 4352 → ⊥) → result ≡ 0 }
{
    with_states(states, |states| {
        let memory = ChipMemory {
            bytes,
            states,
            cells,
        };
        match resume(memory, Geometry { blocks, pages }, Mode::Plain) {
            Ok(mut chip) => rounds(&mut chip, page, scan),
            Err(_) => 0,
        }
    })
    .unwrap_or(0)
}

// Erases a block and programs a sealed page.
fn fill<C: Bench>(chip: &mut C, block: u32, page: &mut [u8])
    requires within { (block < (C.Chip.nand chip.old).blocks) × (0 < (C.Chip.nand chip.old).pages) }
    requires lent { length page.old ≡ 4352 }
    ensures { Kept (C.Chip.nand chip.old) (C.Chip.nand chip.new) }
{
    codec::seal(page, &[7; 32]);
    rewrite(chip, block, page, &mut []);
}

// Reads the first page of a block and mends it.
fn scan<C: Bench>(chip: &mut C, block: u32, page: &mut [u8])
    requires within { (block < (C.Chip.nand chip.old).blocks) × (0 < (C.Chip.nand chip.old).pages) }
    requires lent { length page.old ≡ 4352 }
    ensures { Kept (C.Chip.nand chip.old) (C.Chip.nand chip.new) }
{
    look(chip, block, page, &mut []);
    codec::unseal(page);
}

// Goes over all blocks as often as a block has pages; how many that were, 0 without a page of 4,352 bytes.
fn rounds<C: Bench, F: Fn(&mut C, u32, &mut [u8])>(chip: &mut C, page: &mut [u8], step: F) -> u64
    requires within { (c : _) (b : _) (p : _) → b < (C.Chip.nand c.now).blocks → 0 < (C.Chip.nand c.now).pages → length p.now ≡ 4352 → F.pre step c b p }
    requires keeps { (c : _) (b : _) (p : _) (c' : _) (p' : _) → F.post step c b p tt c' p' → Kept (C.Chip.nand c.now) (C.Chip.nand c'.now) }
    ensures { (length page.old ≡ 4352 → ⊥) → result ≡ 0 }
{
    if page.len() != 4352 {
        return 0;
    }
    let mut done: u64 = 0;
    for _ in 0..chip.pages() {
        for block in 0..chip.blocks() {
            step(chip, block, page);
        }
        done = done.saturating_add(u64::from(chip.blocks()));
    }
    done
}
