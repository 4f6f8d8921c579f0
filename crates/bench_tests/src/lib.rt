// Chips in memory are asked ten thousand times, and each of their tricks happens.
#![tactic(auto)]

ghost use Rattle.std.specs.Prelude.{◌≡◌, ℕ, ◌<◌, false, length};
ghost use Rattle.drive.specs.Nand.{MayProgram};
ghost use Rattle.drive.specs.declared.Answer.TheVariants.{Dark};
ghost use Rattle.bench_tests.specs.Asked.{Kept};

use drive::{Answer, Bench};

#[cfg(test)]
mod tests;

// The power comes back if it went with this answer.
fn revive<C: Bench>(chip: &mut C, answer: Answer, room: &mut [u8])
    requires { answer ≡ Dark → (C.Chip.nand chip.old).on ≡ false }
    ensures { Kept (C.Chip.nand chip.old) (C.Chip.nand chip.new) }
{
    if matches!(answer, Answer::Dark) {
        chip.power(room);
    }
}

// The first page of a block that may be programmed is written; the power comes back if it goes.
fn write<C: Bench>(chip: &mut C, block: u32, bytes: &[u8], room: &mut [u8])
    requires { MayProgram (C.Chip.nand chip.old) block 0 bytes.now }
    ensures { Kept (C.Chip.nand chip.old) (C.Chip.nand chip.new) }
{
    let answer = chip.program(block, 0, bytes);
    revive(chip, answer, room);
}

// A block that isn't bad is erased, and its first page written; the power comes back if it goes.
pub fn rewrite<C: Bench>(chip: &mut C, block: u32, bytes: &[u8], room: &mut [u8])
    requires within { (block < (C.Chip.nand chip.old).blocks) × (0 < (C.Chip.nand chip.old).pages) }
    requires whole { length bytes.now ≡ 4352 }
    ensures { Kept (C.Chip.nand chip.old) (C.Chip.nand chip.new) }
{
    if chip.is_bad(block) {
        return;
    }
    chip.allow(2);
    match chip.erase(block) {
        Answer::Fine => write(chip, block, bytes, room),
        answer => revive(chip, answer, room),
    }
}

// The first page of a block is read; the power comes back if it goes.
pub fn look<C: Bench>(chip: &mut C, block: u32, into: &mut [u8], room: &mut [u8])
    requires within { (block < (C.Chip.nand chip.old).blocks) × (0 < (C.Chip.nand chip.old).pages) }
    requires lent { length into.old ≡ 4352 }
    ensures { Kept (C.Chip.nand chip.old) (C.Chip.nand chip.new) }
{
    chip.allow(1);
    let answer = chip.read(block, 0, into);
    revive(chip, answer, room);
}

// Every block is rewritten and looked at.
pub fn sweep<C: Bench>(chip: &mut C, page: &mut [u8], room: &mut [u8])
    requires { length page.old ≡ 4352 }
    ensures { Kept (C.Chip.nand chip.old) (C.Chip.nand chip.new) }
{
    if chip.pages() == 0 {
        return;
    }
    for block in 0..chip.blocks() {
        rewrite(chip, block, page, room);
        look(chip, block, page, room);
    }
}
