// What is asked of the chip, each ask with its answer as a result.
ghost use Rattle.std.specs.Prelude.{◌≡◌, ℕ, ◌<◌, ◌≤◌, length};
ghost use Rattle.drive.specs.Nand.{Nand, MayRead, MayErase};
ghost use Rattle.drive.specs.ChipOps.{Holds, Erases, Programs, Reads, Looked};

use crate::room::{Address, LIST, PAGE};
use crate::{Answer, Chip, Gone};
use record::layout::from_bytes;
use record::marks::Mark;

// A block that is being filled, and its next page. It moves, so no page is written twice.
#[derive(Drop)]
pub struct Head {
    pub block: u32,
    pub next: u32,
}

// The same block after a page was programmed: it takes more, it is full, or it went bad.
#[derive(Drop)]
pub enum Programmed {
    Next(Head),
    Full,
    Failed,
}

// Erases a block, which is then ready to be filled; none if it went bad.
pub fn erase_block<C: Chip>(c: &mut C, block: u32) -> Result<Option<Head>, Gone>
    requires may { MayErase (C.nand c.old) block }
    requires some { 0 < (C.nand c.old).pages }
    ensures { Erases (C.nand c.old) block result (C.nand c.new) }
{
    match c.erase(block) {
        Answer::Fine => Ok(Some(Head { block, next: 0 })),
        Answer::Failed => Ok(None),
        Answer::Dark => Err(Gone),
    }
}

// Programs the next page of a block that is being filled.
pub fn program_next<C: Chip>(c: &mut C, head: Head, from: &[u8]) -> Result<Programmed, Gone>
    requires holds { Holds (C.nand c.old) head }
    requires soon { 0 < (C.nand c.old).left }
    requires whole { length from.now ≡ 4352 }
    ensures { Programs (C.nand c.old) head from.now result (C.nand c.new) }
{
    let Head { block, next } = head;
    let more = c.pages() - next > 1;
    match c.program(block, next, from) {
        Answer::Fine if more => Ok(Programmed::Next(Head {
            block,
            next: next + 1,
        })),
        Answer::Fine => Ok(Programmed::Full),
        Answer::Failed => Ok(Programmed::Failed),
        Answer::Dark => Err(Gone),
    }
}

// Reads a page as the chip shows it.
pub fn read_page<C: Chip>(c: &mut C, place: Address, into: &mut [u8]) -> Result<(), Gone>
    requires may { MayRead (C.nand c.old) place.block place.page }
    requires lent { length into.old ≡ 4352 }
    ensures { Reads (C.nand c.old) place.block place.page into.new result (C.nand c.new) }
{
    match c.read(place.block, place.page, into) {
        Answer::Fine => Ok(()),
        _ => Err(Gone),
    }
}

// Reads a page into the room's page buffer, and the mark that it shows.
pub fn read_mark<C: Chip>(c: &mut C, room: &mut [u8], place: Address) -> Result<Option<Mark>, Gone>
    requires may { MayRead (C.nand c.old) place.block place.page }
    requires lent { 1048576 ≤ length room.old }
    ensures { Looked (C.nand c.old) result (C.nand c.new) }
{
    read_page(c, place, &mut room[PAGE..LIST])?;
    let mark = shown(&room[PAGE..LIST]);
    Ok(mark)
}

// The mark that a page shows, if it has the form of one.
fn shown(page: &[u8]) -> Option<Mark>
    requires { length page.now ≡ 4352 }
{
    from_bytes(&codec::mark_of(page)?).ok()
}
