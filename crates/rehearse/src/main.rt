// Plays a script from standard input on a drive over a chip of 32 blocks of 16 pages in memory.
#![tactic(auto)]

ghost use Rattle.std.specs.Prelude.{◌<◌};

use bench::{MemoryChip, Mode};
use line_buffer::LineBuffer;
use player::{Options, Player, on_small_chip};
use std::io;
use std::io::{Read, Write};

// The line that is being read, and its number, from 1.
#[derive(Drop)]
struct Lines {
    line: LineBuffer,
    number: u64,
}

impl Lines {
    // Plays the line that has ended, and prints what is told.
    fn end(&mut self, rt: &HostRuntime, player: &mut Player<MemoryChip>) -> io::Result<()> {
        player.play_line(self.line.command(), self.number);
        rt.stdout().write_all(player.out.printed())?;
        if player.out.full {
            let number = self.number;
            println!(rt; "line {number} tells more than fits")?;
        }
        player.out.clear();
        self.line = LineBuffer::new();
        self.number = self.number.saturating_add(1);
        Ok(())
    }

    // Takes what was read.
    fn take(
        &mut self,
        rt: &HostRuntime,
        player: &mut Player<MemoryChip>,
        read: &[u8],
    ) -> io::Result<()> {
        for b in read {
            match *b {
                b'\n' => self.end(rt, player)?,
                b => self.line.push(b),
            }
        }
        Ok(())
    }

    // Reads and takes some bytes; false at the end of the input.
    fn read_some(&mut self, rt: &HostRuntime, player: &mut Player<MemoryChip>) -> io::Result<bool> {
        let mut chunk = [0u8; 4096];
        let n = rt.stdin().read(&mut chunk)?;
        self.take(rt, player, &chunk[..n])?;
        Ok(n > 0)
    }
}

// Plays all lines of the input.
fn play_all(rt: &HostRuntime, chip: &mut MemoryChip, room: &mut [u8]) -> io::Result<()> {
    let mut text = [0u8; 4096];
    let mut player = Player::new(chip, room, &mut text, Options::default());
    let mut lines = Lines {
        line: LineBuffer::new(),
        number: 1,
    };
    for _ in 0..u64::MAX {
        if !lines.read_some(rt, &mut player)? {
            break;
        }
    }
    if !lines.line.is_empty() {
        lines.end(rt, &mut player)?;
    }
    player.print_erased();
    rt.stdout().write_all(player.out.printed())
}

// Plays on a chip in so many bytes of pages, with a room of so many.
fn run<const PAGES: usize, const ROOM: usize>(rt: &HostRuntime) -> io::Result<()>
    requires { (PAGES < 4294967296) × (ROOM < 4294967296) }
{
    let mut pages = [0u8; PAGES];
    let mut room = [0u8; ROOM];
    match on_small_chip(
        &mut pages,
        Mode::Plain,
        |chip| play_all(rt, chip, &mut room),
    ) {
        Ok(played) => played,
        Err(_) => println!(rt; "no chip"),
    }
}

fn main(rt: HostRuntime) -> io::Result<()> {
    run::<2_228_224, 1_054_720>(&rt)
}
