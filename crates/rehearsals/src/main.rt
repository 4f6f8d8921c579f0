// Scripts that the gate plays, each on a new chip. What is printed was derived by hand from the rules in README.md and docs/LAYOUT.md.
#![tactic(auto)]

ghost use Rattle.std.specs.Prelude.{◌<◌};

mod long;

use bench::{MemoryChip, Mode};
use long::{fill_some, overwrite_one, play_cuts, play_failures, play_long};
use player::{Options, Player, on_small_chip};
use std::io;
use std::io::Write;

// The bytes of a chip's pages, and a drive's room.
#[derive(Drop)]
struct Memory<'a> {
    pages: &'a mut [u8],
    room: &'a mut [u8],
}

// Plays something on a new chip.
fn rehearse<F: FnOnce(&mut MemoryChip, &mut [u8]) -> io::Result<()>>(
    rt: &HostRuntime,
    memory: &mut Memory,
    title: &str,
    play: F,
) -> io::Result<()>
    requires { F.IsAlwaysCallable play }
{
    println!(rt; "== {title}")?;
    let room = &mut *memory.room;
    match on_small_chip(memory.pages, Mode::Plain, |chip| play(chip, room)) {
        Ok(played) => played,
        Err(_) => println!(rt; "no chip"),
    }
}

// Plays a script.
fn play_text(
    rt: &HostRuntime,
    chip: &mut MemoryChip,
    room: &mut [u8],
    script: &[u8],
) -> io::Result<()> {
    let mut text = [0u8; 8192];
    let mut player = Player::new(chip, room, &mut text, Options::default());
    player.play_script(script);
    player.print_erased();
    rt.stdout().write_all(player.out.printed())
}

fn main(rt: HostRuntime) -> io::Result<()> {
    run::<2_228_224, 1_054_720>(&rt)
}

// Plays all of them.
fn run<const PAGES: usize, const ROOM: usize>(rt: &HostRuntime) -> io::Result<()>
    requires { (PAGES < 4294967296) × (ROOM < 4294967296) }
{
    let mut pages = [0u8; PAGES];
    let mut room = [0u8; ROOM];
    let mut memory = Memory {
        pages: &mut pages,
        room: &mut room,
    };
    play_short(rt, &mut memory)?;
    play_longer(rt, &mut memory)
}

// The scripts of some lines, each with its title.
const SHORT: [(&str, &[u8]); 5] = [
    ("a read of a new drive", b"read 4 9 2\nturn 3\n"),
    (
        "a write that was told and not flushed, and two cuts",
        b"write 3 5 1 07\nturn 20\nread 4 5 1\nturn 20\ncut 0\nread 4 5 1\nturn 20\ncut 0\nread 4 5 1\nturn 20\n",
    ),
    (
        "a write that was flushed, and two cuts",
        b"write 3 5 1 07\nturn 20\nflush 5\nturn 20\nread 4 5 1\nturn 20\ncut 0\nread 4 5 1\nturn 20\ncut 0\nread 4 5 1\nturn 20\n",
    ),
    (
        "two writes of one sector under way together",
        b"write 3 5 1 07\nwrite 4 5 1 08\nturn 20\nread 5 5 1\nturn 20\nread 6 5 1\nturn 20\n",
    ),
    (
        "a write beyond the last sector",
        b"write 0 318 8 01\nturn 20\n",
    ),
];

// Scripts of some lines.
fn play_short(rt: &HostRuntime, memory: &mut Memory) -> io::Result<()> {
    for (title, script) in &SHORT {
        rehearse(
            rt,
            memory,
            title,
            |chip, room| play_text(rt, chip, room, script),
        )?;
    }
    Ok(())
}

// Scripts of many lines.
fn play_longer(rt: &HostRuntime, memory: &mut Memory) -> io::Result<()> {
    rehearse(
        rt,
        memory,
        "a cut at each of the first 40 asks of a coming-up",
        |chip, room| play_long(rt, chip, room, |player, _| play_cuts(player)),
    )?;
    rehearse(
        rt,
        memory,
        "all sectors written four times on a chip whose blocks fail, with a cut after each flush",
        |chip, room| play_long(rt, chip, room, play_failures),
    )?;
    rehearse(
        rt,
        memory,
        "300 sectors written once, then one of them 30,000 times, with a flush after each tenth",
        |chip, room| play_long(rt, chip, room, |player, tally| {
            fill_some(player, tally);
            overwrite_one(player, tally);
        }),
    )
}
