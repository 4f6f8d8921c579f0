// Scripts of many lines, made as they are played.
use bench::MemoryChip;
use output::Output;
use player::{Options, Player};
use script::Command;
use std::io;
use std::io::Write;

// How many lines told something, refused something, or said that the power went or something else.
#[derive(Clone, Copy, Default, PartialEq)]
pub struct Tally {
    told: u64,
    refused: u64,
    others: u64,
}

impl Tally {
    // Counts a line by its first letter.
    fn count(&mut self, letter: u8) {
        let count = match letter {
            b't' => &mut self.told,
            b'r' => &mut self.refused,
            _ => &mut self.others,
        };
        *count = count.saturating_add(1);
    }

    // Counts the lines of an output, and empties it.
    fn take(&mut self, out: &mut Output) {
        for line in out.printed().split_inclusive(|b| *b == b'\n') {
            if let Some(letter) = line.first() {
                self.count(*letter);
            }
        }
        out.clear();
    }
}

// A command, and turns until it has ended.
fn serve(player: &mut Player<MemoryChip>, command: Command) {
    player.play_line(Some(command), 1);
    player.play_line(Some(Command::Turn { count: 2000 }), 2);
}

// The power goes at once, and then again at an ask of the coming-up; a read follows.
fn cut_and_read(player: &mut Player<MemoryChip>, ask: u32) {
    player.play_line(Some(Command::Cut { asks: 0 }), 1);
    player.play_line(Some(Command::Cut { asks: ask }), 2);
    let read = Command::Read {
        tag: 4,
        from: 5,
        many: 1,
    };
    serve(player, read);
}

// A flushed write, and a cut at each of the first 40 asks of the comings-up after it.
pub fn play_cuts(player: &mut Player<MemoryChip>) {
    let write = Command::Write {
        tag: 3,
        from: 5,
        many: 1,
        fill: 7,
    };
    serve(player, write);
    serve(player, Command::Flush { tag: 5 });
    for ask in 1..=40 {
        cut_and_read(player, ask);
    }
}

// All sectors are written, eight at a time, each eight with another byte; and flushed.
fn write_all(player: &mut Player<MemoryChip>, first: u8) {
    for i in 0..40u8 {
        let write = Command::Write {
            tag: 0,
            from: 8 * u32::from(i),
            many: 8,
            fill: first.wrapping_add(i),
        };
        serve(player, write);
    }
    serve(player, Command::Flush { tag: 1 });
}

// All sectors are read, eight at a time.
fn read_all(player: &mut Player<MemoryChip>) {
    for i in 0..40 {
        let read = Command::Read {
            tag: 2,
            from: 8 * i,
            many: 8,
        };
        serve(player, read);
    }
}

// With all tricks of the chip: all sectors written four times, flushed, and a cut after each flush; then they are read.
pub fn play_failures(player: &mut Player<MemoryChip>, tally: &mut Tally) {
    player.play_line(Some(Command::Seed { seed: 11 }), 1);
    for round in 0..4u8 {
        write_all(player, 16 * round);
        player.play_line(Some(Command::Cut { asks: 0 }), 2);
        tally.take(&mut player.out);
    }
    read_all(player);
}

// 300 sectors once.
pub fn fill_some(player: &mut Player<MemoryChip>, tally: &mut Tally) {
    for sector in 0..300 {
        let write = Command::Write {
            tag: 0,
            from: sector,
            many: 1,
            fill: 1,
        };
        serve(player, write);
        tally.take(&mut player.out);
    }
}

// One sector 30,000 times, with a flush after each tenth.
pub fn overwrite_one(player: &mut Player<MemoryChip>, tally: &mut Tally) {
    for i in 0..30_000u32 {
        let write = Command::Write {
            tag: 0,
            from: 0,
            many: 1,
            fill: 2,
        };
        serve(player, write);
        if i % 10 == 9 {
            serve(player, Command::Flush { tag: 1 });
        }
        tally.take(&mut player.out);
    }
}

// Plays one of them and prints what it tells.
pub fn play_long<F: FnOnce(&mut Player<MemoryChip>, &mut Tally)>(
    rt: &HostRuntime,
    chip: &mut MemoryChip,
    room: &mut [u8],
    play: F,
) -> io::Result<()>
    requires { F.IsAlwaysCallable play }
{
    let mut text = [0u8; 8192];
    let mut tally = Tally::default();
    let mut player = Player::new(chip, room, &mut text, Options::default());
    play(&mut player, &mut tally);
    rt.stdout().write_all(player.out.printed())?;
    print_tally(rt, tally)?;
    print_wear(rt, chip)
}

// Prints what was counted, if anything was.
fn print_tally(rt: &HostRuntime, tally: Tally) -> io::Result<()> {
    if tally == Tally::default() {
        return Ok(());
    }
    let Tally {
        told,
        refused,
        others,
    } = tally;
    println!(rt; "told {told} refused {refused} else {others}")
}

// Prints whether blocks failed, and how far apart the erasings of the others are.
fn print_wear(rt: &HostRuntime, chip: &MemoryChip) -> io::Result<()> {
    let counts = chip.counts();
    if counts.programs.failed > 0 || counts.erasings.failed > 0 {
        println!(rt; "blocks failed")?;
    }
    let apart = chip.most_erased().saturating_sub(chip.least_erased());
    if apart <= 8 {
        return println!(rt; "erasings at most 8 apart");
    }
    println!(rt; "erasings {apart} apart")
}
