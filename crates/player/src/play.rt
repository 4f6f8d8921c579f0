// The lines of a script.
ghost use Rattle.std.specs.Prelude.{◌≡◌, ℕ, ◌≤◌, false, length, None};
ghost use Rattle.bench.specs.Store.{held};
ghost use Rattle.output.specs.Outputs.{Prints};
ghost use Rattle.player.specs.Printed.{bad_line, erased_line};

use crate::player::Player;
use bench::{MemoryChip, Mode};
use drive::Ask;
use output::Output;
use script::{Command, Line, next_line, parse};

impl Player<'_, MemoryChip<'_>> {
    ghost use Rattle.player.specs.Players.{Same};

    // The power goes at an ask, or at once.
    fn cut(&mut self, asks: u32)
        ensures { Same self.old self.new }
    {
        self.chip.cut(u64::from(asks));
        if asks == 0 {
            self.lose();
        }
    }

    // A command of a script.
    fn play(&mut self, command: Command)
        ensures { Same self.old self.new }
    {
        match command {
            Command::Write {
                tag,
                from,
                many,
                fill,
            } => self.write(tag, from.into(), many, fill),
            Command::Read { tag, from, many } => {
                let from = from.into();
                self.ask(tag, Ask::Read { from, many });
            }
            Command::Trim { tag, from, many } => {
                let from = from.into();
                self.ask(tag, Ask::Trim { from, many });
            }
            Command::Flush { tag } => self.ask(tag, Ask::Flush),
            Command::Turn { count } => self.turn(count),
            Command::Cut { asks } => self.cut(asks),
            Command::Seed { seed } => self.chip.choose(Mode::Random { seed: seed.into() }),
        }
    }

    // A line of a script, with its number: its command is played, and what is no command is answered so.
    pub fn play_line(&mut self, command: Option<Command>, number: u64)
        ensures bad { command ≡ None → self.old.options.trace ≡ false → Prints self.old.out (bad_line number) self.new.out }
        ensures same { Same self.old self.new }
    {
        self.note(b"# line ", number);
        match command {
            Some(command) => self.play(command),
            None => self.out.numbered(b"line ", number, b"?\n"),
        }
    }

    // Plays the lines of a script, from the first to the last or to where it ends, and says how many these are.
    pub fn play_script(&mut self, script: &[u8]) -> u64
        ensures low { result ≤ length script.now }
        ensures same { Same self.old self.new }
    {
        let mut number: u64 = 0;
        let mut at = 0;
        // by `next_line`, since of it the theorem on lines speaks, and what is proved of lines is to hold of those that are played
        while let Some(line) = next_line(script, at) {
            if self.is_over() {
                break;
            }
            let Line { start, end, next } = line;
            number += 1;
            self.play_line(parse(&script[start..end]), number);
            at = next;
        }
        number
    }

    // Prints the fewest and the most erasings of the chip's blocks that aren't bad.
    pub fn print_erased(&mut self)
        ensures prints { Prints self.old.out (erased_line (held self.old.chip.now.store)) self.new.out }
        ensures same { Same self.old self.new }
        ensures lent { (self.new.chip.now ≡ self.old.chip.now) × (self.new.room.now ≡ self.old.room.now) }
        ensures rest { (self.new.drive ≡ self.old.drive) × ((self.new.turns ≡ self.old.turns) × ((self.new.cuts ≡ self.old.cuts) × (self.new.options ≡ self.old.options))) }
    {
        print_erased(self.chip, &mut self.out);
    }
}

// Prints the fewest and the most erasings of blocks that aren't bad.
pub fn print_erased(chip: &MemoryChip, out: &mut Output)
    ensures { Prints out.old (erased_line (held chip.now.store)) out.new }
{
    out.pair(
        b"erased ",
        u64::from(chip.least_erased()),
        u64::from(chip.most_erased()),
    );
}
