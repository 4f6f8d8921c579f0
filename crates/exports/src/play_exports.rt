// Scripts, played on a drive over a chip in lent memory.
ghost use Rattle.std.specs.Prelude.{◌≡◌, ◌≤◌, length};

use crate::page_states::with_states;
use bench::{BlockCell, ChipMemory, Geometry, MemoryChip, Mode, made, resume};
use drive::{Bench, Chip};
use player::{Options, Player, is_fit};

// How a script is played. `mode`: 0 plain, 1 random, 2 adversarial. `one_in`: where blocks may fail, of so many programmings and erasings one does; 0
// stands for 512. `fresh`: on a new chip, else on the one that memory holds. `once`: it ends when the power goes. `trace`: the number of each line and
// turn is printed before what it tells. C has numbers for these; the methods below turn each into what it stands for.
#[repr(C)]
pub struct Setup {
    pub seed: u64,
    pub one_in: u64,
    pub blocks: u32,
    pub pages: u32,
    pub mode: u32,
    pub fresh: bool,
    pub once: bool,
    pub trace: bool,
}

// What came of it: bytes printed, lines played, asks of the chip, the most asks of a coming-up and of a turn, and how often the power went.
#[repr(C)]
#[derive(Clone, Copy, Default)]
pub struct Report {
    pub printed: u64,
    pub lines: u64,
    pub reads: u64,
    pub programs: u64,
    pub erasings: u64,
    pub most_rise: u64,
    pub most_turn: u64,
    pub cuts: u64,
}

// How it went, as C is told by number, from 0 on.
#[derive(Clone, Copy)]
enum Status {
    // All lines were played.
    Played,
    // It ended when the power went.
    Ended,
    // There is no chip of that geometry, memory and list of bad blocks, or more states are lent than can be noted.
    NoChip,
    // The room is too small.
    NoRoom,
    // More was to be printed than fits; what fits stands there.
    NoSpace,
}

// Plays a script on a drive over a chip in the lent memory. What is lent comes one by one, as C passes it.
#[unsafe(no_mangle)]
pub extern "C" fn play(
    script: &[u8],
    bytes: &mut [u8],
    states: &mut [u8],
    cells: &mut [BlockCell],
    bad: &[u32],
    room: &mut [u8],
    out: &mut [u8],
    setup: &Setup,
    report: &mut Report,
) -> u32
    ensures { (result ≤ 4) × (report.new.lines ≤ length script.now) }
{
    let played = with_states(states, |states| {
        let memory = ChipMemory {
            bytes,
            states,
            cells,
        };
        let chip = if setup.fresh {
            made(memory, setup.geometry(), bad, setup.mode())
        } else {
            resume(memory, setup.geometry(), setup.mode())
        };
        match chip {
            Ok(mut chip) => play_on(&mut chip, script, room, out, setup),
            Err(_) => (Status::NoChip, Report::default()),
        }
    });
    let (status, counted) = played.unwrap_or((Status::NoChip, Report::default()));
    *report = counted;
    status as u32
}

impl Setup {
    // The mode that the number names.
    fn mode(&self) -> Mode {
        let seed = self.seed;
        match self.mode {
            0 => Mode::Plain,
            1 => Mode::Random { seed },
            _ => Mode::Adversarial { seed },
        }
    }

    // How many blocks of how many pages.
    fn geometry(&self) -> Geometry {
        Geometry {
            blocks: self.blocks,
            pages: self.pages,
        }
    }

    // Of how many programmings and erasings one fails, if that is said.
    fn odds(&self) -> Option<u64> {
        (self.one_in != 0).then_some(self.one_in)
    }

    // How the player goes on.
    fn options(&self) -> Options {
        Options {
            once: self.once,
            trace: self.trace,
        }
    }
}

impl Report {
    // What was asked of a chip.
    fn of(chip: &mut MemoryChip) -> Report {
        chip.allow(0);
        let counts = chip.counts();
        Report {
            reads: counts.reads.made,
            programs: counts.programs.made,
            erasings: counts.erasings.made,
            most_rise: counts.most_rise,
            most_turn: counts.most_turn,
            ..Report::default()
        }
    }
}

// Plays a script on a chip.
fn play_on(
    chip: &mut MemoryChip,
    script: &[u8],
    room: &mut [u8],
    out: &mut [u8],
    setup: &Setup,
) -> (Status, Report)
    ensures { result.1.lines ≤ length script.now }
{
    if !is_fit(chip.blocks(), chip.pages(), room.len()) {
        return (Status::NoRoom, Report::default());
    }
    chip.set_odds(setup.odds().or(Some(512)));
    let mut player = Player::new(chip, room, out, setup.options());
    let lines = player.play_script(script);
    let over = player.is_over();
    if !over {
        player.print_erased();
    }
    let printed = player.out.printed().len() as u64;
    let status = match (player.out.full, over) {
        (true, _) => Status::NoSpace,
        (false, true) => Status::Ended,
        (false, false) => Status::Played,
    };
    let cuts = player.cuts;
    let report = Report {
        printed,
        lines,
        cuts,
        ..Report::of(chip)
    };
    (status, report)
}
