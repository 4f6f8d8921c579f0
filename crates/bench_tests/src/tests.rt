use super::sweep;
use bench::{BlockCell, ChipMemory, Counts, Geometry, MemoryChip, Mode, PageState, made};
use std::test::Fail;

// A chip is swept 60 times, some 11,000 asks, and in each sweep the power goes once.
fn exercise(chip: &mut MemoryChip<'_>) -> Counts {
    let mut page = [0u8; 4352];
    let mut room = [0u8; 64];
    for ask in 0..60u64 {
        chip.cut(ask);
        sweep(chip, &mut page, &mut room);
    }
    chip.counts()
}

// What happened to a chip of 64 blocks, of 16 pages each, of which one is bad.
fn counts_of(rt: HostRuntime, mode: Mode) -> Result<Counts, Fail> {
    let mut bytes = Vec::from_elem(rt.alloc(), 0u8, 64 * 16 * 4352)?;
    let mut states = Vec::from_elem(rt.alloc(), PageState::Blank, 64 * 16)?;
    let mut cells = Vec::from_elem(rt.alloc(), BlockCell::untouched(), 64)?;
    let memory = ChipMemory {
        bytes: bytes.as_mut_slice(),
        states: states.as_mut_slice(),
        cells: cells.as_mut_slice(),
    };
    let mut chip = made(
        memory,
        Geometry {
            blocks: 64,
            pages: 16,
        },
        &[9],
        mode,
    )?;
    Ok(exercise(&mut chip))
}

// Without a seed nothing turns over or fails, and a torn page shows every second nought as 1.
#[test]
fn plain(rt: HostRuntime) -> Result<(), Fail> {
    let counts = counts_of(rt, Mode::Plain)?;
    assert!(rt;
        counts.reads.made > 3500 && counts.programs.made > 3500 && counts.erasings.made > 3500
    );
    assert!(rt; counts.reads.cut > 0 && counts.programs.cut > 0 && counts.erasings.cut > 0);
    assert!(rt; counts.shown.part > 0);
    assert!(rt; counts.shown.whole == 0 && counts.shown.blank == 0 && counts.turned_bits == 0);
    assert!(rt; counts.programs.failed == 0 && counts.erasings.failed == 0);
    Ok(())
}

// With a seed bits turn over, programmings and erasings fail, and torn pages show all, some or none of their noughts.
#[test]
fn random(rt: HostRuntime) -> Result<(), Fail> {
    let counts = counts_of(rt, Mode::Random { seed: 3 })?;
    assert!(rt; counts.reads.cut > 0 && counts.programs.cut > 0 && counts.erasings.cut > 0);
    assert!(rt; counts.turned_bits > 0);
    assert!(rt; counts.programs.failed > 0 && counts.erasings.failed > 0);
    assert!(rt; counts.shown.whole > 0 && counts.shown.part > 0 && counts.shown.blank > 0);
    Ok(())
}

// An adversarial chip shows torn pages whole in one life and blank in another, and never in part.
#[test]
fn adversarial(rt: HostRuntime) -> Result<(), Fail> {
    let counts = counts_of(rt, Mode::Adversarial { seed: 3 })?;
    assert!(rt; counts.turned_bits > 0);
    assert!(rt; counts.programs.failed > 0 && counts.erasings.failed > 0);
    assert!(rt; counts.shown.whole > 0 && counts.shown.blank > 0);
    assert_eq!(rt; counts.shown.part, 0);
    Ok(())
}
