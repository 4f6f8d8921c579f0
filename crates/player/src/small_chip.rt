// A small chip to play on.
ghost use Rattle.std.specs.Prelude.{◌≡◌, ◌≤◌, [], length, IsOk, IfOk};
ghost use Rattle.std.specs.Fn.{FnOnceReturnsAtMut};
ghost use Rattle.bench.specs.Store.{held};
ghost use Rattle.bench.specs.Made.{Fresh};

use bench::{BlockCell, ChipMemory, Geometry, MemoryChip, Mode, PageState, Refusal, made};

// Hands a new chip of 32 blocks of 16 pages, which lie in the lent bytes, to a closure; there is none if the bytes are too few.
pub fn on_small_chip<R, F: FnOnce(&mut MemoryChip) -> R>(
    bytes: &mut [u8],
    mode: Mode,
    play: F,
) -> Result<R, Refusal>
    requires { F.IsAlwaysCallable play }
    ensures space { 2228224 ≤ length bytes.old → IsOk result }
    ensures played { IfOk result (λ r. (c : _) × (c' : _) × Fresh (held c.store) 32 16 [] × FnOnceReturnsAtMut F.FnOnce play c r c') }
{
    let mut states = [PageState::Blank; 512];
    let mut cells = [BlockCell::untouched(); 32];
    let memory = ChipMemory {
        bytes,
        states: &mut states,
        cells: &mut cells,
    };
    let geometry = Geometry {
        blocks: 32,
        pages: 16,
    };
    let mut chip = made(memory, geometry, &[], mode)?;
    Ok(play(&mut chip))
}
