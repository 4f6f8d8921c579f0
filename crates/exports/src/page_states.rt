// The states of pages as bytes, as C lends them: 0 blank, 1 written, 2 torn.
ghost use Rattle.std.specs.Prelude.{◌≡◌, ◌<◌, ◌≤◌, length, MatchOption};
ghost use Rattle.std.specs.Fn.{FnOnceReturnsAtMut};
ghost use Rattle.exports.specs.States.{state_of, StandFor};

use bench::PageState;

// The most states that C may lend; they are noted in an array, since there is no heap.
const MOST_PAGES: usize = 65_536;

// The byte that stands for a state.
#[derive(Clone, Copy)]
struct Code(u8);

impl From<PageState> for Code {
    ghost from_gives = { λ state code. state_of code.0 ≡ state };

    fn from(state: PageState) -> Code {
        Code(state as u8)
    }
}

impl From<Code> for PageState {
    ghost from_gives = { λ code state. state ≡ state_of code.0 };

    fn from(code: Code) -> PageState {
        match code.0 {
            0 => PageState::Blank,
            1 => PageState::Written,
            _ => PageState::Torn,
        }
    }
}

// Notes the states that bytes stand for.
fn unpack(codes: &[u8], states: &mut [PageState])
    requires { length codes.now ≤ length states.old }
    ensures { StandFor (length codes.now) codes.now states.new }
{
    // By index: of elements that were written through a `zip` of `iter_mut` nothing is known afterwards, and with `array::from_fn` here and `map` in `pack`,
    // which go over all places, 100,000 random lives played from Rust took 51 s where they take 37.
    for (k, code) in codes.iter().enumerate() {
        states[k] = Code(*code).into();
    }
}

// Writes the bytes that stand for states.
fn pack(states: &[PageState], codes: &mut [u8])
    requires { length codes.old ≤ length states.now }
    ensures { StandFor (length codes.new) codes.new states.now }
{
    // by index, for the same reasons
    for k in 0..codes.len() {
        codes[k] = Code::from(states[k]).0;
    }
}

// Hands the states that bytes stand for to a closure, and writes the bytes anew afterwards; none if there are more than can be noted.
pub fn with_states<R, F: FnOnce(&mut [PageState]) -> R>(codes: &mut [u8], play: F) -> Option<R>
    requires { F.IsAlwaysCallable play }
    ensures { MatchOption result (65536 < length codes.old) (λ r. (old : _) × (new : _) × FnOnceReturnsAtMut F.FnOnce play old r new × StandFor (length codes.old) codes.old old × StandFor (length codes.new) codes.new new) }
{
    if codes.len() > MOST_PAGES {
        return None;
    }
    let mut states = [PageState::Blank; MOST_PAGES];
    unpack(codes, &mut states);
    let played = play(&mut states[..codes.len()]);
    pack(&states, codes);
    Some(played)
}
