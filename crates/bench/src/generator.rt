// Numbers that look random, from a seed. Nothing is proved of how well they look so.
ghost use Rattle.std.specs.Prelude.{◌≡◌, ◌+◌, ◌%◌, ◌^◌};

// The state of the generator, which is the seed at first.
#[derive(Clone, Copy)]
pub struct Generator {
    pub state: u64,
}

impl Generator {
    // The next number.
    pub fn next(&mut self) -> u64
        ensures { self.new.state ≡ (self.old.state + 0x9e3779b97f4a7c15) % 2 ^ 64 }
    {
        self.state = self.state.wrapping_add(0x9e37_79b9_7f4a_7c15);
        scramble(self.state)
    }

    // The next number below 256.
    pub fn byte(&mut self) -> u8
        ensures { self.new.state ≡ (self.old.state + 0x9e3779b97f4a7c15) % 2 ^ 64 }
    {
        (self.next() >> 56) as u8
    }
}

// A number of whose bits each hangs on all bits of `x`.
pub fn scramble(x: u64) -> u64 {
    let y = (x ^ (x >> 30)).wrapping_mul(0xbf58_476d_1ce4_e5b9);
    let z = (y ^ (y >> 27)).wrapping_mul(0x94d0_49bb_1331_11eb);
    z ^ (z >> 31)
}
