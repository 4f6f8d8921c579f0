// The tags that name commands.
ghost use Rattle.std.specs.Prelude.{◌<◌};

// A tag that may name a command: one of eight.
#[derive(Clone, Copy)]
pub struct Tag {
    pub number: u8,
    ghost one_of_eight: { number < 8 },
}
