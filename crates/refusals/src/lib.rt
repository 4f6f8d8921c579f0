// Which commands are turned away before anything is done for them, and why.
#![tactic(auto)]

ghost use Rattle.std.specs.Prelude.{◌≡◌, ℕ, ◌<◌, false};
ghost use Rattle.refusals.specs.Refusals.{number, answered, has, outside, refusal};

// Why a command is turned away.
#[derive(Clone, Copy, PartialEq, Eq, Debug)]
pub enum Refusal {
    Tag = 1,
    Count = 2,
    Range = 3,
    WornOut = 4,
    NotBuilt = 5,
}

// The number that whoever asks is told.
impl From<Refusal> for u8 {
    ghost from_gives = { λ why n. n ≡ number why };

    fn from(why: Refusal) -> u8 {
        why as u8
    }
}

// Which of the eight tags name a command under way.
#[derive(Clone, Copy, PartialEq, Eq, Debug)]
pub struct Tags {
    pub flags: [bool; 8],
}

impl Tags {
    // No command is under way.
    pub fn none() -> Self
        ensures { (t : ℕ) → has result t ≡ false }
    {
        Tags { flags: [false; 8] }
    }

    // Whether a tag names a command under way.
    pub fn has(&self, tag: u8) -> bool
        ensures { result ≡ has self.now tag }
    {
        self.flags.get(usize::from(tag)).copied().unwrap_or(false)
    }
}

// The sectors that a command names: so many, from one on.
#[derive(Clone, Copy, PartialEq, Eq, Debug)]
pub struct Span {
    pub from: u64,
    pub many: u32,
}

// Whether these sectors may be named, on a drive of so many.
fn within(sectors: u64, span: Span) -> Result<(), Refusal>
    ensures { answered result ≡ outside sectors span.from span.many }
{
    let Span { from, many } = span;
    if many == 0 || many > 8 {
        return Err(Refusal::Count);
    }
    if from > sectors || u64::from(many) > sectors - from {
        return Err(Refusal::Range);
    }
    Ok(())
}

// Whether a command that names these sectors, or none, may begin under a tag, on a drive of so many sectors; the first reason that applies.
pub fn judge(sectors: u64, under_way: &Tags, tag: u8, span: Option<Span>) -> Result<(), Refusal>
    ensures told { answered result ≡ refusal sectors (has under_way.now tag) tag span }
    ensures tagged { answered result ≡ 0 → tag < 8 }
{
    if tag > 7 || under_way.has(tag) {
        return Err(Refusal::Tag);
    }
    match span {
        Some(span) => within(sectors, span),
        None => Ok(()),
    }
}
