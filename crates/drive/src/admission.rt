// Which commands are turned away before anything is done for them, and why.
ghost use Rattle.std.specs.Prelude.{◌≡◌, ℕ, ◌<◌, ◌≤◌, List};
ghost use Rattle.refusals.specs.Refusals.{answered, unfit};
ghost use Rattle.drive.specs.Host.{Seen, wrong};
ghost use Rattle.drive.specs.Promise.{cmd_of};
ghost use Rattle.drive.specs.Admission.{many_of, Names, refused};

use crate::Ask;
use refusals::{Refusal, Span, Tags, judge};

// The sectors that a command names, if it names any.
#[tactic(auto, using(crate::proofs::Verdicts::same_outside), unfolding(crate::specs::Promise::cmd_of, crate::specs::Host::wrong))]
fn span_of(a: Ask) -> Option<Span>
    ensures { (size : ℕ) (bs : List ℕ) → unfit size result ≡ wrong size (cmd_of a bs) }
{
    match a {
        Ask::Read { from, many } | Ask::Write { from, many } | Ask::Trim { from, many } => {
            Some(Span { from, many })
        }
        Ask::Flush => None,
    }
}

// Whether a command may begin, on a drive of so many sectors; the first reason that applies.
pub fn admit(sectors: u64, under_way: &Tags, tag: u8, a: Ask) -> Result<(), Refusal>
    ensures told { (h : Seen) (bs : List ℕ) → Names under_way.now h → answered result ≡ refused sectors h tag (cmd_of a bs) }
    ensures tagged { answered result ≡ 0 → tag < 8 }
    ensures few { answered result ≡ 0 → many_of a ≤ 8 }
{
    judge(sectors, under_way, tag, span_of(a))
}
