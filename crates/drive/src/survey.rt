// Coming up, first part: what every block shows.
ghost use Rattle.std.specs.Prelude.{◌≡◌, ◌<◌, ◌≤◌};
ghost use Rattle.drive.specs.Survey.{best_of};

use crate::room::{Address, Standing};
use crate::store::Store;
use crate::{Chip, Gone};
use record::marks::{HeaderMark, Mark};

// How new a header is: more blocks were bad when it was written, or as many and its number is higher.
#[derive(Clone, Copy, PartialEq, Eq, PartialOrd, Ord)]
pub struct Age {
    pub bad: u32,
    pub number: u64,
}

// A block whose header and commit page were seen.
#[derive(Clone, Copy)]
pub struct Candidate {
    pub block: u32,
    pub age: Age,
    pub commit: u32,
}

// The best of these, and whether a mark was seen that a first coming-up doesn't leave.
#[derive(Clone, Copy, Default)]
pub struct Survey {
    pub best: Option<Candidate>,
    pub foreign: bool,
}

// The newer of a candidate and what was best so far; of equals the candidate.
fn better(best: Option<Candidate>, next: Candidate) -> Candidate
    ensures { result ≡ best_of best next }
{
    match best {
        Some(old) if old.age > next.age => old,
        _ => next,
    }
}

// Whether a header is that of a first block with nothing copied.
fn is_first(header: HeaderMark) -> bool {
    header.predecessor.is_none() && header.commit.index == 1
}

impl<C: Chip> Store<'_, C> {
    ghost use Rattle.drive.specs.Stores.{Spent, Went, Rose, Noted};

    // Notes what a block's first page says.
    pub fn note_block(&mut self, block: u32, number: u64, standing: Standing)
        requires { block < self.old.journal.now.shape.blocks }
        ensures spent { Spent 0 self.old self.new }
        ensures noted { Noted self.old self.new }
    {
        self.set_number(block, number);
        self.set_standing(block, standing);
        self.journal.highest = self.journal.highest.max(number);
    }

    // Looks at the commit page that a header names.
    fn survey_header(
        &mut self,
        block: u32,
        header: HeaderMark,
        survey: Survey,
    ) -> Result<Survey, Gone>
        requires soon { 1 ≤ self.old.journal.now.asks }
        requires within { block < self.old.journal.now.shape.blocks }
        ensures { Went 1 result self.old self.new }
    {
        let number = header.number.number;
        self.note_block(block, number, Standing::Free);
        let commit = Address {
            block,
            page: u32::from(header.commit.index),
        };
        let foreign = survey.foreign || !is_first(header);
        if self.show_record(commit)?.is_none() {
            return Ok(Survey { foreign, ..survey });
        }
        let age = Age {
            bad: header.bad_blocks,
            number,
        };
        let next = Candidate {
            block,
            age,
            commit: commit.page,
        };
        Ok(Survey {
            best: Some(better(survey.best, next)),
            foreign,
        })
    }

    // Looks at a block.
    fn survey_block(&mut self, block: u32, survey: Survey) -> Result<Survey, Gone>
        requires soon { 2 ≤ self.old.journal.now.asks }
        requires within { block < self.old.journal.now.shape.blocks }
        ensures { Went 2 result self.old self.new }
    {
        match self.show(Address { block, page: 0 })? {
            Some(Mark::Header(header)) => self.survey_header(block, header, survey),
            Some(Mark::Void(void)) => {
                self.note_block(block, void.number.number, Standing::Free);
                Ok(survey)
            }
            Some(Mark::Record(_)) => Ok(Survey {
                foreign: true,
                ..survey
            }),
            None => {
                self.note_block(block, 0, Standing::Unreadable);
                Ok(survey)
            }
        }
    }

    // Looks at all blocks.
    pub fn survey(&mut self) -> Result<Survey, Gone>
        ensures { Rose result self.old self.new }
    {
        let mut survey = Survey::default();
        for block in 0..self.journal.shape.blocks {
            if self.journal.asks < 2 {
                self.journal.stuck = true;
                break;
            }
            survey = self.survey_block(block, survey)?;
        }
        Ok(survey)
    }
}
