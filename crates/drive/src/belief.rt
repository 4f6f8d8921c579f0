// Coming up, third part: which records of the head are believed.

use crate::journal::{is_copied, is_seal};
use crate::room::Address;
use crate::store::Store;
use crate::survey::Candidate;
use crate::{Chip, Gone};
use record::marks::{Content, RecordMark, SealOrigin};
use record::numbers::RecordCount;

// How many records of the head are carried over, the tail of the last of them, whether that is a seal and was added by a coming-up, and one that counts if
// another is seen behind it.
#[derive(Clone, Copy)]
pub struct Belief {
    pub count: RecordCount,
    pub tail: u64,
    pub sealed: bool,
    pub owed: bool,
    pub last: Option<RecordMark>,
}

// Whether a record is a seal that a coming-up added.
fn is_added(content: Content) -> bool {
    matches!(
        content,
        Content::Seal {
            origin: SealOrigin::Recovery
        }
    )
}

// The last of so many records is believed. Copies at the end aren't carried over: what they were copied from is still there.
fn believed(belief: Belief, count: RecordCount, record: RecordMark) -> Belief {
    if is_copied(record.content) {
        return Belief {
            last: None,
            ..belief
        };
    }
    Belief {
        count,
        tail: record.tail.index,
        sealed: is_seal(record.content),
        owed: is_added(record.content),
        last: None,
    }
}

// The last of so many records is seen behind the others.
fn seen(belief: Belief, count: RecordCount, record: RecordMark) -> Belief {
    let others = RecordCount {
        count: count.count.saturating_sub(1),
    };
    let before = match belief.last {
        Some(last) => believed(belief, others, last),
        None => belief,
    };
    if is_seal(record.content) {
        return believed(before, count, record);
    }
    Belief {
        last: Some(record),
        ..before
    }
}

// The commit page of a copy was seen once, and counts though it isn't seen now.
fn committed(belief: Belief, count: RecordCount) -> Belief {
    Belief {
        count,
        sealed: true,
        owed: true,
        last: None,
        ..belief
    }
}

impl<C: Chip> Store<'_, C> {
    ghost use Rattle.drive.specs.Stores.{Rose};

    // Reads the head's records until one isn't seen.
    pub fn believe(&mut self, head: Candidate, tail: u64) -> Result<Belief, Gone>
        ensures { Rose result self.old self.new }
    {
        let mut belief = Belief {
            count: RecordCount { count: 0 },
            tail,
            sealed: false,
            owed: false,
            last: None,
        };
        for page in 1..self.journal.shape.pages {
            if self.journal.asks < 1 {
                break;
            }
            let count = RecordCount { count: page };
            let place = Address {
                block: head.block,
                page,
            };
            match self.show_record(place)? {
                Some(record) => {
                    belief = seen(belief, count, record);
                }
                None => {
                    if page != head.commit || page == 1 {
                        break;
                    }
                    belief = committed(belief, count);
                }
            }
        }
        Ok(belief)
    }
}
