// What the drive knows of its log.
ghost use Rattle.std.specs.Prelude.{◌≡◌, ◌<◌, ◌≤◌, not, ◌&&◌, if◌then◌else◌};

use crate::chip_ops::Head;
use crate::room::Shape;
use record::headers::Predecessor;
use record::marks::{Content, Origin};
use record::numbers::{BlockIndex, BlockNumber, RecordCount};

// The log's newest block and what its next records carry.
#[derive(Drop)]
pub struct Journal {
    pub shape: Shape,
    // how often the chip may still be asked
    pub asks: u32,
    // where the next record goes, if the newest block takes more
    pub head: Option<Head>,
    // the newest block, how many records it has, the index of the first, and its number
    pub block: u32,
    pub count: u32,
    pub first: u64,
    pub number: u64,
    // the highest number that a block has, and how many blocks are bad
    pub highest: u64,
    pub bad: u32,
    // the oldest record that may still be needed, and its block
    pub tail: u64,
    pub tail_block: u32,
    // the tail of the newest record, and whether that is a seal or was copied
    pub last_tail: u64,
    pub last_seal: bool,
    pub last_copied: bool,
    // the tail that a look believes if it neither counts the newest record nor carries over copies before it
    pub before_tail: u64,
    // the oldest block that must be kept
    pub oldest: u32,
    // whether the newest record is a seal that a coming-up added
    pub owed: bool,
    // whether the drive is still coming up
    pub rising: bool,
    // how many records were looked at for the next fresh one
    pub looked: u32,
    // no block is left, or what is needed can't be read
    pub stuck: bool,
    // what sectors hold isn't known
    pub blind: bool,
    // the numbers are within the bounds of the sheet, and the blocks that are named are there
    ghost few: { shape.blocks ≤ 65536 },
    ghost short: { shape.pages ≤ 256 },
    ghost inside: { block < shape.blocks },
    ghost counted: { count < 256 },
    ghost tail_inside: { tail_block < shape.blocks },
    ghost oldest_inside: { oldest < shape.blocks },
}

impl Journal {
    ghost use Rattle.drive.specs.Journals.{Unknown, Alike};

    // Before anything is known of a chip.
    pub fn unknown(blocks: u32, pages: u32) -> Self
        requires { (0 < blocks) × ((blocks ≤ 65536) × (pages ≤ 256)) }
        ensures { Unknown blocks pages result }
    {
        Journal {
            shape: Shape {
                blocks,
                pages,
                total: blocks * pages,
            },
            asks: 16 * blocks + 65536,
            head: None,
            block: 0,
            count: 0,
            first: 0,
            number: 0,
            highest: 0,
            bad: 0,
            tail: 0,
            tail_block: 0,
            last_tail: 0,
            before_tail: 0,
            last_seal: false,
            last_copied: false,
            oldest: 0,
            owed: false,
            rising: true,
            looked: 0,
            stuck: false,
            blind: true,
        }
    }

    // The oldest tail that a later look may believe without a successor of the newest block.
    pub fn keep(&self) -> u64
        ensures { result ≡ (if self.now.last_seal && not self.now.rising then self.now.last_tail else self.now.before_tail) }
    {
        if self.last_seal && !self.rising {
            self.last_tail
        } else {
            self.before_tail
        }
    }

    // The index of the next record.
    pub fn next_index(&self) -> u64 {
        self.first.saturating_add(u64::from(self.count))
    }

    // Whether the newest block takes more records.
    pub fn has_head(&self) -> bool {
        self.head.is_some()
    }

    // The newest block as a successor's header names it, if there is one.
    pub fn predecessor(&self) -> Option<Predecessor> {
        if self.count == 0 {
            return None;
        }
        Some(Predecessor {
            block: BlockIndex { index: self.block },
            number: BlockNumber {
                number: self.number,
            },
            records: RecordCount { count: self.count },
        })
    }

    // Notes that a block with the highest number is the newest, with no record so far.
    pub fn begin_block(&mut self, block: u32)
        requires { block < self.old.shape.blocks }
        ensures { Alike self.old self.new }
    {
        self.link_tail(block);
        if !self.rising {
            self.before_tail = self.last_tail;
        }
        self.first = self.next_index();
        self.block = block;
        self.number = self.highest;
        self.count = 0;
    }

    // Notes that the tail lies in a block behind the newest one, if it does.
    fn link_tail(&mut self, block: u32)
        requires { block < self.old.shape.blocks }
        ensures { Alike self.old self.new }
    {
        if self.rising && self.tail >= self.next_index() {
            self.tail_block = block;
        }
    }

    // Notes the tail that the newest record carries.
    pub fn note_tail(&mut self, content: Content)
        ensures { Alike self.old self.new }
    {
        if self.count > 1 && !self.rising && !self.last_copied {
            self.before_tail = self.last_tail;
        }
        self.last_tail = self.tail;
        self.last_seal = is_seal(content);
        self.last_copied = is_copied(content);
    }
}

// Whether a record is a seal.
pub fn is_seal(content: Content) -> bool {
    matches!(content, Content::Seal { .. })
}

// Whether a record was copied from the tail of the log.
pub fn is_copied(content: Content) -> bool {
    matches!(
        content,
        Content::Data {
            origin: Origin::Copied,
            ..
        } | Content::Table {
            origin: Origin::Copied,
            ..
        }
    )
}
