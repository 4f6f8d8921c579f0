// Appending to the log: one try at a time.
ghost use Rattle.std.specs.Prelude.{◌<◌, ◌≤◌, IfOk, IfSome};

use crate::room::{LIST, PAGE};
use crate::store::Store;
use crate::{Chip, Gone};
use record::marks::Content;
use record::numbers::PageIndex;

impl<C: Chip> Store<'_, C> {
    ghost use Rattle.drive.specs.Stores.{Went};

    // Takes the free block with the lowest number and writes its header; none if that failed or no block is left.
    fn open_block(&mut self, commit: PageIndex) -> Result<Option<u32>, Gone>
        requires { 2 ≤ self.old.journal.now.asks }
        ensures went { Went 2 result self.old self.new }
        ensures inside { IfOk result (λ o. IfSome o (λ b. b < self.new.journal.now.shape.blocks)) }
    {
        let Some(block) = self.lowest() else {
            self.journal.stuck = true;
            return Ok(None);
        };
        if !self.take_block(block)? {
            return Ok(None);
        }
        self.make_header(commit);
        let written = self.put(LIST)?;
        Ok(written.then_some(block))
    }

    // Appends a record, whose data stand in the room, to the newest block or to a successor with this commit page; false if that failed.
    pub fn append(&mut self, content: Content, commit: PageIndex) -> Result<bool, Gone>
        requires { 3 ≤ self.old.journal.now.asks }
        ensures { Went 3 result self.old self.new }
    {
        if !self.journal.has_head() {
            return self.append_behind(content, commit);
        }
        self.make_record(content);
        if !self.put(PAGE)? {
            return Ok(false);
        }
        self.note_record(content);
        Ok(true)
    }

    // Appends it to a successor of the newest block.
    fn append_behind(&mut self, content: Content, commit: PageIndex) -> Result<bool, Gone>
        requires { 3 ≤ self.old.journal.now.asks }
        ensures { Went 3 result self.old self.new }
    {
        self.release();
        let Some(block) = self.open_block(commit)? else {
            return Ok(false);
        };
        self.make_record(content);
        if !self.put(PAGE)? {
            return Ok(false);
        }
        self.adopt(block);
        self.note_record(content);
        Ok(true)
    }
}
