// Reading a sector.
ghost use Rattle.std.specs.Prelude.{◌≡◌, ◌≤◌, length};

use crate::room::PAGE;
use crate::store::Store;
use crate::{Chip, Gone};
use record::marks::{Content, RecordMark};

// Whether a record is a sector's content.
fn holds_sector(record: RecordMark, sector: u32) -> bool {
    matches!(record.content, Content::Data { sector: held, .. } if held.number == sector)
}

impl<C: Chip> Store<'_, C> {
    ghost use Rattle.drive.specs.Stores.{Went};

    // Reads a sector; false if the page that should hold it doesn't.
    pub fn read_sector(&mut self, sector: u32, out: &mut [u8]) -> Result<bool, Gone>
        requires soon { 1 ≤ self.old.journal.now.asks }
        requires lent { length out.old ≡ 4096 }
        ensures { Went 1 result self.old self.new }
    {
        let Some(place) = self.find(sector) else {
            out.fill(0);
            return Ok(true);
        };
        let Some(record) = self.show_record(place)? else {
            return Ok(false);
        };
        if !holds_sector(record, sector) {
            return Ok(false);
        }
        self.mend_page();
        out.copy_from_slice(&self.room[PAGE..PAGE + 4096]);
        Ok(true)
    }
}
