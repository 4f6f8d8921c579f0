// The laws that tie the log to what is seen, each the contract of a function.
ghost use Rattle.drive.specs.TiesLaws.{NewFits, RisingFits, AskedFits, ReadFits, WriteFits, TrimFits, TakenFits, TurnedFits, ToldFits, FlushedFits, LastingFits, CutFits, OpenedFits, SealFits, OtherFits, CopyFits, MoveFits, CopyAndMoveFits, OtherTailsFit, LastsLess, TakenLasts, AppendLasts, CutDuringFits, CutNeedsSeal, SameSize, SameNoughts};

// An empty log fits what was never used.
pub fn new_fits() -> u8
    ensures { NewFits }
{
    0
}

// It begins to come up.
pub fn rising_fits() -> u8
    ensures { RisingFits }
{
    0
}

// A command is asked.
pub fn asked_fits() -> u8
    ensures { AskedFits }
{
    0
}

// A sector of a read is taken.
pub fn read_fits() -> u8
    ensures { ReadFits }
{
    0
}

// A sector of a write is taken: its record is appended.
pub fn write_fits() -> u8
    ensures { WriteFits }
{
    0
}

// A sector of a trim is taken: a record of noughts is appended.
pub fn trim_fits() -> u8
    ensures { TrimFits }
{
    0
}

// A sector of any command is taken.
pub fn taken_fits() -> u8
    ensures { TakenFits }
{
    0
}

// A turn.
pub fn turned_fits() -> u8
    ensures { TurnedFits }
{
    0
}

// A command is told that is no flush.
pub fn told_fits() -> u8
    ensures { ToldFits }
{
    0
}

// A flush is told straight behind a seal.
pub fn flushed_fits() -> u8
    ensures { FlushedFits }
{
    0
}

// A flush is told when all that it has to make lasting lasts.
pub fn lasting_fits() -> u8
    ensures { LastingFits }
{
    0
}

// A cut: whatever it leaves are contents between low and count, and they fit once a seal is at the end.
pub fn cut_fits() -> u8
    ensures { CutFits }
{
    0
}

// The same while a record is being appended.
pub fn cut_during_fits() -> u8
    ensures { CutDuringFits }
{
    0
}

// Without the seal they need not fit: another cut may take one more record.
pub fn cut_needs_seal() -> u8
    ensures { CutNeedsSeal }
{
    0
}

// Whatever a coming-up settles on fits what it then holds.
pub fn opened_fits() -> u8
    ensures { OpenedFits }
{
    0
}

// A seal: all that is there lasts from then on.
pub fn seal_fits() -> u8
    ensures { SealFits }
{
    0
}

// A record that is no data record.
pub fn other_fits() -> u8
    ensures { OtherFits }
{
    0
}

// A copy of the newest record of a sector.
pub fn copy_fits() -> u8
    ensures { CopyFits }
{
    0
}

// The tail moves past a record that isn't the newest of its sector.
pub fn move_fits() -> u8
    ensures { MoveFits }
{
    0
}

// The newest record of a sector, at the tail, is copied, and the tail moves past it.
pub fn copy_and_move_fits() -> u8
    ensures { CopyAndMoveFits }
{
    0
}

// Records before a seal at the end may carry other tails.
pub fn other_tails_fit() -> u8
    ensures { OtherTailsFit }
{
    0
}

// What lasts from one content on lasts from an earlier one on.
pub fn lasts_less() -> u8
    ensures { LastsLess }
{
    0
}

// What lasts goes on to last while sectors are taken.
pub fn taken_lasts() -> u8
    ensures { TakenLasts }
{
    0
}

// And while records are appended that change no content.
pub fn append_lasts() -> u8
    ensures { AppendLasts }
{
    0
}

// The laws of the log speak of the drive's sectors.
pub fn same_sectors() -> u8
    ensures size { SameSize }
    ensures noughts { SameNoughts }
{
    0
}
