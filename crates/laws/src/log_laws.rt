// The laws of the log, each the contract of a function: what its steps change, and what a cut leaves.
ghost use Rattle.laws.specs.LogLaws.{AppendChangesOne, SealChangesNone, OthersChangeNone, CopyChangesNone, MoveChangesNone, CopyAndMoveChangesNone, SealsSayNothing, TailsSayNothing, PlaceSays, CutSinceSeal, CutAfterSeal, CutLeavesSealed, ReopensKept, CutOfCopyChangesNone, KeepSuffices, KeepRises};

// An append of a data record changes its sector and no other.
pub fn append_changes_one() -> u8
    ensures { AppendChangesOne }
{
    0
}

// A seal changes none.
pub fn seal_changes_none() -> u8
    ensures { SealChangesNone }
{
    0
}

// Nor does a record of any other kind than data.
pub fn others_change_none() -> u8
    ensures { OthersChangeNone }
{
    0
}

// A copy of the newest record of a sector changes none.
pub fn copy_changes_none() -> u8
    ensures { CopyChangesNone }
{
    0
}

// Moving the tail past a record that isn't the newest of its sector changes none.
pub fn move_changes_none() -> u8
    ensures { MoveChangesNone }
{
    0
}

// Nor does moving it past one that was copied.
pub fn copy_and_move_changes_none() -> u8
    ensures { CopyAndMoveChangesNone }
{
    0
}

// Leaving out seals changes none.
pub fn seals_say_nothing() -> u8
    ensures { SealsSayNothing }
{
    0
}

// The tails that records carry say nothing of what sectors hold.
pub fn tails_say_nothing() -> u8
    ensures { TailsSayNothing }
{
    0
}

// What a sector holds stands where its place says.
pub fn place_says() -> u8
    ensures { PlaceSays }
{
    0
}

// Every content that a cut may leave is one that the sector held no earlier than the last seal.
pub fn cut_since_seal() -> u8
    ensures { CutSinceSeal }
{
    0
}

// A cut straight after a seal leaves what every sector held.
pub fn cut_after_seal() -> u8
    ensures { CutAfterSeal }
{
    0
}

// A cut at any time leaves each seal and all records before it.
pub fn cut_leaves_sealed() -> u8
    ensures { CutLeavesSealed }
{
    0
}

// What the log holds is what its records hold with the tail that the newest carries.
pub fn reopens_kept() -> u8
    ensures { ReopensKept }
{
    0
}

// A cut that loses a copy loses nothing.
pub fn cut_of_copy_changes_none() -> u8
    ensures { CutOfCopyChangesNone }
{
    0
}

// Records older than what is to be kept are of no account to whatever a cut may leave.
pub fn keep_suffices() -> u8
    ensures { KeepSuffices }
{
    0
}

// What is to be kept never grows.
pub fn keep_rises() -> u8
    ensures { KeepRises }
{
    0
}
