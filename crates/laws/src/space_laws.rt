// The laws of the log's length, each the contract of a function.
ghost use Rattle.laws.specs.Space.{LogFits, LogLength, RoomSuffices, SpareStaysFree};

// Garbage collection keeps the log within the larger of its two bounds.
pub fn log_fits() -> u8
    ensures { LogFits }
{
    0
}

// So its length is bounded by what is owed.
pub fn log_length() -> u8
    ensures { LogLength }
{
    0
}

// The bounds suffice for every chip of the sheet.
pub fn room_suffices() -> u8
    ensures { RoomSuffices }
{
    0
}

// So a log on it leaves the spare blocks free.
pub fn spare_stays_free() -> u8
    ensures { SpareStaysFree }
{
    0
}
