// The laws of coming up, each the contract of a function.
ghost use Rattle.laws.specs.Recovery.{FailedBelow, OneCutMore, Recovers};

// What is believed is whole and holds what was told last, while fewer comings-up in a row are cut than there are good slots.
pub fn recovers() -> u8
    ensures { Recovers }
{
    0
}

// A failed block never has the highest key, even where its key can't be read.
pub fn failed_below() -> u8
    ensures { FailedBelow }
{
    0
}

// With one cut more nothing may be left to believe.
pub fn one_cut_more() -> u8
    ensures { OneCutMore }
{
    0
}
