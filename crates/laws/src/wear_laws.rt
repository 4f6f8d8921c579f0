// The laws of wear, each the contract of a function.
ghost use Rattle.laws.specs.Wear.{TakenInTurn, WornEvenly, WearBounded};

// Between two takings of a block all other good blocks are taken.
pub fn taken_in_turn() -> u8
    ensures { TakenInTurn }
{
    0
}

// Good blocks are erased equally often, but for one time and for what cuts cost.
pub fn worn_evenly() -> u8
    ensures { WornEvenly }
{
    0
}

// So how often a block was erased is bounded by the takings.
pub fn wear_bounded() -> u8
    ensures { WearBounded }
{
    0
}
