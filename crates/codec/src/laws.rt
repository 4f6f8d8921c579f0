// What a page tells whatever becomes of it.
ghost use Rattle.codec.specs.Marks.{MarkLength, MarksTold};
ghost use Rattle.codec.specs.Mending.{Mends};
ghost use Rattle.codec.specs.Pages.{PageTold, TornTold, BlankTold, WrittenPage, TornPage, BlankPage};

// A mark that is torn and then read with a bit turned over is not taken for another.
pub fn marks_told()
    ensures long { MarkLength }
    ensures told { MarksTold }
{}

// A piece in which one bit turned over is mended by its parity.
pub fn mends()
    ensures { Mends }
{}

// What the bytes of a page tell that was written, torn or left blank.
pub fn pages_told()
    ensures page { PageTold }
    ensures torn { TornTold }
    ensures blank { BlankTold }
{}

// What `unseal` and `mark_of` give of a page that was written, torn or left blank.
pub fn pages_shown()
    ensures written { WrittenPage }
    ensures torn { TornPage }
    ensures blank { BlankPage }
{}
