//! What sound rows promise.

ghost use Rattle.degraded_plans.specs.Laws.{ParityIsSound, OthersMake, WritesKeepSound, WritesKeepMade, LostIsSound, OldCellsServe, RowsAreByUnits, AnyOrderMakes, ZerosAreSound};

/// A write keeps a row sound, whichever way its new parity is made, and where a unit is missing, the row stays sound
/// with what the others make of it.
pub fn rows_stay_sound()
    ensures parity { ParityIsSound }
    ensures others { OthersMake }
    ensures writes { WritesKeepSound }
    ensures missing { WritesKeepMade }
    ensures lost { LostIsSound }
{}

/// How the cells of a row may be read: before the write or during it, unit by unit, in any order. A row of zeros is
/// sound.
pub fn cells_are_read_freely()
    ensures old { OldCellsServe }
    ensures units { RowsAreByUnits }
    ensures order { AnyOrderMakes }
    ensures start { ZerosAreSound }
{}
