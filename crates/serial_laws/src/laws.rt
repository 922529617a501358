//! Laws of contents and of serial histories, each the contract of a function without a body.
ghost use Rattle.serial_laws.specs.Contents.{ContentsAreCovered, RowsHoldContents, ContentsAreShown};
ghost use Rattle.serial_laws.specs.Laws.{CellsAreCommitted, ParityIsCovered, ParityIsKept, PlaysAreSerial};
ghost use Rattle.serial_laws.specs.Rising.{ContentsRise};
ghost use Rattle.serial_laws.specs.Seen.{ContentsAreLate, ParitiesCount, ReadsSeeBelow, ReadsTellBelow};
ghost use Rattle.serial_laws.specs.Told.{HostsHaveResults, NumbersAreApart, ResultsTell};

/// Contents are covered: after every history of a script, where a unit's content is not the one that stood when the parity of its
/// row was put last, the parity has no cell, or a note that has the unit and came from a write that has put it.
pub fn contents_are_covered()
    ensures { ContentsAreCovered }
{}

/// Rows hold their contents: after every history of a script each slot that has a cell has the one that is due. A unit has that of
/// the content that it took last, with its mark, and the parity that of the contents that stood when it was put last.
pub fn rows_hold_contents()
    ensures { RowsHoldContents }
{}

/// Each unit that has a cell has the content that it took last.
pub fn cells_are_committed()
    ensures { CellsAreCommitted }
{}

/// What is shown of a unit, also of one that the others of its row make, is the content that it took last.
pub fn contents_are_shown()
    ensures { ContentsAreShown }
{}

/// A parity that has no note is sound with its row, a missing unit being what the others make of it.
pub fn parity_is_covered()
    ensures { ParityIsCovered }
{}

/// The parity is kept: after every call of every history of a script each closed row without a missing slot is sound.
pub fn parity_is_kept()
    ensures { ParityIsKept }
{}

/// Contents rise: along every history of a script each content that a unit takes has a number above those that it took
/// before, so that the last one has the greatest.
pub fn contents_rise()
    ensures { ContentsRise }
{}

/// Contents come late: along every history of a script each content that a unit takes has a number above those of all earlier reads
/// of the unit's slot and of the parity of its row.
pub fn contents_are_late()
    ensures { ContentsAreLate }
{}

/// What parities count: after every history of a script what a unit has taken since the parity of its row was put last has no number
/// below the origin of the parity's note, and there is nothing such where the parity has none. What it had taken before has numbers below
/// each that is above all writes of the parity.
pub fn parities_count()
    ensures { ParitiesCount }
{}

/// Reads see what is below them: in every history of a script each read of a slot finds the cell that the contents with numbers below
/// its own give, and they still give it after all later calls.
pub fn reads_see_below()
    ensures { ReadsSeeBelow }
{}

/// A read that is done tells of each of its units the content with the greatest number below its own.
pub fn reads_tell_below()
    ensures { ReadsTellBelow }
{}

/// Once all hosts have ended, the results of each are those of its jobs in their order, up to the last or to one that may quit, and
/// their numbers rise.
pub fn hosts_have_results()
    ensures { HostsHaveResults }
{}

/// No two results of a play have one number.
pub fn numbers_are_apart()
    ensures { NumbersAreApart }
{}

/// Results tell what was committed: the units that a result with a number names have taken this with that number, and no unit has taken
/// anything else with it. Once all hosts have ended each content that a unit has taken has the number of a result.
pub fn results_tell()
    ensures { ResultsTell }
{}

/// Every play is serial: once all hosts have ended, the results of every history of a script are those of a serial array that runs them
/// in the order of their numbers, and each block that is shown is that of the array at the end.
pub fn plays_are_serial()
    ensures { PlaysAreSerial }
{}
