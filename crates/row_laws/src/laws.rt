//! Laws of rows, each the contract of a function without a body.
ghost use Rattle.row_laws.specs.Holding.{BlankNotesMend, UnitsAreOfWrites, AnsweredAreFree, HoldersKeepNotes, PuttersOwnRows, PutsAreOfOwners};
ghost use Rattle.row_laws.specs.Commits.{CommitsAreOfOwners};
ghost use Rattle.row_laws.specs.Laws.{PutsAreCovered, LostBlocksAreTorn, NumbersRise, PutsAreAboveWhatWasShown};
ghost use Rattle.row_laws.specs.Effects.{AttemptsTellCommits};

/// Where a slot has no cell its note is a rebuild's: after every history of a script a note on such a slot is its own origin,
/// and came by a claim of its host to mend the slot.
pub fn blank_notes_mend()
    ensures { BlankNotesMend }
{}

/// Units in a note are of a write: after every history of a script a note that has units stands at its row's parity, and
/// came from a claim of the parity with these units and the note's origin as its id, whose write has not put the parity.
pub fn units_are_of_writes()
    ensures { UnitsAreOfWrites }
{}

/// A recovery finds no holder: after every history of a script, while a recovery in hand holds the parity of its row, no write
/// or rebuild in hand that has confirmed the row holds a unit of which a claim of the recovery was granted or found missing.
pub fn answered_are_free()
    ensures { AnsweredAreFree }
{}

/// While an attempt that gives nothing back holds the parity of a row, each unit that was granted to its claim, is there, was
/// not lost since, and was not put by it, has a note: of the origin that the claim gave it, and of this attempt or of a
/// recovery that has seized it and that has not confirmed the row.
pub fn holders_keep_notes()
    ensures { HoldersKeepNotes }
{}

/// A write or rebuild in hand that has confirmed a row, and may still put a unit of it whose note it has, owns the row: its
/// parity has no cell, or a note that came from that attempt.
pub fn putters_own_rows()
    ensures { PuttersOwnRows }
{}

/// A unit is put only by an attempt that owns its row: after every history of a script, where the next call is a put of a unit
/// that is done, the row's parity has no cell before it, or a note that came from the attempt that puts.
pub fn puts_are_of_owners()
    ensures { PutsAreOfOwners }
{}

/// A unit takes a content only by a put of itself that was done, with that content, of an attempt that owned the row, or by a
/// put of its row's parity that was done.
pub fn commits_are_of_owners()
    ensures { CommitsAreOfOwners }
{}

/// Puts are covered: where a write has put a unit of a row and the row's parity was not put since, the parity has no cell, or a
/// note that came from that write and has the unit. A write is what has claimed the parity with its id, whatever it was answered.
pub fn puts_are_covered()
    ensures { PutsAreCovered }
{}

/// Lost blocks are named rightly: after every history of a script a recovery that has ended names a unit lost exactly where its
/// calls found that unit missing, and the row torn; and then the note that tore it came from a write that has not put the parity,
/// and that was to put this unit or has put another one of the row.
pub fn lost_blocks_are_torn()
    ensures { LostBlocksAreTorn }
{}

/// Numbers rise: along every history of a script the number of a put that was done is above those of all earlier writes and reads
/// of its slot, and the number of a read is above those of all earlier writes.
pub fn numbers_rise()
    ensures { NumbersRise }
{}

/// The number of a put that was done is above every number that its slot has shown before: both of each grant, those that made
/// requests late, and the floors while it was missing, through all losses of its device.
pub fn puts_are_above_what_was_shown()
    ensures { PutsAreAboveWhatWasShown }
{}

/// An attempt tells by its end what it has committed: a write just the blocks that it tells as made, all where it is done and none
/// where it is refused, a recovery the unit that it names lost, and a read or a rebuild nothing.
pub fn attempts_tell_commits()
    ensures { AttemptsTellCommits }
{}
