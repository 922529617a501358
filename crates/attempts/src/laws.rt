//! Laws of attempts, each the contract of a function without a body.
ghost use Rattle.attempts.specs.Discipline.{ReadsObey, WritesObey, MendsObey, RecoveriesObey};
ghost use Rattle.attempts.specs.Phases.{ReadsKeepPhases, WritesKeepPhases, MendsKeepPhases, RecoveriesKeepPhases};
ghost use Rattle.attempts.specs.Returns.{ReadsReturn, WritesReturn, WrittenWritesReturn, MendsReturn, RecoveriesReturn};
ghost use Rattle.attempts.specs.Numbering.{SeenCovers, DrawsAreAbove};
ghost use Rattle.attempts.specs.Finishes.{ReadsFinish, OthersFinish};
ghost use Rattle.attempts.specs.Sound.{ReadsTell, WritesKeepRowsSound, MendsRestore, RecoveriesMakeSound};
ghost use Rattle.attempts.specs.BayBounds.{ReadsObeyAt, WritesObeyAt, MendsObeyAt, RecoveriesObeyAt};
ghost use Rattle.attempts.specs.Once.{AttemptsAskOnce, ClaimsAreOfTheirKind};

/// Every read, whatever the replies and the numbers drawn, asks within the array, in all at most four times as often as
/// it has rows times bays, gives no more contents than it has units, and does not end as a repair or a recovery does.
pub fn reads_keep_bounds()
    ensures { ReadsObey }
{}

/// Every write, whatever the replies and the numbers drawn, asks within the array, in all at most four times as often as
/// it has rows times bays, gives no contents, and does not end as a repair or a recovery does.
pub fn writes_keep_bounds()
    ensures { WritesObey }
{}

/// Every rebuild of a row, whatever the replies and the numbers drawn, asks within the array, in all at most four times
/// as often as it has bays, gives no contents, and ends as mended or refused.
pub fn rebuilds_keep_bounds()
    ensures { MendsObey }
{}

/// Every recovery of a row, whatever the replies and the numbers drawn, asks within the array, in all at most four times
/// as often as it has bays, gives no contents, and ends as refused or as recovered and closed.
pub fn recoveries_keep_bounds()
    ensures { RecoveriesObey }
{}

/// Every read asks each bay at most four times for each of its rows, whatever the replies and the numbers drawn.
pub fn reads_keep_bay_bounds()
    ensures { ReadsObeyAt }
{}

/// And so does every write.
pub fn writes_keep_bay_bounds()
    ensures { WritesObeyAt }
{}

/// Every rebuild of a row asks each bay at most four times.
pub fn rebuilds_keep_bay_bounds()
    ensures { MendsObeyAt }
{}

/// And so does every recovery of a row.
pub fn recoveries_keep_bay_bounds()
    ensures { RecoveriesObeyAt }
{}

/// Every read shares its slots and then gives them back. Once its number is drawn it only gives back. It claims nothing
/// and puts nothing.
pub fn reads_keep_phases()
    ensures { ReadsKeepPhases }
{}

/// Every write of different rows claims each parity before the row's units, and confirms each row that it claimed: its
/// parity is still held where it was granted, and still missing where it was not. Under locks its number is drawn then.
/// After that it puts each slot at most once, under a note that was granted to it, the parity of a row last, and under its
/// number. Where it is refused it has put nothing.
pub fn writes_keep_phases()
    ensures { WritesKeepPhases }
{}

/// Every rebuild of a row claims the parity first, and puts at most one slot, which was granted to it, once the row is
/// confirmed and its number drawn.
pub fn rebuilds_keep_phases()
    ensures { MendsKeepPhases }
{}

/// And so does every recovery of a row.
pub fn recoveries_keep_phases()
    ensures { RecoveriesKeepPhases }
{}

/// Whatever an attempt is answered and draws, what its host has seen never falls, and covers every number that a reply
/// has shown it: the numbers of a grant, the origin of a note that it seized, the number above, and the floor.
pub fn seen_numbers_are_covered()
    ensures { SeenCovers }
{}

/// A number that a host draws is above all that it has seen, is its own, and is within the numbers.
pub fn numbers_are_above()
    ensures { DrawsAreAbove }
{}

/// Every read that is done gives a content for each of its units, and one that is refused none. A read ends in no other
/// way.
pub fn reads_finish()
    ensures { ReadsFinish }
{}

/// No write, rebuild or recovery gives contents, or ends as a read does.
pub fn others_finish()
    ensures { OthersFinish }
{}

/// Where the replies show the cells of sound rows, a read puts nothing, and tells the contents of its units once it is
/// done, those of a missing slot too.
pub fn reads_tell()
    ensures { ReadsTell }
{}

/// Where the replies to a write show the cells of sound rows, it puts the cells of rows that are sound again and have
/// its blocks in their units, and commits these blocks.
pub fn writes_keep_rows_sound()
    ensures { WritesKeepRowsSound }
{}

/// Where the replies show the cells of a sound row, its rebuild puts the cell that the slot had.
pub fn rebuilds_restore()
    ensures { MendsRestore }
{}

/// Where the replies show the data of a row, whatever its parity is, a recovery puts nothing but a parity with which the
/// row is sound, a unit that it gives up being lost.
pub fn recoveries_make_sound()
    ensures { RecoveriesMakeSound }
{}

/// Every read has given back what it held when it ends, whatever the replies and the numbers drawn.
pub fn reads_return()
    ensures { ReadsReturn }
{}

/// Every write that is refused has given back what it held.
pub fn writes_return()
    ensures { WritesReturn }
{}

/// And so has every write of the parts of a job that is done, where the replies fit the requests.
pub fn written_writes_return()
    ensures { WrittenWritesReturn }
{}

/// Every rebuild of a row has given back what it held when it ends.
pub fn rebuilds_return()
    ensures { MendsReturn }
{}

/// A recovery that is refused has given back all but what it seized and a parity to which its put failed. One that is
/// done has given back all.
pub fn recoveries_return()
    ensures { RecoveriesReturn }
{}

/// Every attempt shares or claims each slot of a row once at most, whatever the replies and the numbers drawn: a read or a
/// write of different rows, a rebuild and a recovery.
pub fn attempts_ask_once()
    ensures { AttemptsAskOnce }
{}

/// Every claim of an attempt is made in the way of its kind: a read or a write claims plainly, a rebuild to mend, and a
/// recovery to seize. Only a write's claim of a row's parity has a mask.
pub fn claims_are_of_their_kind()
    ensures { ClaimsAreOfTheirKind }
{}
