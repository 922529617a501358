//! Laws of attempts, each the contract of a function without a body.
ghost use Rattle.attempt_laws.specs.Leftovers.{RefusedLeaveNothing};
ghost use Rattle.attempt_laws.specs.Lone.{LoneHostsAreDone};
ghost use Rattle.attempt_laws.specs.Calm.{CalmPlaysClose};
ghost use Rattle.attempt_laws.specs.Plans.{WritesReadLittle};
ghost use Rattle.attempt_laws.specs.Rescues.{RecoveriesClose};

/// A refused attempt leaves nothing: after every history of a script each note and each reader that stands in a slot has
/// the id of an attempt of its host that is in hand, or was done in part, or was under way when its host stopped. Only a
/// recovery that has not ended as closed may leave more: its note on a slot whose note it has seized, and on the parity
/// if its put of it answered Fault.
pub fn refused_attempts_leave_nothing()
    ensures { RefusedLeaveNothing }
{}

/// One host alone is never refused: along every history of a script whose jobs are all of one host, which only reads and
/// writes and is not to stop, and in which no bay has answered Fault, each job that has parts is done at its first attempt.
pub fn lone_hosts_are_done()
    ensures { LoneHostsAreDone }
{}

/// Calm plays close their rows: once all hosts of a script have ended that neither recovers a row nor loses a device, and in
/// which no host is to stop, and no bay has answered Fault, each row is closed, and each of its units is shown.
pub fn calm_plays_close()
    ensures { CalmPlaysClose }
{}

/// Recoveries close their rows: where a recovery has ended as recovered and closed, and no other host asked a slot of its row
/// while its last attempt made its calls, no slot of the row has a note.
pub fn recoveries_close()
    ensures { RecoveriesClose }
{}

/// Writes read little: in each row that is whole a write that is not refused is granted as many cells as its plan reads,
/// those of the parity and the units that it wants, those of the others, or none, and one that is refused no more.
pub fn writes_read_little()
    ensures { WritesReadLittle }
{}
