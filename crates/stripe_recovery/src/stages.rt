//! Where a recovery stands.

use raid_base::{Ended, Number};

/// Where a recovery stands.
#[derive(Clone, Copy, Debug)]
pub enum RecoverStage {
    /// It seizes the row's parity.
    Parity,
    /// And then the row's units.
    Units,
    /// It confirms its note on the parity.
    Confirming,
    /// It puts the parity, with the unit that it names lost.
    Putting { number: Number, lost: Option<u8> },
    /// The row is recovered, and it gives its notes back.
    Closing { number: Number, lost: Option<u8> },
    /// It gives back what it is to, and then ends so.
    Releasing { why: Ended },
}

/// What a recovery does to its row: nothing, or it puts the parity, and names a unit lost or none.
#[derive(Clone, Copy, Debug)]
pub enum Verdict {
    Leaves,
    Sums { lost: Option<u8> },
}
