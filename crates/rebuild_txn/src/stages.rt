//! Where a rebuild stands.

use raid_base::Ended;

/// Where a rebuild stands.
#[derive(Clone, Copy, Debug)]
pub enum MendStage {
    /// It claims the slots of the row.
    Claiming,
    /// It confirms its note on the parity.
    Confirming,
    /// It puts the cell of the target.
    Putting,
    /// It gives back what it holds, and then ends so.
    Releasing { why: Ended },
}
