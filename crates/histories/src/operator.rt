//! What the operator remembers.

use raid_base::BayNo;

/// The device that was lost, and whether another was fitted since.
#[derive(Clone, Copy, Debug, PartialEq, Eq)]
pub struct Gone {
    pub bay: BayNo,
    pub fitted: bool,
}
