//! Where a write stands.

use attempts::queue::Queue;
use raid_base::{Cause, Number};

/// Where a write stands.
#[derive(Clone, Copy, Debug)]
pub enum WriteStage {
    /// It claims the parity of the row in hand.
    ClaimParity,
    /// It claims the row's wanted units, and this ends the row.
    ClaimWanted,
    /// It claims the wanted units with their cells.
    ClaimSmall,
    /// It shares the other units, until one is missing.
    ShareUntil,
    /// It shares the other units, since a wanted one is missing.
    ShareAfter,
    /// It confirms the parities, row by row.
    Confirm,
    /// It is to draw its number.
    Draw,
    /// It puts the wanted units of a row.
    PutData { number: Number, row: usize },
    /// It puts the parity of a row.
    PutParity { number: Number, row: usize },
    /// All is put: it gives its readers back.
    Finish { number: Number },
    /// It is refused, and gives back what it holds.
    Release { cause: Cause },
}

/// The stage that comes next, and its errands.
#[derive(Debug, Drop)]
pub struct Ahead {
    pub stage: WriteStage,
    pub queue: Queue,
}
