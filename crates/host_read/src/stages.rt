//! Where a read stands.

use attempts::queue::Queue;
use raid_base::{Cause, Number, RowNo};

/// Where a read stands.
#[derive(Clone, Copy, Debug)]
pub enum ReadStage {
    /// It shares the wanted units of the row in hand.
    Wanted,
    /// One of them was missing: it shares the row's parity.
    Parity,
    /// And then the row's other units.
    Others,
    /// It is to draw its number.
    Drawing,
    /// It gives its readers back, with the first row of which one was gone.
    Freeing { number: Number, gone: Option<RowNo> },
    /// It is refused, and gives back what it holds.
    Releasing { cause: Cause },
}

/// The stage that comes next, and its errands.
#[derive(Debug, Drop)]
pub struct Ahead {
    pub stage: ReadStage,
    pub queue: Queue,
}
