//! The attempt to rebuild the slot of one row on a bay.
//!
//! Every slot of the row is claimed, the parity first, and the parity's note is confirmed. Then the rebuild draws its
//! number and puts what the other slots make of the target's cell, unless the target showed one, and gives its notes back.
#![tactic(auto)]

pub mod cells;
pub mod mend_try;
pub mod slots;
pub mod stages;

pub use mend_try::MendTry;
