//! The attempt to recover one row.
//!
//! Every slot of the row is seized, the parity first, and the parity's slot is confirmed. Then the recovery draws its
//! number. It puts the sum of the data as the parity, unless the parity or a unit is missing. Where a unit is missing and
//! the row is torn, so that nothing tells the unit's cell any more, it puts the sum of the others, and names the unit
//! lost. At the end it gives its notes back. A recovery that is refused keeps what it seized.
#![tactic(auto)]

pub mod recover_try;
pub mod slots;
pub mod stages;
pub mod verdict;

pub use recover_try::RecoverTry;
