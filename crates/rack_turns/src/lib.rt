//! Bays that threads share. A bay is used by one pass at a time, which has its turn.
//!
//! Each bay stands in a slot of a table, and a word for each bay tells whose turn it is. A host asks through a pass, which
//! keeps what it asked. A bay's journal has for each host just what that host's pass asked.
#![tactic(auto)]

pub mod pass;
pub mod rack;
pub mod rule;
mod seats;
pub mod turn;
pub mod view;

pub use pass::Pass;
pub use rack::{Rack, RackFault, Try};
pub use turn::{Clock, Gate, NoGate};
