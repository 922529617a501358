//! Hosts that run jobs: attempts one after another, retries, and what is reported.
#![tactic(auto)]

pub mod attempt;
pub mod duty;
pub mod host;
pub mod lookup;
mod reads;
pub mod room;

pub use host::Host;
