//! Hosts on threads: each plays its jobs to their end, on a thread of its own where one can be had.
//!
//! All ask the bays of one rack. When a host has ended, what its pass has asked is what its transcript has, call by call, and
//! that is a run of the host by the script.
#![tactic(auto)]

pub mod playing;
#[cfg(test)]
mod tests;
pub mod workers;

pub use playing::play_hosts;
pub use workers::{Worker, run_hosts};
