//! One bay: the rules of its slots over the blocks of a device, and a journal of all that it was asked.
//!
//! A bay outlives its device. What it replies and what it is afterwards are the slot rule's, by which the store fails
//! exactly where the reply is `Fault`, so its journal can be replayed by the rule from the start.
#![tactic(auto)]

pub mod bay;
mod serve;

pub use bay::{Bay, BayFault};
