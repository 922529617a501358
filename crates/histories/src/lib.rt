//! What happened, as definitions: how far each host is after a list of calls, which lists of calls are histories of a script, and
//! what a history shows. Over them stand the laws of hosts, of missing slots and of accesses.
#![tactic(auto)]

pub mod laws;
pub mod operator;

pub use operator::Gone;
