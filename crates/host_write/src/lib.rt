//! The attempt to write the units of some rows.
#![tactic(auto)]

pub mod answered;
pub mod blocks;
pub mod claims;
pub mod confirmed;
pub mod confirms;
pub mod parity;
pub mod puts;
pub mod putting;
pub mod stages;
pub mod troubles;
pub mod write_try;

pub use write_try::WriteTry;
