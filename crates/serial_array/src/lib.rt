//! The serial array: what the blocks of all objects would hold if jobs took their effect one by one.
//!
//! It has no devices, rows, parities or numbers: it is a map from the blocks of objects to their contents.
#![tactic(auto)]

mod blocks;
pub mod laws;

pub use blocks::SerialArray;
pub use raid_base::{Content, Name, NoMemory};
