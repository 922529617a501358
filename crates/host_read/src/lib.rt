//! The attempt to read the units of some rows.
//!
//! Row by row the wanted units are shared, and where one is missing the whole row. Under locks the read then draws its
//! number and gives its readers back with it. Under stamps its id is its number, and it gives nothing back.
#![tactic(auto)]

pub mod ahead;
pub mod read_try;
pub mod stages;

pub use read_try::ReadTry;
