//! The journals of devices merged by their clocks into the turns of one play.
#![tactic(auto)]

mod laws;
mod merging;
#[cfg(test)]
mod tests;

pub use laws::{
    journals_rise, merged_calls_are_tied, merged_plays_are_tied, merges_are_unique, ticks_rise,
};
pub use merging::{Turns, merge, merge_slices};
