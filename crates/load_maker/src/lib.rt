//! The load: a script whose jobs are drawn from a number, and the summary of how they went.
#![tactic(auto)]

mod draws;
mod ends;
mod jobs;
mod laws;
mod load;
mod summary;
mod tally;

pub use laws::loads_are_scripts;
pub use load::make_load;
pub use summary::write_summary;
