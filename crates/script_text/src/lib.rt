//! Scripts and their text.
#![tactic(auto)]

mod jobs;
mod laws;
mod lines;
mod read;
mod script;
mod weights;
mod words;
mod write;

pub use laws::{
    faults_are_told_where_they_are, scripts_have_their_own_texts, texts_without_fault_are_scripts,
};
pub use read::{ScriptFault, read_script};
pub use script::{HostJobs, MAX_HOSTS, Script};
pub use weights::{quota, total};
pub use write::write_script;
