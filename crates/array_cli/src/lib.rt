//! The program's parts that touch the outside: what it reads, which words it takes, and the number that it exits with.
#![tactic(auto)]

pub mod calls;
pub mod input;
pub mod laws;
pub mod thread_runs;
pub mod words;

pub use calls::{Outcome, array, load_call, sim_call};
pub use input::{InputFault, read_all};
pub use thread_runs::run_call;
pub use words::{Command, exit_number, read_command};
