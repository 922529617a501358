//! Plays over bays and hosts.
#![tactic(auto)]

pub mod closing;
pub mod gathering;
pub mod making;
pub mod parting;
mod playing;
pub mod results;
pub mod rows;
pub mod world;

pub use closing::Closed;
pub use gathering::Gathered;
pub use making::WorldFault;
pub use parting::Parts;
pub use results::{collect_contents, collect_results};
pub use world::World;
