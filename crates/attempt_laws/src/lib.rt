//! Laws of attempts: a refused attempt leaves nothing, a host alone is never refused, calm plays and recoveries close their
//! rows, and writes read as few cells as their plans say.
#![tactic(auto)]

pub mod laws;
