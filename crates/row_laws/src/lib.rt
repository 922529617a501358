//! Laws of rows over histories: who holds notes and owns rows, that puts are covered and numbers rise, and which blocks are lost.
#![tactic(auto)]

pub mod laws;
