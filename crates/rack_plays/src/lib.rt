//! Tests of a rack: hosts that ask the same bays at once, by threads.
#![tactic(auto)]

#[cfg(test)]
mod racks;
