//! Laws of contents over histories, up to the headline: parity is kept, reads tell what is below them, and results are serial.
#![tactic(auto)]

pub mod laws;
