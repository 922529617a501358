//! Tests of one bay: its slot rules alone, and the rules over the blocks of a device.
#![tactic(auto)]

#[cfg(test)]
mod bays;
#[cfg(test)]
mod exchanges;
#[cfg(test)]
mod open_rows;
#[cfg(test)]
mod slots;
