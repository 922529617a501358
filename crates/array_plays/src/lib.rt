//! Tests of the calls behind the program: whole plays with their reports, inputs, words and exit numbers.
#![tactic(auto)]

#[cfg(test)]
mod blocks;
#[cfg(test)]
mod inputs;
#[cfg(test)]
mod load_runs;
#[cfg(test)]
mod losses;
#[cfg(test)]
mod playing;
#[cfg(test)]
mod reads_and_writes;
#[cfg(test)]
mod recoveries;
#[cfg(test)]
mod refusals;
#[cfg(test)]
mod serial_orders;
#[cfg(test)]
mod serial_plays;
#[cfg(test)]
mod smallest;
#[cfg(test)]
mod smallest_runs;
#[cfg(test)]
mod stops;
#[cfg(test)]
mod store_faults;
#[cfg(test)]
mod texts;
#[cfg(test)]
mod thread_gates;
#[cfg(test)]
mod thread_plays;
#[cfg(test)]
mod thread_runs;
#[cfg(test)]
mod unplayed;
#[cfg(test)]
mod whole_calls;
#[cfg(test)]
mod words;
