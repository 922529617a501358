//! Tests of the attempts to read, write, rebuild and recover rows, over replies handed in.
#![tactic(auto)]

#[cfg(test)]
mod parts;
#[cfg(test)]
mod reads;
#[cfg(test)]
mod rebuilds;
#[cfg(test)]
mod recoveries;
#[cfg(test)]
mod recovery_steps;
#[cfg(test)]
mod rows;
#[cfg(test)]
mod write_plans;
#[cfg(test)]
mod write_puts;
#[cfg(test)]
mod write_refusals;
#[cfg(test)]
mod write_steps;
#[cfg(test)]
mod write_stops;
