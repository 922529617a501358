//! Tests of hosts over replies handed in: what they ask, and how their jobs end.
#![tactic(auto)]

#[cfg(test)]
mod hosts;
#[cfg(test)]
mod reads;
#[cfg(test)]
mod repairs;
#[cfg(test)]
mod smallest;
#[cfg(test)]
mod steps;
#[cfg(test)]
mod stops;
