//! Tests of the texts of scripts, reports and loads, and of the serial array.
#![tactic(auto)]

#[cfg(test)]
mod job_lines;
#[cfg(test)]
mod loads;
#[cfg(test)]
mod numbers;
#[cfg(test)]
mod report_sections;
#[cfg(test)]
mod reports;
#[cfg(test)]
mod scripts;
#[cfg(test)]
mod serial_blocks;
#[cfg(test)]
mod summaries;
