//! The text of a report.
//!
//! A report says how each job ended and what reads have read, the turns, what each block of each object holds, and which
//! rows are closed. It is written to a sink line by line, with no memory but small buffers, and read back from its text.
#![tactic(auto)]

mod blocks;
mod jobs;
mod laws;
mod lines;
mod present;
mod reading;
pub mod report;
mod rows;
mod sections;
mod texts;
mod words;

pub use laws::{texts_are_unique, told_reports_read_back};
pub use reading::{Report, ReportFault, read_report};
pub use report::{Final, shown, write_report};
