//! A report, read from its text line by line.
//!
//! Each line is read by itself, and then tried behind those before it. So the first line that makes no report with
//! the lines before it is the one that is told. Results come first with what was read, then turns, blocks and rows,
//! and after the end line nothing may follow.
//!
//! Each report that can be told has one text, and what is read is the report with this text.
ghost use Rattle.std.specs.Prelude.{◌≡◌, ◌^◌, ◌<◌, ℕ, length, IfOk, IfSome, IfNone, Err};
ghost use Rattle.report_text.specs.Beginnings.{IsFirstBad};
ghost use Rattle.report_text.specs.Steps.{StepsOn, IsStuck};
ghost use Rattle.report_text.specs.Ranges.{IsReport};
ghost use Rattle.report_text.specs.Report.{ReportOf, report_text};
ghost use Rattle.report_text.specs.declared.reading.ReportFault.TheVariants.{Bad};

mod causes;
mod contents;
mod drafts;
mod ends;
mod items;
mod said;
mod words;

use drafts::Draft;
use items::read_line;
use raid_base::NoMemory;
pub use said::Report;
use std::alloc::Global;
use text_lines::first_line;
use thiserror::Error;

/// Why no report was read.
#[derive(Clone, Copy, Debug, PartialEq, Eq, Error)]
pub enum ReportFault {
    /// The first line, counted from 1, such that the lines up to it begin no report.
    #[error("bad report at line {line}")]
    Bad { line: u32 },
    #[error("memory")]
    NoMemory,
}

/// What has been read with the first line of the text, and what stands behind that line.
fn read_next(alloc: Global, draft: Draft, text: &[u8]) -> Result<Option<(Draft, &[u8])>, NoMemory>
    ensures some { IfOk result (λ found. IfSome found (λ step. StepsOn draft text.now step.0 step.1.now)) }
    ensures none { IfOk result (λ found. IfNone found (IsStuck draft text.now)) }
{
    let Some(first) = first_line(text) else {
        return Ok(None);
    };
    let Some(line) = read_line(alloc, first.line)? else {
        return Ok(None);
    };
    match draft.take(line)? {
        Some(later) => Ok(Some((later, first.rest))),
        None => Ok(None),
    }
}

/// The report of which the bytes are the text.
pub fn read_report(alloc: Global, bytes: &[u8]) -> Result<Report, ReportFault>
    requires short { length bytes.now < 2 ^ 32 }
    ensures report { IfOk result (λ report. IsReport report × (bytes.now ≡ report_text report)) }
    ensures same { (report : ReportOf) → IsReport report → bytes.now ≡ report_text report → IfOk result (λ read. read ≡ report) }
    ensures no_fault { (report : ReportOf) → IsReport report → bytes.now ≡ report_text report → (line : ℕ) → result ≡ Err (Bad line) → ⊥ }
    ensures bad { (line : ℕ) → result ≡ Err (Bad line) → IsFirstBad line bytes.now }
{
    let mut draft = Draft::new(alloc);
    let mut left = bytes;
    let mut line = 1;
    while !left.is_empty() {
        match read_next(alloc, draft, left) {
            Ok(Some((later, rest))) => {
                draft = later;
                left = rest;
                line += 1;
            }
            Ok(None) => return Err(ReportFault::Bad { line }),
            Err(_) => return Err(ReportFault::NoMemory),
        }
    }
    match draft.finish() {
        Some(report) => Ok(report),
        None => Err(ReportFault::Bad { line }),
    }
}
