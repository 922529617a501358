//! The report of a finished array.
ghost use Rattle.std.specs.Prelude.{◌≡◌, ◌<◌, ◌-◌};
ghost use Rattle.report_text.specs.Appends.{Appends};
ghost use Rattle.report_text.specs.Report.{report_text};
ghost use Rattle.report_text.specs.Rows.{shown_in};
ghost use Rattle.report_text.specs.Views.{report_in};

use crate::blocks::put_blocks;
use crate::jobs::put_jobs;
use crate::rows::shown_in;
use crate::sections::{put_rows, put_turns};
use crate::words::put_line;
use raid_base::{Cell, Content, Failed, JobResult, RowNo, Shown, Sink, Turn};
use script_text::Script;

/// What a finished world or run leaves.
///
/// The contents of the reads stand one after another, in the order of results. The cell of row r on bay b stands at place
/// `r * n + b`, and is none where that slot is missing. `opened` tells of each row whether it is open.
#[derive(Clone, Copy)]
pub struct Final<'a> {
    pub script: &'a Script,
    pub results: &'a [JobResult],
    pub contents: &'a [Content],
    pub turns: &'a [Turn],
    pub cells: &'a [Option<Cell>],
    pub opened: &'a [bool],
}

/// What is shown of a unit of a row: the content of its slot where that is present, and else, in a closed row, what the
/// other slots make of it. It is hidden in an open row, and where another slot is missing too.
pub fn shown(view: &Final<'_>, row: RowNo, unit: u8) -> Shown
    requires { unit < view.now.script.now.n - 1 }
    ensures { result ≡ shown_in view.now.script.now.n view.now.cells.now view.now.opened.now row unit }
{
    let script = view.script;
    shown_in(script.objects.devices(), view.cells, view.opened, row, unit)
}

/// Appends the text of the report. Where that fails, the sink has failed, and a first part of the text was appended.
pub fn write_report<K: Sink>(sink: &mut K, view: &Final<'_>) -> Result<(), Failed>
    ensures { let report = report_in view.now.script.now view.now.results.now view.now.contents.now view.now.turns.now view.now.cells.now view.now.opened.now in Appends K.tells K.written K.faults sink.old (report_text report) result sink.new }
{
    put_line(sink, b"report", &[b"1"])?;
    put_jobs(sink, view.script, view.results, view.contents)?;
    put_turns(sink, view.turns)?;
    put_blocks(sink, view.script, view.cells, view.opened)?;
    put_rows(sink, view.opened)?;
    put_line(sink, b"end", &[])
}
