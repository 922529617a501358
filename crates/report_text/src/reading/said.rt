//! What a report says.
ghost use Rattle.std.specs.Prelude.{◌≡◌, ◌++◌, ◌∷◌, [], IfOk};
ghost use Rattle.report_text.specs.Drafts.{no_report, with_job, with_turn, with_block, with_row};

use crate::reading::ends::Ending;
use raid_base::{Content, HostNo, JobResult, Name, NoMemory, Shown, Turn};
use std::alloc::Global;
use std::marker::Model;

/// What a report says: how each job ended, the turns, what is shown of each block, and of each row whether it is closed.
///
/// `contents` has a list for each result, which is empty where that is no read, and `flags` the number of blocks of each
/// part, and 0 for every other result. The note inside a cause is known by host and id alone: its origin is its id, its
/// mask and its moment are 0.
#[derive(Drop)]
pub struct Report {
    pub results: Vec<JobResult>,
    pub contents: Vec<Vec<Content>>,
    pub flags: Vec<u8>,
    pub turns: Vec<Turn>,
    pub blocks: Vec<(Name, u32, Shown)>,
    pub rows: Vec<bool>,
}

impl Model for Report {
    ghost use Rattle.std.specs.Prelude.{map};
    ghost use Rattle.report_text.specs.Report.{ReportOf, listed};

    ghost Value = { ReportOf };

    ghost view = { λ report. record { results = report.results.items; contents = map (λ all. all.items) report.contents.items; flags = report.flags.items; turns = report.turns.items; blocks = map listed report.blocks.items; closed = report.rows.items } };
}

fn push<T: Drop>(list: &mut Vec<T>, item: T) -> Result<(), NoMemory>
    ensures { IfOk result (λ _. list.new.items ≡ list.old.items ++ item ∷ []) }
{
    match list.push(item) {
        Ok(()) => Ok(()),
        Err(_) => Err(NoMemory),
    }
}

impl Report {
    /// A report that says nothing.
    pub fn empty(alloc: Global) -> Report
        ensures { result ≡ no_report }
    {
        Report {
            results: Vec::new(alloc),
            contents: Vec::new(alloc),
            flags: Vec::new(alloc),
            turns: Vec::new(alloc),
            blocks: Vec::new(alloc),
            rows: Vec::new(alloc),
        }
    }

    /// Adds a result.
    pub fn push_job(&mut self, host: HostNo, job: u32, ending: Ending) -> Result<(), NoMemory>
        ensures { IfOk result (λ _. self.new ≡ with_job self.old host job ending) }
    {
        let Ending {
            end,
            contents,
            flags,
        } = ending;
        push(&mut self.results, JobResult { host, job, end })?;
        push(&mut self.contents, contents)?;
        push(&mut self.flags, flags)
    }

    /// Adds a turn.
    pub fn push_turn(&mut self, turn: Turn) -> Result<(), NoMemory>
        ensures { IfOk result (λ _. self.new ≡ with_turn self.old turn) }
    {
        push(&mut self.turns, turn)
    }

    /// Adds what is shown of a block.
    pub fn push_block(&mut self, object: Name, block: u32, shown: Shown) -> Result<(), NoMemory>
        ensures { IfOk result (λ _. self.new ≡ with_block self.old object block shown) }
    {
        push(&mut self.blocks, (object, block, shown))
    }

    /// Adds whether a row is closed.
    pub fn push_row(&mut self, closed: bool) -> Result<(), NoMemory>
        ensures { IfOk result (λ _. self.new ≡ with_row self.old closed) }
    {
        push(&mut self.rows, closed)
    }
}
