//! A report as far as its lines have been read.
ghost use Rattle.std.specs.Prelude.{◌≡◌, ◌≤◌, length, ◌∷◌, [], ◌++◌, true, map, List, ℕ, IfOk, IsTrue};
ghost use Rattle.raid_base.specs.Names.{IsNameText, filled};
ghost use Rattle.raid_base.specs.declared.cells.Shown.{Shown as ShownValue};
ghost use Rattle.report_text.specs.Report.{listed};
ghost use Rattle.report_text.specs.Ranges.{job_follows, block_goes_on, block_follows};
ghost use Rattle.report_text.specs.Drafting.{Knows};
ghost use Rattle.report_text.specs.Drafts.{at, no_report, head_in, job_in, turns_in, turn_in, block_in, row_in, end_in, next, finished};
ghost use Rattle.report_text.specs.declared.reading.drafts.Section.TheVariants.{Start};

use crate::reading::ends::Ending;
use crate::reading::items::Line;
use crate::reading::said::Report;
use raid_base::{HostNo, JobResult, Name, NoMemory, Shown, Turn};
use std::alloc::Global;
use std::collections::HashSet;
use std::marker::Model;

/// What may come next. Behind the line that counts the turns, so many of their lines are `left`; blocks and rows come when
/// none is.
#[derive(Clone, Copy, Debug, PartialEq, Eq)]
pub enum Section {
    Start,
    Jobs,
    Turns { left: u32 },
    Rows,
    Done,
}

/// What has been read, and what may come next.
#[derive(Drop)]
pub struct Draft {
    section: Section,
    report: Report,
    names: HashSet<[u8; 16]>,
}

impl Model for Draft {
    ghost use Rattle.report_text.specs.Drafting.{DraftOf, Knows};

    ghost Value = { DraftOf };

    ghost view = { λ draft. record { section = draft.section; report = draft.report } };

    ghost invariant = { λ draft. Knows draft.names.keys draft.report.blocks };
}

/// Whether a job may come behind these results: hosts rise, and jobs within a host.
fn job_follows(results: &[JobResult], host: HostNo, job: u32) -> bool
    ensures { result ≡ job_follows results.now host job }
{
    match results.last() {
        Some(last) => last.host.0 < host.0 || (last.host.0 == host.0 && last.job < job),
        None => true,
    }
}

/// Whether the block is the next one of the object of the last.
fn block_goes_on(blocks: &[(Name, u32, Shown)], object: &Name, block: u32) -> bool
    ensures { result ≡ block_goes_on (map listed blocks.now) object.now block }
{
    match blocks.last() {
        Some(last) => last.0 == *object && u64::from(last.1) + 1 == u64::from(block),
        None => false,
    }
}

/// The text with zeros behind it.
fn filled(text: &[u8]) -> [u8; 16]
    requires { length text.now ≤ 16 }
    ensures { result ≡ filled text.now }
{
    let mut bytes = [0; 16];
    for i in 0..text.len() {
        bytes[i] = text[i];
    }
    bytes
}

/// The bytes of a name, with zeros behind them.
fn key_of(name: &Name) -> [u8; 16]
    ensures name { IsNameText name.now }
    ensures key { result ≡ filled name.now }
{
    filled(name.as_bytes())
}

/// Whether a block may come behind these blocks, of whose objects `names` has the keys; it is then taken in.
fn block_follows(
    names: &mut HashSet<[u8; 16]>,
    blocks: &[(Name, u32, Shown)],
    object: &Name,
    block: u32,
) -> Result<bool, NoMemory>
    requires { Knows names.old.keys (map listed blocks.now) }
    ensures follows { IfOk result (λ follows. follows ≡ block_follows (map listed blocks.now) object.now block) }
    ensures known { IfOk result (λ follows. (shown : ShownValue) → follows ≡ true → Knows names.new.keys (map listed blocks.now ++ (record { object = object.now; block = block }, shown) ∷ [])) }
{
    if block > 0 {
        return Ok(block_goes_on(blocks, object, block));
    }
    match names.insert(key_of(object)) {
        Ok(is_new) => Ok(is_new),
        Err(_) => Err(NoMemory),
    }
}

impl Draft {
    /// Nothing has been read.
    pub fn new(alloc: Global) -> Draft
        ensures { result ≡ at Start no_report }
    {
        Draft {
            section: Section::Start,
            report: Report::empty(alloc),
            names: HashSet::new(alloc),
        }
    }

    fn with_section(self, section: Section) -> Draft
        ensures { result ≡ at section self.report }
    {
        let Draft { report, names, .. } = self;
        Draft {
            section,
            report,
            names,
        }
    }

    fn take_head(self) -> Option<Draft>
        ensures { result ≡ head_in self.section self.report }
    {
        match self.section {
            Section::Start => Some(self.with_section(Section::Jobs)),
            _ => None,
        }
    }

    fn take_job(self, host: HostNo, job: u32, ending: Ending) -> Result<Option<Draft>, NoMemory>
        ensures { IfOk result (λ later. later ≡ job_in self.section self.report host job ending) }
    {
        let Draft {
            section,
            mut report,
            names,
        } = self;
        match section {
            Section::Jobs => {}
            _ => return Ok(None),
        }
        if !job_follows(report.results.as_slice(), host, job) {
            return Ok(None);
        }
        report.push_job(host, job, ending)?;
        Ok(Some(Draft {
            section,
            report,
            names,
        }))
    }

    fn take_turns(self, count: u32) -> Option<Draft>
        ensures { result ≡ turns_in self.section self.report count }
    {
        match self.section {
            Section::Jobs => Some(self.with_section(Section::Turns { left: count })),
            _ => None,
        }
    }

    fn take_turn(self, turn: Turn) -> Result<Option<Draft>, NoMemory>
        ensures { IfOk result (λ later. later ≡ turn_in self.section self.report turn) }
    {
        let Draft {
            section,
            mut report,
            names,
        } = self;
        let left = match section {
            Section::Turns { left } => left,
            _ => 0,
        };
        if left == 0 {
            return Ok(None);
        }
        report.push_turn(turn)?;
        Ok(Some(Draft {
            section: Section::Turns { left: left - 1 },
            report,
            names,
        }))
    }

    fn take_block(self, object: Name, block: u32, shown: Shown) -> Result<Option<Draft>, NoMemory>
        ensures { IfOk result (λ later. later ≡ block_in self.section self.report object block shown) }
    {
        let Draft {
            section,
            mut report,
            mut names,
        } = self;
        match section {
            Section::Turns { left: 0 } => {}
            _ => return Ok(None),
        }
        if !block_follows(&mut names, report.blocks.as_slice(), &object, block)? {
            return Ok(None);
        }
        report.push_block(object, block, shown)?;
        Ok(Some(Draft {
            section,
            report,
            names,
        }))
    }

    fn take_row(self, row: u16, closed: bool) -> Result<Option<Draft>, NoMemory>
        ensures { IfOk result (λ later. later ≡ row_in self.section self.report row closed) }
    {
        let Draft {
            section,
            mut report,
            names,
        } = self;
        match section {
            Section::Turns { left: 0 } => {}
            Section::Rows => {}
            _ => return Ok(None),
        }
        if usize::from(row) != report.rows.len() {
            return Ok(None);
        }
        report.push_row(closed)?;
        Ok(Some(Draft {
            section: Section::Rows,
            report,
            names,
        }))
    }

    fn take_end(self) -> Option<Draft>
        ensures { result ≡ end_in self.section self.report }
    {
        match self.section {
            Section::Rows => Some(self.with_section(Section::Done)),
            _ => None,
        }
    }

    /// What has been read with one more line, and none where that line may not come next.
    pub fn take(self, line: Line) -> Result<Option<Draft>, NoMemory>
        ensures { IfOk result (λ later. later ≡ next self line) }
    {
        match line {
            Line::Head => Ok(self.take_head()),
            Line::Job { host, job, ending } => self.take_job(host, job, ending),
            Line::Turns { count } => Ok(self.take_turns(count)),
            Line::Turn { turn } => self.take_turn(turn),
            Line::Block {
                object,
                block,
                shown,
            } => self.take_block(object, block, shown),
            Line::Row { row, closed } => self.take_row(row, closed),
            Line::End => Ok(self.take_end()),
        }
    }

    /// The report, where its last line has been read.
    pub fn finish(self) -> Option<Report>
        ensures { result ≡ finished self }
    {
        let Draft {
            section,
            report,
            ..
        } = self;
        match section {
            Section::Done => Some(report),
            _ => None,
        }
    }
}
