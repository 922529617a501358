//! What is gathered of a world at its end, in room that is taken before its first turn.
ghost use Rattle.std.specs.Prelude.{◌≡◌, ◌<◌, ◌^◌, IfOk, length, sum_by};
ghost use Rattle.raid_base.specs.declared.numbers.HostNo.{HostNo};
ghost use Rattle.script_text.specs.Script.{host_numbers, jobs_of};
ghost use Rattle.script_text.specs.Ranges.{IsScript};
ghost use Rattle.histories.specs.Bounds.{host_contents};
ghost use Rattle.schedule_play.specs.Gathering.{IsBlank, job_count};

use host_engine::lookup;
use host_engine::room::{contents_in, with_room};
use raid_base::{Cell, Content, Entry, JobResult, NoMemory};
use script_text::Script;
use std::alloc::Global;

/// The results of all jobs, the contents of the reads one after another, the cells of all rows, which rows are open, and
/// the journals of closed bays.
#[derive(Drop)]
pub struct Gathered {
    pub results: Vec<JobResult>,
    pub contents: Vec<Content>,
    pub cells: Vec<Option<Cell>>,
    pub opened: Vec<bool>,
    pub journals: Vec<Vec<Entry>>,
}

/// How many jobs all hosts have.
fn job_count(script: &Script) -> usize
    requires script { IsScript script.now }
    requires jobs { (host : HostNo) → length (jobs_of script.now host) < 2 ^ 32 }
    ensures { result ≡ sum_by (job_count script.now) (host_numbers script.now) }
{
    let mut count = 0;
    for jobs in script.hosts() {
        count += jobs.jobs.len();
    }
    count
}

/// How many contents all reads have.
fn content_count(script: &Script) -> usize
    requires script { IsScript script.now }
    requires jobs { (host : HostNo) → length (jobs_of script.now host) < 2 ^ 32 }
    ensures { result ≡ sum_by (host_contents script.now) (host_numbers script.now) }
{
    let mut count = 0;
    for jobs in script.hosts() {
        count += contents_in(jobs.jobs.as_slice());
    }
    count
}

impl Gathered {
    /// Nothing, with room for all that a play of the script may leave.
    pub(crate) fn make(alloc: Global, script: &Script) -> Result<Gathered, NoMemory>
        requires script { IsScript script.now }
        requires jobs { (host : HostNo) → length (jobs_of script.now host) < 2 ^ 32 }
        ensures { IfOk result (IsBlank script.now) }
    {
        let devices = lookup::devices(script) as usize;
        let rows = row_count(script) as usize;
        Ok(Gathered {
            results: with_room(alloc, job_count(script))?,
            contents: with_room(alloc, content_count(script))?,
            cells: with_room(alloc, rows * devices)?,
            opened: with_room(alloc, rows)?,
            journals: with_room(alloc, devices)?,
        })
    }
}

/// How many rows a script's array has.
pub(crate) fn row_count(script: &Script) -> u16
    ensures { result ≡ script.now.rows }
{
    script.rows
}
