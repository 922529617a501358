//! How much a host may ask and report, and the room for it.
ghost use Rattle.std.specs.Prelude.{◌≡◌, ◌≤◌, ◌<◌, ◌*◌, ◌^◌, [], length, sum_by, true, IfOk};
ghost use Rattle.std.specs.Vec.{vec_capacity};
ghost use Rattle.histories.specs.Bounds.{job_requests, job_contents, task_contents, task_requests, parts_requests};
ghost use Rattle.host_engine.specs.Parts.{parts_as_items};
ghost use Rattle.histories.specs.Plain.{are_sized, is_sized_task, task_parts, AreTaskParts};

use crate::lookup;
use raid_base::{Job, NoMemory, PartsFault, Task};
use script_text::Script;
use std::alloc::Global;
use virtual_objects::RowParts;

/// An empty list with room for so many.
pub fn with_room<T>(alloc: Global, room: usize) -> Result<Vec<T>, NoMemory>
    ensures items { IfOk result (λ list. list.items ≡ []) }
    ensures room { IfOk result (λ list. room ≤ vec_capacity list) }
{
    match Vec::with_capacity(alloc, room) {
        Ok(list) => Ok(list),
        Err(_) => Err(NoMemory),
    }
}

fn task_contents(task: &Task) -> u8
    ensures { result ≡ task_contents task.now }
{
    match task {
        Task::Read { count, .. } => *count,
        _ => 0,
    }
}

/// How many contents the reads among some jobs give.
pub fn contents_in(jobs: &[Job]) -> usize
    requires { length jobs.now < 2 ^ 32 }
    ensures { result ≡ sum_by job_contents jobs.now }
{
    let mut contents = 0;
    for job in jobs {
        contents += task_contents(&job.task) as usize;
    }
    contents
}

/// The rows and units of a task.
pub fn task_parts(script: &Script, task: &Task) -> Result<RowParts, PartsFault>
    requires { is_sized_task task.now ≡ true }
    ensures value { parts_as_items result ≡ task_parts script.now task.now }
    ensures sound { IfOk result (λ parts. AreTaskParts script.now.n task.now parts.items) }
{
    match task {
        Task::Read {
            object,
            first,
            count,
        } => lookup::parts_of(script, object, *first, *count),
        Task::Write {
            object,
            first,
            count,
            ..
        } => lookup::parts_of(script, object, *first, *count),
        _ => Err(PartsFault::NoObject),
    }
}

fn parts_requests(devices: u8, parts: &Result<RowParts, PartsFault>) -> usize
    ensures value { result ≡ parts_requests devices (parts_as_items parts.now) }
    ensures few { result ≤ 8160 }
{
    match parts {
        Ok(parts) => 4 * devices as usize * parts.len(),
        Err(_) => 0,
    }
}

/// At most so many requests are made for a rebuild: each row has its own tries.
fn rebuild_requests(rows: u16, tries: u8, devices: u8) -> usize
    requires { devices ≤ 16 }
    ensures value { result ≡ rows * (tries * (4 * devices)) }
    ensures few { result ≤ 1069531200 }
{
    rows as usize * (tries as usize * (4 * devices as usize))
}

/// At most so many requests are made in an attempt of a task.
fn task_requests(script: &Script, task: &Task) -> usize
    requires { is_sized_task task.now ≡ true }
    ensures value { result ≡ task_requests script.now task.now }
    ensures few { result ≤ 8160 }
{
    match task {
        Task::Read { .. } => parts_requests(script.n, &task_parts(script, task)),
        Task::Write { .. } => parts_requests(script.n, &task_parts(script, task)),
        Task::Recover { .. } => 4 * script.n as usize,
        Task::Lose { .. } => 1,
        Task::Fit { .. } => 1,
        Task::Rebuild { .. } => 4 * script.n as usize,
    }
}

/// At most so many requests are made for a job.
fn job_requests(script: &Script, job: &Job) -> usize
    requires { is_sized_task job.now.task ≡ true }
    ensures value { result ≡ job_requests script.now job.now }
    ensures few { result ≤ 1069531200 }
{
    match &job.task {
        Task::Rebuild { .. } => {
            rebuild_requests(script.rows, script.tries, lookup::devices(script))
        }
        Task::Lose { .. } => 1,
        Task::Fit { .. } => 1,
        task => script.tries as usize * task_requests(script, task),
    }
}

/// At most so many requests are made for some jobs.
pub fn requests_in(script: &Script, jobs: &[Job]) -> usize
    requires few { length jobs.now < 2 ^ 32 }
    requires sized { are_sized jobs.now ≡ true }
    ensures { result ≡ sum_by (job_requests script.now) jobs.now }
{
    let mut requests = 0;
    for job in jobs {
        requests += job_requests(script, job);
    }
    requests
}
