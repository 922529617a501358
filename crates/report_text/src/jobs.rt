//! The lines of all results.
ghost use Rattle.std.specs.Prelude.{◌≡◌, ◌==◌, ◌≤◌, map, find, take, drop};
ghost use Rattle.script_text.specs.Script.{HostJobs, jobs_in};
ghost use Rattle.report_text.specs.Appends.{Appends};
ghost use Rattle.report_text.specs.Report.{job_lines};
ghost use Rattle.report_text.specs.Views.{task_blocks, blocks_of_result, content_count, flag_count, contents_of, flags_of, contents_by_result};

use crate::lines::put_job;
use raid_base::{Content, Failed, HostNo, Job, JobEnd, JobResult, Sink, Task};
use script_text::{HostJobs, Script};

/// How many blocks a task reads or writes.
fn task_blocks(task: &Task) -> u8
    ensures { result ≡ task_blocks task.now }
{
    match *task {
        Task::Read { count, .. } => count,
        Task::Write { count, .. } => count,
        Task::Recover { .. } => 0,
        Task::Lose { .. } => 0,
        Task::Fit { .. } => 0,
        Task::Rebuild { .. } => 0,
    }
}

/// The jobs of a host, and none where the host isn't there.
fn jobs_of(hosts: &[HostJobs], host: HostNo) -> &[Job]
    ensures { result.now ≡ jobs_in (find (λ (h : HostJobs). h.host.0 == host.0) hosts.now) }
{
    for jobs in hosts {
        if jobs.host.0 == host.0 {
            return jobs.jobs.as_slice();
        }
    }
    &[]
}

/// How many blocks the job of a result reads or writes.
fn blocks_of_result(script: &Script, ended: &JobResult) -> u8
    ensures { result ≡ blocks_of_result script.now ended.now }
{
    let jobs = jobs_of(script.hosts.as_slice(), ended.host);
    match jobs.get(ended.job as usize) {
        Some(job) => task_blocks(&job.task),
        None => 0,
    }
}

/// How many contents a result has, of a job of so many blocks.
fn content_count(end: &JobEnd, blocks: u8) -> u8
    ensures { result ≡ content_count end.now blocks }
{
    match *end {
        JobEnd::Read { .. } => blocks,
        _ => 0,
    }
}

/// How many flags a result has, of a job of so many blocks.
fn flag_count(end: &JobEnd, blocks: u8) -> u8
    ensures { result ≡ flag_count end.now blocks }
{
    match *end {
        JobEnd::Part { .. } => blocks,
        _ => 0,
    }
}

/// How many contents a result has.
fn contents_of(script: &Script, ended: &JobResult) -> u8
    ensures { result ≡ contents_of script.now ended.now }
{
    content_count(&ended.end, blocks_of_result(script, ended))
}

/// How many flags a result has.
fn flags_of(script: &Script, ended: &JobResult) -> u8
    ensures { result ≡ flags_of script.now ended.now }
{
    flag_count(&ended.end, blocks_of_result(script, ended))
}

/// The first contents, so many or as many as there are, and the others.
fn split_contents(contents: &[Content], count: u8) -> (&[Content], &[Content])
    ensures first { result.0.now ≡ take count contents.now }
    ensures others { result.1.now ≡ drop count contents.now }
{
    let count = usize::from(count).min(contents.len());
    contents.split_at(count)
}

/// Appends the line of each result. The contents of the reads stand one after another.
pub fn put_jobs<K: Sink>(
    sink: &mut K,
    script: &Script,
    results: &[JobResult],
    contents: &[Content],
) -> Result<(), Failed>
    ensures { Appends K.tells K.written K.faults sink.old (job_lines results.now (contents_by_result script.now results.now contents.now) (map (flags_of script.now) results.now)) result sink.new }
{
    let mut left = contents;
    for ended in results {
        let (read, later) = split_contents(left, contents_of(script, ended));
        put_job(sink, ended, read, flags_of(script, ended))?;
        left = later;
    }
    Ok(())
}
