//! What each job of a host has read, out of the contents of all its reads.
ghost use Rattle.std.specs.Prelude.{◌≡◌, take, drop};
ghost use Rattle.histories.specs.Plain.{task_count};
ghost use Rattle.histories.specs.Endings.{contents_due};
ghost use Rattle.host_engine.specs.Reads.{count_due, contents_among};

use raid_base::{Content, Job, JobEnd, JobResult, Task};

/// How many blocks a task reads or writes.
fn task_count(task: &Task) -> u8
    ensures { result ≡ task_count task.now }
{
    match *task {
        Task::Read { count, .. } => count,
        Task::Write { count, .. } => count,
        Task::Recover { .. } => 0,
        Task::Lose { .. } => 0,
        Task::Fit { .. } => 0,
        Task::Rebuild { .. } => 0,
    }
}

/// How many contents a job has that has ended so, of so many blocks.
fn contents_due(end: &JobEnd, blocks: u8) -> u8
    ensures { result ≡ contents_due end.now blocks }
{
    match *end {
        JobEnd::Read { .. } => blocks,
        _ => 0,
    }
}

/// How many contents the job of this result has.
fn count_due(jobs: &[Job], ended: &JobResult) -> u8
    ensures { result ≡ count_due jobs.now ended.now }
{
    match jobs.get(ended.job as usize) {
        Some(job) => contents_due(&ended.end, task_count(&job.task)),
        None => 0,
    }
}

/// The first contents, so many or as many as there are, and the others.
fn split_contents(contents: &[Content], count: u8) -> (&[Content], &[Content])
    ensures first { result.0.now ≡ take count contents.now }
    ensures others { result.1.now ≡ drop count contents.now }
{
    let count = usize::from(count).min(contents.len());
    contents.split_at(count)
}

/// The contents of one job, out of those of all results, which stand one after another.
pub fn contents_of<'a>(
    jobs: &[Job],
    results: &[JobResult],
    contents: &'a [Content],
    job: u32,
) -> &'a [Content]
    ensures { result.now ≡ contents_among jobs.now results.now contents.now job }
{
    let mut left = contents;
    for ended in results {
        let (read, later) = split_contents(left, count_due(jobs, ended));
        if ended.job == job {
            return read;
        }
        left = later;
    }
    &[]
}
