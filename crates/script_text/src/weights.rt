//! How many requests the jobs of a script may need: what journals and transcripts are reserved by.
ghost use Rattle.std.specs.Prelude.{◌≡◌, ◌+◌, ◌*◌, ◌^◌, ◌<◌, ◌≤◌, All, length};
ghost use Rattle.virtual_objects.specs.Objects.{parts};
ghost use Rattle.script_text.specs.Ranges.{HasAccess, IsScript, IsTask, all_jobs};
ghost use Rattle.script_text.specs.Weights.{quota, total, touched, weight, weights};

use crate::script::Script;
use raid_base::{HostNo, Job, Name, Task};
use virtual_objects::Objects;

/// The rows that a read or write touches, and 0 where it is refused.
fn touched(objects: &Objects, object: &Name, first: u32, count: u8) -> u64
    requires count_least { 1 ≤ count }
    requires count_most { count ≤ 120 }
    requires first_below { first < 2 ^ 20 }
    ensures value { result ≡ touched (parts objects.now.n objects.now.objects object.now first count) }
    ensures few { result ≤ 8 }
{
    match objects.parts(object, first, count) {
        Ok(parts) => parts.len() as u64,
        Err(_) => 0,
    }
}

/// At most so many requests go to any one bay for a job.
fn weight(script: &Script, task: &Task) -> u64
    requires script { IsScript script.now }
    requires access { HasAccess task.now }
    ensures value { result ≡ weight script.now task.now }
    ensures most { result ≤ 2 ^ 20 }
{
    let tries = u64::from(script.tries);
    match task {
        Task::Read {
            object,
            first,
            count,
        } => 4 * tries * touched(&script.objects, object, *first, *count),
        Task::Write {
            object,
            first,
            count,
            ..
        } => 4 * tries * touched(&script.objects, object, *first, *count),
        Task::Recover { .. } => 4 * tries,
        Task::Rebuild { .. } => 4 * tries * u64::from(script.rows),
        Task::Lose { .. } | Task::Fit { .. } => 1,
    }
}

fn weights_of(script: &Script, jobs: &[Job]) -> u64
    requires script { IsScript script.now }
    requires access { All (λ job. HasAccess job.task) jobs.now }
    requires few { length jobs.now < 2 ^ 32 }
    ensures value { result ≡ weights script.now jobs.now }
    ensures most { result ≤ 2 ^ 20 * length jobs.now }
{
    let mut sum = 0;
    for job in jobs {
        sum += weight(script, &job.task);
    }
    sum
}

/// At most so many requests go to any one bay for the jobs of a host, and 0 where the script has no such host.
pub fn quota(script: &Script, host: HostNo) -> u64
    requires script { IsScript script.now }
    requires few { length (all_jobs script.now) < 2 ^ 32 }
    ensures { result ≡ quota script.now host }
{
    let hosts = script.hosts();
    for entry in hosts {
        if entry.host.0 == host.0 {
            return weights_of(script, entry.jobs.as_slice());
        }
    }
    0
}

/// At most so many requests go to all bays for the jobs of all hosts.
pub fn total(script: &Script) -> u64
    requires script { IsScript script.now }
    requires few { length (all_jobs script.now) < 2 ^ 32 }
    ensures { result ≡ total script.now }
{
    let hosts = script.hosts();
    let mut sum = 0;
    for entry in hosts {
        sum += weights_of(script, entry.jobs.as_slice());
    }
    u64::from(script.n) * sum
}
