//! How the jobs of a load ended.
ghost use Rattle.std.specs.Prelude.{◌≡◌};
ghost use Rattle.load_maker.specs.Summary.{count_ends, greatest, is_gave, is_other, is_part, is_read, is_wrote, number_of};

use raid_base::{JobEnd, JobResult};

fn is_read(end: &JobEnd) -> bool
    ensures { result ≡ is_read end.now }
{
    match *end {
        JobEnd::Read { .. } => true,
        _ => false,
    }
}

fn is_wrote(end: &JobEnd) -> bool
    ensures { result ≡ is_wrote end.now }
{
    match *end {
        JobEnd::Wrote { .. } => true,
        _ => false,
    }
}

fn is_part(end: &JobEnd) -> bool
    ensures { result ≡ is_part end.now }
{
    match *end {
        JobEnd::Part { .. } => true,
        _ => false,
    }
}

fn is_gave(end: &JobEnd) -> bool
    ensures { result ≡ is_gave end.now }
{
    match *end {
        JobEnd::Gave { .. } => true,
        _ => false,
    }
}

/// In none of these ways.
fn is_other(end: &JobEnd) -> bool
    ensures { result ≡ is_other end.now }
{
    match *end {
        JobEnd::Read { .. } => false,
        JobEnd::Wrote { .. } => false,
        JobEnd::Part { .. } => false,
        JobEnd::Gave { .. } => false,
        _ => true,
    }
}

/// How many jobs ended in each way.
#[derive(Clone, Copy)]
pub(crate) struct Ends {
    pub read: u64,
    pub wrote: u64,
    pub part: u64,
    pub gave: u64,
    pub other: u64,
}

pub(crate) fn count_ends(results: &[JobResult]) -> Ends
    ensures read { result.read ≡ count_ends is_read results.now }
    ensures wrote { result.wrote ≡ count_ends is_wrote results.now }
    ensures part { result.part ≡ count_ends is_part results.now }
    ensures gave { result.gave ≡ count_ends is_gave results.now }
    ensures other { result.other ≡ count_ends is_other results.now }
{
    let read = results.iter().filter(|ended| is_read(&ended.end)).count();
    let wrote = results.iter().filter(|ended| is_wrote(&ended.end)).count();
    let part = results.iter().filter(|ended| is_part(&ended.end)).count();
    let gave = results.iter().filter(|ended| is_gave(&ended.end)).count();
    let other = results.iter().filter(|ended| is_other(&ended.end)).count();
    Ends {
        read: read as u64,
        wrote: wrote as u64,
        part: part as u64,
        gave: gave as u64,
        other: other as u64,
    }
}

/// The number of a result, and 0 where it has none.
fn number_of(end: &JobEnd) -> u64
    ensures { result ≡ number_of end.now }
{
    match *end {
        JobEnd::Read { number } => number.0,
        JobEnd::Wrote { number } => number.0,
        JobEnd::Part { number, .. } => number.0,
        JobEnd::Recovered { number, .. } => number.0,
        _ => 0,
    }
}

/// The greatest number of the results, and 0 where there is none.
pub(crate) fn greatest(results: &[JobResult]) -> u64
    ensures { result ≡ greatest results.now }
{
    results
        .iter()
        .fold(0, |most, ended| most.max(number_of(&ended.end)))
}
