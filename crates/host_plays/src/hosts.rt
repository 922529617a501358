//! Hosts of three devices and two rows, over replies handed in. Row 0 has its parity on bay 2 and its units on bays 0
//! and 1; row 1 has its parity on bay 1 and its units on bays 2 and 0.
ghost use Rattle.std.specs.Prelude.{◌<◌, IfOk};
ghost use Rattle.script_text.specs.Ranges.{IsScript};
ghost use Rattle.host_engine.specs.Ready.{IsReady};

use host_engine::{Host, lookup};
use raid_base::{Answer, BayNo, Content, HostNo, JobEnd, JobResult, Reply, Request, fits};
use script_text::{Script, read_script};
use std::alloc::Global;
use std::process::Abort;
use std::test::Fail;

/// A request to a bay, and the reply.
pub type Step = (u8, Request, Reply);

const HEAD: &[u8] = b"raid 1\ndevices 3\nrows 2\nmode order\npatience 3\ntries 2\nobject a 0 1\n";

const MOMENT: u64 = 7;

pub const OPERATOR: HostNo = HostNo(0);

pub const HOST: HostNo = HostNo(1);

/// A host of this script at its first request.
pub fn make_host<'s>(alloc: Global, no: HostNo, script: &'s Script) -> Result<Host<'s>, Fail>
    requires host { no.0 < 16 }
    requires ranges { IsScript script.now }
    ensures { IfOk result IsReady }
{
    if lookup::jobs_of(script, no).len() > 100 {
        return Err("too many jobs")?;
    }
    match Host::make(alloc, no, script) {
        Ok(host) => Ok(host),
        Err(none) => Err(none)?,
    }
}

/// Takes this reply, if it fits, and says what was asked.
fn tell(host: &mut Host, reply: &Reply) -> Option<(BayNo, Request)>
    requires { IsReady host.old }
    ensures { IsReady host.new }
{
    let (bay, ask) = match host.next(MOMENT) {
        Some(sent) => sent,
        None => return None,
    };
    if fits(&ask.what, reply) {
        let answer = Answer {
            clock: ask.clock.saturating_add(1),
            reply: *reply,
        };
        host.take(MOMENT, &answer);
    }
    Some((bay, ask.what))
}

/// The script with these hosts and jobs.
fn script_of(alloc: Global, hosts: &[u8]) -> Result<Script, Fail>
    ensures { IfOk result IsScript }
{
    let mut text = Vec::new(alloc);
    text.extend_from_slice(HEAD)?;
    text.extend_from_slice(hosts)?;
    text.extend_from_slice(b"end\n")?;
    if text.len() > 1000 {
        return Err("too long")?;
    }
    match read_script(alloc, &text) {
        Ok(script) => Ok(script),
        Err(fault) => Err(fault)?,
    }
}

/// How many of these requests a host asks, one after another, where it is told these replies.
fn asked(host: &mut Host, steps: &[Step]) -> usize
    requires { IsReady host.old }
{
    for (place, (bay, request, reply)) in steps.iter().enumerate() {
        if tell(host, reply) != Some((BayNo(*bay), *request)) {
            return place;
        }
    }
    steps.len()
}

/// Whether the jobs of a host have ended so.
fn have_ended(results: &[JobResult], no: HostNo, ends: &[JobEnd]) -> bool {
    for (job, (result, end)) in results.iter().zip(ends).enumerate() {
        if result.host != no || result.job as usize != job || result.end != *end {
            return false;
        }
    }
    results.len() == ends.len()
}

/// How many of these requests the host with these jobs asks, and whether its jobs have ended so and nothing more is asked.
fn played(
    alloc: Global,
    no: HostNo,
    hosts: &[u8],
    steps: &[Step],
    ends: &[JobEnd],
) -> Result<(usize, bool), Fail>
    requires { no.0 < 16 }
{
    let script = script_of(alloc, hosts)?;
    let mut host = make_host(alloc, no, &script)?;
    let count = asked(&mut host, steps);
    let is_over = host.next(MOMENT).is_none() && host.transcript().len() == steps.len();
    Ok((count, is_over && have_ended(host.results(), no, ends)))
}

/// The host with these jobs is told these replies. Its requests and results are compared.
pub fn plays(
    rt: &impl Abort,
    alloc: Global,
    no: HostNo,
    hosts: &[u8],
    steps: &[Step],
    ends: &[JobEnd],
) -> Result<(), Fail>
    requires { no.0 < 16 }
{
    let (count, is_as_told) = played(alloc, no, hosts, steps, ends)?;
    assert_eq!(rt; count, steps.len());
    assert!(rt; is_as_told);
    Ok(())
}

/// Whether the host with these jobs has read these contents once it was told these replies.
pub fn has_read(
    alloc: Global,
    no: HostNo,
    hosts: &[u8],
    steps: &[Step],
    contents: &[Content],
) -> Result<bool, Fail>
    requires { no.0 < 16 }
{
    let script = script_of(alloc, hosts)?;
    let mut host = make_host(alloc, no, &script)?;
    let count = asked(&mut host, steps);
    Ok(count == steps.len() && host.read_contents() == contents)
}

/// Whether the host shows that each of these jobs has read these contents.
fn shows(host: &Host, cases: &[(u32, &[Content])]) -> bool {
    for (job, contents) in cases {
        if host.contents(*job) != *contents {
            return false;
        }
    }
    true
}

/// Whether each of these jobs of the host has read these contents once it was told these replies.
pub fn have_read(
    alloc: Global,
    no: HostNo,
    hosts: &[u8],
    steps: &[Step],
    cases: &[(u32, &[Content])],
) -> Result<bool, Fail>
    requires { no.0 < 16 }
{
    let script = script_of(alloc, hosts)?;
    let mut host = make_host(alloc, no, &script)?;
    let count = asked(&mut host, steps);
    Ok(count == steps.len() && shows(&host, cases))
}
