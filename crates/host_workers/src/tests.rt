//! Small scripts run by hosts on threads.
ghost use Rattle.std.specs.Prelude.{◌≡◌, ◌<◌, ◌≤◌, ◌*◌, ◌+◌, ◌^◌, [], true, false, All, IsTrue, IfOk, length};
ghost use Rattle.script_text.specs.Ranges.{IsScript, all_jobs};
ghost use Rattle.rack_turns.specs.Passes.{IsPassOf};
ghost use Rattle.host_workers.specs.Workers.{IsRackFor, IsAtStart, AreReady};

use crate::{Worker, run_hosts};
use bay_device::Bay;
use block_store::MemoryStore;
use host_engine::{Host, lookup};
use rack_turns::{Clock, NoGate, Pass, Rack};
use raid_base::{Content, HostNo, JobEnd, Number};
use script_text::{Script, quota, read_script};
use std::alloc::Global;
use std::sync::Wait;
use std::test::Fail;
use std::thread::Threads;

const ONE_HOST: &[u8] =
    b"raid 1\ndevices 3\nrows 1\nmode order\npatience 3\ntries 2\nobject a 0\nhost 1\nwrite a 0 41\nread a 0 1\nend\n";

const THREE_HOSTS: &[u8] =
    b"raid 1\ndevices 3\nrows 2\nmode order\npatience 3\ntries 2\nobject a 0 1\nhost 1\nwrite a 0 41 42\nread a 0 2\nhost 2\nread a 1 1\nwrite a 2 43\nhost 5\nread a 0 4\nwrite a 1 44\nend\n";

/// A clock that stands still at a moment that no request may have.
struct Late;

impl Clock for Late {
    fn now(&self) -> u64 {
        1 << 50
    }
}

/// Whether no host has more than a hundred jobs.
fn is_short(script: &Script) -> bool
    ensures { IsTrue result → length (all_jobs script.now) < 2 ^ 32 }
{
    let hosts = script.hosts();
    if hosts.len() > 16 {
        return false;
    }
    for host in hosts {
        if host.jobs.len() > 100 {
            return false;
        }
    }
    true
}

/// The script of this text.
fn script_of(alloc: Global, text: &[u8]) -> Result<Script, Fail>
    ensures { IfOk result (λ script. IsScript script × (length (all_jobs script) < 2 ^ 32)) }
{
    if text.len() > 1000 {
        return Err("too long")?;
    }
    match read_script(alloc, text) {
        Ok(script) => {
            if is_short(&script) {
                Ok(script)
            } else {
                Err("too many jobs")?
            }
        }
        Err(fault) => Err(fault)?,
    }
}

/// A bay of the script, with room for a thousand requests.
fn new_bay(alloc: Global, script: &Script) -> Result<Bay<MemoryStore>, Fail>
    ensures new { IfOk result (λ bay. (bay.journal.items ≡ []) × (bay.clock ≡ 0)) }
    ensures rows { IfOk result (λ bay. length bay.slots.slots ≡ script.now.rows) }
{
    let store = MemoryStore::make(alloc, u32::from(script.rows))?;
    match Bay::make(
        alloc,
        store,
        script.rows,
        script.mode,
        script.patience,
        1_000,
    ) {
        Ok(bay) => Ok(bay),
        Err(_) => Err("no bay")?,
    }
}

/// A rack of the script's bays, and its first pass.
fn new_rack(alloc: Global, script: &Script) -> Result<(Rack<MemoryStore>, Pass), Fail>
    requires { IsScript script.now }
    ensures rack { IfOk result (λ made. IsRackFor script.now made.0) }
    ensures pass { IfOk result (λ made. IsPassOf made.0 made.1 × (made.1.is_first ≡ true)) }
{
    let mut bays = Vec::with_capacity(alloc, script.n as usize)?;
    for _ in 0..script.n {
        bays.push_reserved(new_bay(alloc, script)?);
    }
    match Rack::make(alloc, bays) {
        Ok(made) => Ok(made),
        Err(_) => Err("no rack")?,
    }
}

/// A host of the script with its pass.
fn new_worker<'s>(
    alloc: Global,
    script: &'s Script,
    rack: &Rack<MemoryStore>,
    first: &mut Pass,
    host: HostNo,
) -> Result<Worker<'s>, Fail>
    requires script { IsScript script.now × (length (all_jobs script.now) < 2 ^ 32) }
    requires first { IsPassOf rack.now first.old × (first.old.is_first ≡ true) }
    ensures first { IsPassOf rack.now first.new × (first.new.is_first ≡ true) }
    ensures start { IfOk result (IsAtStart script.now rack.now) }
    ensures guest { IfOk result (λ worker. worker.pass.is_first ≡ false) }
{
    let most = quota(script, host);
    if host.0 >= 16 || first.gave(host) || u64::from(first.room()) < most {
        return Err("no pass")?;
    }
    if lookup::jobs_of(script, host).len() > 100 {
        return Err("too many jobs")?;
    }
    let runs = Host::make(alloc, host, script)?;
    let pass = rack.split(first, host, most as u32);
    Ok(Worker { host: runs, pass })
}

/// These hosts of the script with their passes.
fn new_workers<'s>(
    alloc: Global,
    script: &'s Script,
    rack: &Rack<MemoryStore>,
    first: &mut Pass,
    hosts: &[HostNo],
) -> Result<Vec<Worker<'s>>, Fail>
    requires script { IsScript script.now × (length (all_jobs script.now) < 2 ^ 32) }
    requires first { IsPassOf rack.now first.old × (first.old.is_first ≡ true) }
    ensures first { IsPassOf rack.now first.new × (first.new.is_first ≡ true) }
    ensures start { IfOk result (λ workers. All (IsAtStart script.now rack.now) workers.items) }
    ensures guests { IfOk result (λ workers. All (λ worker. worker.pass.is_first ≡ false) workers.items) }
{
    let mut workers = Vec::with_capacity(alloc, hosts.len())?;
    for host in hosts {
        workers.push_reserved(new_worker(alloc, script, rack, first, *host)?);
    }
    Ok(workers)
}

/// The workers once all have run.
fn run_all<'s, R: Threads + Wait + Sync>(
    rt: &R,
    rack: &Rack<MemoryStore>,
    mut workers: Vec<Worker<'s>>,
) -> Vec<Worker<'s>>
    requires ready { AreReady rack.now workers.items }
    requires guests { All (λ worker. worker.pass.is_first ≡ false) workers.items }
    ensures { All (λ worker. IsPassOf rack.now worker.pass × (worker.pass.is_first ≡ false)) result.items }
{
    run_hosts(rt, rack, workers.as_mut_slice(), &Late, &NoGate);
    workers
}

/// How many calls the host has made, where it has ended. Its pass goes back.
fn end(rack: &Rack<MemoryStore>, first: &mut Pass, worker: Worker) -> Option<usize>
    requires first { IsPassOf rack.now first.old × (first.old.is_first ≡ true) }
    requires guest { IsPassOf rack.now worker.pass × (worker.pass.is_first ≡ false) }
    ensures { IsPassOf rack.now first.new × (first.new.is_first ≡ true) }
{
    let Worker { host, pass } = worker;
    rack.join(first, pass);
    match host.next(0) {
        Some(_) => None,
        None => Some(host.transcript().len()),
    }
}

/// How many calls all hosts have made, where all have ended. Their passes go back.
fn end_all(rack: &Rack<MemoryStore>, first: &mut Pass, mut workers: Vec<Worker>) -> Option<usize>
    requires first { IsPassOf rack.now first.old × (first.old.is_first ≡ true) }
    requires guests { All (λ worker. IsPassOf rack.now worker.pass × (worker.pass.is_first ≡ false)) workers.items }
    ensures { IsPassOf rack.now first.new × (first.new.is_first ≡ true) }
{
    let mut calls = 0usize;
    while let Some(worker) = workers.pop() {
        calls = calls.saturating_add(end(rack, first, worker)?);
    }
    Some(calls)
}

/// How many entries the journals of all bays have.
fn entries(rack: Rack<MemoryStore>, first: Pass) -> Option<usize>
    requires { IsPassOf rack first × (first.is_first ≡ true) }
{
    if first.out() != 0 {
        return None;
    }
    let mut count = 0usize;
    for bay in rack.close(first).as_slice() {
        count = count.saturating_add(bay.journal.len());
    }
    Some(count)
}

#[test]
fn three_hosts_end_and_the_journals_have_their_calls(rt: HostRuntime) -> Result<(), Fail> {
    let alloc = rt.alloc();
    let script = script_of(alloc, THREE_HOSTS)?;
    let (rack, mut first) = new_rack(alloc, &script)?;
    let hosts = [HostNo(1), HostNo(2), HostNo(5)];
    let workers = new_workers(alloc, &script, &rack, &mut first, &hosts)?;
    let workers = run_all(&rt, &rack, workers);
    let calls = end_all(&rack, &mut first, workers);
    assert!(rt; calls.is_some() && calls != Some(0));
    assert_eq!(rt; entries(rack, first), calls);
    Ok(())
}

/// Whether the jobs of the only host have ended so, and the job of this number has read these contents.
fn has_told(workers: &[Worker], ends: &[JobEnd], job: u32, contents: &[Content]) -> bool {
    let host = match workers {
        [worker] => &worker.host,
        _ => return false,
    };
    for (result, end) in host.results().iter().zip(ends) {
        if result.end != *end {
            return false;
        }
    }
    host.results().len() == ends.len() && host.contents(job) == contents
}

#[test]
fn one_host_alone_writes_and_reads(rt: HostRuntime) -> Result<(), Fail> {
    let alloc = rt.alloc();
    let script = script_of(alloc, ONE_HOST)?;
    let (rack, mut first) = new_rack(alloc, &script)?;
    let workers = new_workers(alloc, &script, &rack, &mut first, &[HostNo(1)])?;
    let workers = run_all(&rt, &rack, workers);
    let wrote = JobEnd::Wrote { number: Number(1) };
    let read = JobEnd::Read { number: Number(17) };
    let contents = [Content::Bytes([0x41; 64])];
    assert!(rt; has_told(workers.as_slice(), &[wrote, read], 1, &contents));
    assert_eq!(rt; end_all(&rack, &mut first, workers), Some(7));
    assert_eq!(rt; entries(rack, first), Some(7));
    Ok(())
}
