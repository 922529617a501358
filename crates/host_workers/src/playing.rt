//! Playing all hosts of a script over the bays of a rack.
//!
//! Each host is given a pass with its quota, the last host first; all run to their ends; the passes come back and are
//! joined, and the rack is closed. The hosts stand in their old order then, and each bay's journal has for each host what
//! its transcript has there. The command `run` calls this. It allocates nothing.
ghost use Rattle.std.specs.Prelude.{◌≡◌, ◌≤◌, ◌+◌, ◌++◌, [], All, IsTrue, map, reverse, length};
ghost use Rattle.std.specs.Vec.{vec_len, vec_capacity};
ghost use Rattle.rack_turns.specs.Passes.{IsPassOf, is_first};
ghost use Rattle.host_workers.specs.Passing.{IsBack, HaveTheirPasses, HasTakenBack, host_in};
ghost use Rattle.host_workers.specs.Playing.{MayPlay, HavePlayed};
ghost use Rattle.host_workers.specs.Workers.{AreReady, RunToTheirEnds};

use crate::workers::{Worker, run_hosts};
use bay_device::Bay;
use block_store::Store;
use host_engine::Host;
use rack_turns::{Clock, Gate, Pass, Rack};
use script_text::{Script, quota};
use std::sync::Wait;
use std::thread::Threads;

/// Gives each host a pass with its quota, the last host first. The script has its hosts in the same order.
fn give_passes<'s, D: Store>(
    rack: &Rack<D>,
    first: &mut Pass,
    script: &Script,
    hosts: &mut Vec<Host<'s>>,
    mut workers: Vec<Worker<'s>>,
) -> Vec<Worker<'s>>
    requires empty { workers.items ≡ [] }
    requires may { MayPlay script.now rack.now first.old hosts.old.items (vec_capacity workers) }
    ensures given { HaveTheirPasses script.now rack.now hosts.old.items first.new result.items }
    ensures none_left { hosts.new.items ≡ [] }
    ensures room { vec_capacity hosts.new ≡ vec_capacity hosts.old }
{
    let jobs = script.hosts();
    while let Some(host) = hosts.pop() {
        let its = &jobs[hosts.len()];
        let number = its.host;
        let pass = rack.split(first, number, quota(script, number) as u32);
        workers.push_reserved(Worker { host, pass });
    }
    workers
}

/// Takes all passes back, and puts the hosts into the list again, the last worker's first.
fn take_passes<'s, D: Store>(
    rack: &Rack<D>,
    first: &mut Pass,
    mut workers: Vec<Worker<'s>>,
    hosts: &mut Vec<Host<'s>>,
)
    requires pass { IsPassOf rack.now first.old × IsTrue (is_first first.old) }
    requires back { All (IsBack rack.now) workers.items }
    requires room { vec_len hosts.old + vec_len workers ≤ vec_capacity hosts.old }
    ensures hosts { hosts.new.items ≡ hosts.old.items ++ map host_in (reverse workers.entry.items) }
    ensures first { HasTakenBack rack.now (reverse workers.entry.items) first.old first.new }
{
    while let Some(worker) = workers.pop() {
        let Worker { host, pass } = worker;
        rack.join(first, pass);
        hosts.push_reserved(host);
    }
}

/// The workers once each has run its host to its end.
fn run_all<'s, D, C, G, R>(
    rt: &R,
    rack: &Rack<D>,
    mut workers: Vec<Worker<'s>>,
    clock: &C,
    gate: &G,
) -> Vec<Worker<'s>>
where
    D: Store + Send,
    C: Clock + Sync,
    G: Gate + Sync,
    R: Threads + Wait + Sync,
    requires ready { AreReady rack.now workers.items }
    ensures count { length result.items ≡ length workers.entry.items }
    ensures run { RunToTheirEnds rack.now workers.entry.items result.items }
{
    run_hosts(rt, rack, workers.as_mut_slice(), clock, gate);
    workers
}

/// Plays all hosts of a script over the bays of a rack, each on a thread where one can be had, and brings the bays back.
///
/// Each host is given a pass with its quota, all run to their ends, and all passes are joined. Nothing is allocated.
pub fn play_hosts<'s, D, C, G, R>(
    rt: &R,
    rack: Rack<D>,
    first: Pass,
    script: &'s Script,
    hosts: &mut Vec<Host<'s>>,
    workers: Vec<Worker<'s>>,
    clock: &C,
    gate: &G,
) -> Vec<Bay<D>>
where
    D: Store + Send,
    C: Clock + Sync,
    G: Gate + Sync,
    R: Threads + Wait + Sync,
    requires empty { workers.items ≡ [] }
    requires may { MayPlay script.now rack first hosts.old.items (vec_capacity workers) }
    ensures { HavePlayed script.now rack hosts.new.items result.items }
{
    let mut first = first;
    let workers = give_passes(&rack, &mut first, script, hosts, workers);
    let workers = run_all(rt, &rack, workers, clock, gate);
    take_passes(&rack, &mut first, workers, hosts);
    rack.close(first)
}
