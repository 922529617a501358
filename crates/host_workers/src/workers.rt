//! Workers: a host with its pass each.
//!
//! A worker's turn takes the host's next request, asks the bay through the pass, and hands the answer to the host. A worker
//! runs until its host has no request any more, and all run side by side, each on a thread where one can be had.
//!
//! Nothing but the rack is shared, so what is promised of a worker is promised of it alone: what its pass has asked is what
//! its host's transcript has, and that is a run of the host by the script. `play_hosts` calls this for a whole script.
ghost use Rattle.std.specs.Prelude.{◌≡◌, ◌<◌, ◌-◌, ◌^◌, length, min};
ghost use Rattle.host_workers.specs.Workers.{MayGoOn, MayStart, AreReady, TakesTurn, RunsToItsEnd, RunToTheirEnds};

use block_store::Store;
use host_engine::Host;
use rack_turns::{Clock, Gate, Pass, Rack};
use std::sync::Wait;
use std::thread;
use std::thread::Threads;

/// The greatest moment of a request.
const LAST_MOMENT: u64 = (1 << 40) - 1;

/// One host, and the pass with which it asks.
#[derive(Drop)]
pub struct Worker<'s> {
    pub host: Host<'s>,
    pub pass: Pass,
}

/// A moment that a request may have: this one, or the greatest where it is beyond that.
fn cut(moment: u64) -> u64
    ensures { result ≡ min moment (2 ^ 40 - 1) }
{
    moment.min(LAST_MOMENT)
}

/// One request of a host, and its answer. False where the host has ended, and then nothing changes.
fn turn<D: Store, G: Gate, R: Wait>(
    rt: &R,
    rack: &Rack<D>,
    worker: &mut Worker,
    moment: u64,
    gate: &G,
) -> bool
    requires ready { MayGoOn rack.now worker.old }
    requires moment { moment < 2 ^ 40 }
    ensures { TakesTurn rack.now worker.old worker.new result }
{
    let (bay, ask) = match worker.host.next(moment) {
        Some(sent) => sent,
        None => return false,
    };
    let answer = rack.ask(rt, &mut worker.pass, bay, &ask, gate);
    worker.host.heard(moment, bay, &ask, &answer);
    true
}

/// All requests of a host, one after another, until it has ended.
fn run_host<D: Store, C: Clock, G: Gate, R: Wait>(
    rt: &R,
    rack: &Rack<D>,
    worker: &mut Worker,
    clock: &C,
    gate: &G,
)
    requires { MayStart rack.now worker.old }
    ensures { RunsToItsEnd rack.now worker.old worker.new }
{
    while turn(rt, rack, worker, cut(clock.now()), gate) {}
}

/// Runs each worker's host to its end, in as many threads as there are workers where the runtime gives them. What no thread
/// takes the caller runs itself.
///
/// Afterwards what each pass has asked is what its host's transcript has, call by call.
pub fn run_hosts<D, C, G, R>(rt: &R, rack: &Rack<D>, workers: &mut [Worker], clock: &C, gate: &G)
where
    D: Store + Send,
    C: Clock + Sync,
    G: Gate + Sync,
    R: Threads + Wait + Sync,
    requires ready { AreReady rack.now workers.old }
    ensures count { length workers.new ≡ length workers.old }
    ensures run { RunToTheirEnds rack.now workers.old workers.new }
{
    let threads = workers.len().max(1);
    thread::for_each_mut(
        rt,
        workers,
        threads,
        &|_, worker| { run_host(rt, rack, worker, clock, gate) },
    );
}
