//! Hosts at bays, at once.
ghost use Rattle.std.specs.Prelude.{◌≡◌, ◌<◌, ℕ, [], All, IsTrue, true, false, IfOk, length};
ghost use Rattle.slot_rules.specs.Serving.{IsAskFor};
ghost use Rattle.rack_turns.specs.Passes.{IsPassOf, openings_of, is_first};

use bay_device::Bay;
use block_store::{MemoryStore, Store};
use rack_turns::{Gate, NoGate, Pass, Rack, Try};
use raid_base::{Ask, BayNo, Entry, HostNo, Mode, Request};
use std::alloc::Global;
use std::sync::Wait;
use std::sync::atomic::{AtomicBool, Ordering};
use std::test::Fail;
use std::thread;
use std::thread::Threads;

/// How often a thread looks for the other before it gives up.
const LOOKS: u64 = 20_000_000;

/// Waits for a flag, for a while.
fn wait_for(flag: &AtomicBool) {
    for _ in 0..LOOKS {
        if flag.load(Ordering::SeqCst) {
            return;
        }
        thread::yield_now();
    }
}

/// Tells that a bay is out, and holds it until it is let go.
#[derive(Drop)]
struct Holds<'a> {
    out: &'a AtomicBool,
    go: &'a AtomicBool,
}

impl Gate for Holds<'_> {
    fn inside(&self, _host: HostNo, _bay: BayNo) {
        self.out.store(true, Ordering::SeqCst);
        wait_for(self.go);
    }
}

/// A bay of one row that was asked nothing yet.
fn new_bay(alloc: Global) -> Result<Bay<MemoryStore>, Fail>
    ensures { IfOk result (λ bay. (bay.journal.items ≡ []) × (bay.clock ≡ 0)) }
{
    let store = MemoryStore::make(alloc, 1)?;
    match Bay::make(alloc, store, 1, Mode::Order, 3, 200) {
        Ok(bay) => Ok(bay),
        Err(_) => Err("no bay")?,
    }
}

/// A rack of two bays.
fn new_rack(alloc: Global) -> Result<(Rack<MemoryStore>, Pass), Fail>
    ensures pass { IfOk result (λ made. IsPassOf made.0 made.1 × IsTrue (is_first made.1)) }
    ensures bays { IfOk result (λ made. length (openings_of made.0) ≡ 2) }
{
    let mut bays = Vec::with_capacity(alloc, 2)?;
    bays.push_reserved(new_bay(alloc)?);
    bays.push_reserved(new_bay(alloc)?);
    match Rack::make(alloc, bays) {
        Ok(made) => Ok(made),
        Err(_) => Err("no rack")?,
    }
}

/// A pass for a host, which may ask so often at each bay.
fn give(rack: &Rack<MemoryStore>, first: &mut Pass, host: HostNo, quota: u32) -> Result<Pass, Fail>
    requires { IsPassOf rack.now first.old × IsTrue (is_first first.old) }
    ensures first { IsPassOf rack.now first.new × IsTrue (is_first first.new) }
    ensures guest { IfOk result (λ guest. IsPassOf rack.now guest × (is_first guest ≡ false)) }
{
    if host.0 >= 16 || first.room() < quota || first.gave(host) {
        return Err("no pass")?;
    }
    Ok(rack.split(first, host, quota))
}

/// What a host asks.
fn lose(host: HostNo) -> Ask
    requires { host.0 < 16 }
    ensures host { (result.host ≡ host) × (result.clock ≡ 0) }
    ensures any { (rows : ℕ) → IsAskFor rows result }
{
    Ask {
        host,
        clock: 0,
        moment: 1,
        what: Request::Lose,
    }
}

/// What a try comes to, or `None` where the pass may not ask.
fn tried<D: Store, G: Gate>(rack: &Rack<D>, pass: &mut Pass, bay: BayNo, gate: &G) -> Option<Try>
    requires pass { IsPassOf rack.now pass.old }
    requires bay { (bay.0 < 2) × (length (openings_of rack.now) ≡ 2) }
    ensures pass { IsPassOf rack.now pass.new }
    ensures first { is_first pass.new ≡ is_first pass.old }
{
    let host = pass.host();
    if host.0 >= 16 || pass.left(bay) == 0 {
        return None;
    }
    let ask = lose(host);
    Some(rack.try_ask(pass, bay, &ask, gate))
}

/// A host with its pass, and what it got at bay 0 and at bay 1.
#[derive(Drop)]
struct Worker {
    pass: Pass,
    got: [Option<Try>; 2],
}

/// Host 1 asks bay 0, and is held inside. The other host meets it there, asks bay 1, and lets it go.
fn work<D: Store>(rack: &Rack<D>, worker: &mut Worker, gate: &Holds)
    requires pass { IsPassOf rack.now worker.old.pass × (is_first worker.old.pass ≡ false) }
    requires bays { length (openings_of rack.now) ≡ 2 }
    ensures { IsPassOf rack.now worker.new.pass × (is_first worker.new.pass ≡ false) }
{
    if worker.pass.host() == HostNo(1) {
        worker.got[0] = tried(rack, &mut worker.pass, BayNo(0), gate);
        return;
    }
    wait_for(gate.out);
    worker.got[0] = tried(rack, &mut worker.pass, BayNo(0), &NoGate);
    worker.got[1] = tried(rack, &mut worker.pass, BayNo(1), &NoGate);
    gate.go.store(true, Ordering::SeqCst);
}

/// The workers at once, each in a thread of its own where one can be made. The stores may be of any kind that can be sent.
fn all_work<R: Threads + Sync, D: Store + Send>(
    rt: &R,
    rack: &Rack<D>,
    workers: &mut [Worker],
    gate: &Holds,
)
    requires workers { All (λ w. IsPassOf rack.now w.pass × (is_first w.pass ≡ false)) workers.old }
    requires bays { length (openings_of rack.now) ≡ 2 }
    ensures count { length workers.new ≡ length workers.old }
    ensures workers { All (λ w. IsPassOf rack.now w.pass × (is_first w.pass ≡ false)) workers.new }
{
    thread::for_each_mut(rt, workers, 2, &|_, worker| work(rack, worker, gate));
}

/// The clock of an answer.
fn clock_of(tried: Option<Try>) -> Option<u64> {
    match tried {
        Some(Try::Answer(answer)) => Some(answer.clock),
        _ => None,
    }
}

/// Asks bay 0 as often as the pass may.
fn ask_often<R: Wait, D: Store>(rt: &R, rack: &Rack<D>, pass: &mut Pass)
    requires pass { IsPassOf rack.now pass.old }
    requires bays { 0 < length (openings_of rack.now) }
    ensures pass { IsPassOf rack.now pass.new }
    ensures first { is_first pass.new ≡ is_first pass.old }
{
    let often = pass.left(BayNo(0));
    for _ in 0..often {
        let host = pass.host();
        if host.0 >= 16 || pass.left(BayNo(0)) == 0 {
            return;
        }
        let ask = lose(host);
        rack.ask(rt, pass, BayNo(0), &ask, &NoGate);
    }
}

/// All passes ask bay 0 at once, each in a thread of its own where one can be made. The stores may be of any kind that can
/// be sent.
fn all_ask<R: Threads + Wait + Sync, D: Store + Send>(rt: &R, rack: &Rack<D>, passes: &mut [Pass])
    requires passes { All (λ pass. IsPassOf rack.now pass × (is_first pass ≡ false)) passes.old }
    requires bays { 0 < length (openings_of rack.now) }
    ensures count { length passes.new ≡ length passes.old }
    ensures passes { All (λ pass. IsPassOf rack.now pass × (is_first pass ≡ false)) passes.new }
{
    thread::for_each_mut(rt, passes, 16, &|_, pass| ask_often(rt, rack, pass));
}

/// How many of the entries are a host's.
fn count_of(entries: &[Entry], host: HostNo) -> usize {
    entries.iter().filter(|entry| entry.host() == host).count()
}

/// Whether the clocks are 1, 2, 3 and so on.
fn counts_up(entries: &[Entry]) -> bool {
    (1u64..)
        .zip(entries.iter())
        .all(|(clock, entry)| entry.clock() == clock)
}

#[test]
fn a_bay_in_a_turn_holds_up_no_other(rt: HostRuntime) -> Result<(), Fail> {
    let (rack, mut first) = new_rack(rt.alloc())?;
    let mut workers = [
        Worker {
            pass: give(&rack, &mut first, HostNo(1), 2)?,
            got: [None, None],
        },
        Worker {
            pass: give(&rack, &mut first, HostNo(2), 2)?,
            got: [None, None],
        },
    ];
    let out = AtomicBool::new(false);
    let go = AtomicBool::new(false);
    all_work(&rt, &rack, &mut workers, &Holds { out: &out, go: &go });
    let [one, two] = workers;
    let Worker {
        pass: one,
        got: held,
    } = one;
    let Worker {
        pass: two,
        got: met,
    } = two;
    assert_eq!(rt; met[0], Some(Try::Engaged { holder: HostNo(1) }));
    assert_eq!(rt; clock_of(met[1]), Some(1));
    assert_eq!(rt; clock_of(held[0]), Some(1));
    rack.join(&mut first, one);
    rack.join(&mut first, two);
    assert_eq!(rt; first.out(), 0);
    let bays = rack.close(first);
    assert_eq!(rt; bays.len(), 2);
    for bay in bays.as_slice() {
        assert_eq!(rt; bay.journal().len(), 1);
    }
    Ok(())
}

#[test]
fn hosts_that_ask_at_once_are_answered_in_turn(rt: HostRuntime) -> Result<(), Fail> {
    let (rack, mut first) = new_rack(rt.alloc())?;
    let mut passes = [
        give(&rack, &mut first, HostNo(1), 40)?,
        give(&rack, &mut first, HostNo(2), 50)?,
        give(&rack, &mut first, HostNo(3), 60)?,
    ];
    all_ask(&rt, &rack, &mut passes);
    let [one, two, three] = passes;
    rack.join(&mut first, one);
    rack.join(&mut first, two);
    rack.join(&mut first, three);
    assert_eq!(rt; first.out(), 0);
    let bays = rack.close(first);
    assert_eq!(rt; bays.len(), 2);
    let entries = bays[0].journal();
    assert_eq!(rt; entries.len(), 150);
    assert_eq!(rt; count_of(entries, HostNo(1)), 40);
    assert_eq!(rt; count_of(entries, HostNo(2)), 50);
    assert_eq!(rt; count_of(entries, HostNo(3)), 60);
    assert!(rt; counts_up(entries));
    assert_eq!(rt; bays[1].journal().len(), 0);
    Ok(())
}
