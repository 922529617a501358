//! Scripts whose hosts run beside each other, compared with the simulator's plays of the turns that came of it.

use crate::playing::{are_back, call, make_stores};
use crate::smallest::{REPORT, SCRIPT};
use array_cli::{Outcome, array, run_call};
use block_store::FailingStore;
use rack_turns::{Clock, Gate, NoGate};
use raid_base::{MemorySink, MemorySource, Status, Turn};
use std::alloc::Global;
use std::process::Abort;
use std::sync::Wait;
use std::sync::atomic::{AtomicU64, Ordering};
use std::test::Fail;
use std::thread::Threads;

/// Three hosts read and write three blocks of two rows.
const THREE_HOSTS: &str =
    "raid 1\ndevices 3\nrows 2\nmode order\npatience 3\ntries 2\nobject a 0 1\nhost 1\nwrite a 0 41 42\nread a 0 2\nhost 2\nread a 1 1\nwrite a 2 43\nhost 5\nread a 0 4\nwrite a 1 44\n";

/// A clock whose moments count how often it was asked.
#[derive(Drop)]
pub struct Counting {
    asked: AtomicU64,
}

impl Counting {
    pub fn new() -> Counting {
        Counting {
            asked: AtomicU64::new(0),
        }
    }
}

impl Clock for Counting {
    fn now(&self) -> u64 {
        self.asked.fetch_add(1, Ordering::Relaxed).saturating_add(1)
    }
}

/// The text of a script whose head and hosts are these lines, with these turns.
fn with_turns(alloc: Global, lines: &str, turns: &[Turn]) -> Result<String, Fail> {
    let mut text = String::from_str(alloc, lines)?;
    for turn in turns {
        writeln!(text, "turn {} {}", turn.host.0, turn.moment)?;
    }
    text.push_str("end\n")?;
    Ok(text)
}

/// A run of a script over sixteen stores, the first with so many blocks, and what it has printed.
pub fn run<R: Threads + Wait + Sync, G: Gate + Sync>(
    rt: &R,
    alloc: Global,
    script: &str,
    blocks: u32,
    failing: &[(u32, u32)],
    gate: &G,
) -> Result<(Outcome<FailingStore>, String), Fail> {
    let mut source = MemorySource::make(script.as_bytes().to_vec(alloc)?, Vec::new(alloc));
    let mut sink = MemorySink::make(alloc, 1 << 17, Vec::new(alloc))?;
    let stores = make_stores(alloc, blocks, failing)?;
    let clock = Counting::new();
    let outcome = run_call(rt, alloc, &mut source, &mut sink, stores, &clock, gate);
    let printed = String::from_utf8_lossy(alloc, sink.written())?;
    Ok((outcome, printed))
}

/// What differs between two ends of a call, if anything.
fn difference(
    one: &Outcome<FailingStore>,
    printed: &str,
    other: &Outcome<FailingStore>,
    again: &str,
) -> Option<&'static str> {
    if one.status != other.status {
        return Some("the status");
    }
    if printed != again {
        return Some("the report");
    }
    if one.turns.as_slice() != other.turns.as_slice() {
        return Some("the turns");
    }
    if one.results.as_slice() != other.results.as_slice() {
        return Some("the results");
    }
    for (mine, others) in one
        .journals
        .as_slice()
        .iter()
        .zip(other.journals.as_slice())
    {
        if mine.as_slice() != others.as_slice() {
            return Some("a journal");
        }
    }
    if one.journals.len() == other.journals.len() {
        None
    } else {
        Some("the number of journals")
    }
}

/// Runs a script whose head and hosts are these lines, then plays it with the turns that came of it, over stores that fail at
/// the same calls. Looks for the same end of both, and gives it.
pub fn check_lines<R: Threads + Wait + Sync + Abort, G: Gate + Sync>(
    rt: &R,
    alloc: Global,
    lines: &str,
    blocks: u32,
    failing: &[(u32, u32)],
    gate: &G,
) -> Result<Status, Fail> {
    let script = with_turns(alloc, lines, &[])?;
    let (outcome, printed) = run(rt, alloc, script.as_str(), blocks, failing, gate)?;
    let script = with_turns(alloc, lines, outcome.turns.as_slice())?;
    let (again, reprinted) = call(alloc, script.as_str(), blocks, failing)?;
    let differs = difference(&outcome, printed.as_str(), &again, reprinted.as_str());
    assert_eq!(rt; differs, None);
    assert!(rt; are_back(outcome.stores.as_slice(), blocks));
    Ok(outcome.status)
}

#[test]
fn one_host_runs_as_it_is_simulated(rt: HostRuntime) -> Result<(), Fail> {
    let alloc = rt.alloc();
    let words = vec![in alloc; String::from_str(alloc, "run")?]?;
    let mut source = MemorySource::make(SCRIPT.to_vec(alloc)?, Vec::new(alloc));
    let mut sink = MemorySink::make(alloc, 4_096, Vec::new(alloc))?;
    let clock = Counting::new();
    let outcome = array(
        &rt,
        alloc,
        words.as_slice(),
        &mut source,
        &mut sink,
        make_stores(alloc, 1, &[])?,
        &clock,
        &NoGate,
    );
    assert_eq!(rt; outcome.status, Status::Done);
    assert!(rt; sink.written() == REPORT);
    assert_eq!(rt; outcome.turns.len(), 7);
    assert!(rt; are_back(outcome.stores.as_slice(), 1));
    Ok(())
}

#[test]
fn hosts_on_threads_are_simulated_by_their_turns(rt: HostRuntime) -> Result<(), Fail> {
    for _time in 0..20 {
        let status = check_lines(&rt, rt.alloc(), THREE_HOSTS, 2, &[], &NoGate)?;
        assert_eq!(rt; status, Status::Done);
    }
    Ok(())
}
