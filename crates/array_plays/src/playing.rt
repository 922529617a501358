//! Calls on scripts over sixteen stores, and plays whose whole report is looked for. Each such script is run on threads too.

use crate::texts::{STAMPS, Spell, lines_of, push_state, report_of, script_of};
use crate::thread_runs::check_lines;
use array_cli::{Outcome, sim_call};
use block_store::{FailingStore, Store};
use rack_turns::NoGate;
use raid_base::{MemorySink, MemorySource, Status};
use std::alloc::Global;
use std::process::Abort;
use std::sync::Wait;
use std::test::Fail;
use std::thread::Threads;

/// A script, and the report that is to come of it.
///
/// The script is its head, the lines of its hosts and its turns. The stores of these bays fail at these calls, each counted
/// from 0. Behind the script's turns come those of the rounds. The blocks are those of object `a`.
#[derive(Clone, Copy)]
pub struct Play<'a> {
    pub head: &'a [&'a str],
    pub hosts: &'a [&'a str],
    pub turns: &'a [Spell],
    pub failing: &'a [(u32, u32)],
    pub results: &'a [&'a str],
    pub count: u32,
    pub rounds: &'a [Spell],
    pub blocks: &'a [&'a str],
    pub rows: &'a [&'a str],
}

/// Nothing is done on five devices.
pub const FIVE: Play<'static> = Play {
    head: STAMPS,
    hosts: &[],
    turns: &[],
    failing: &[],
    results: &[],
    count: 0,
    rounds: &[],
    blocks: &["00", "00", "00", "00"],
    rows: &["closed"],
};

/// A store of so many blocks that stands at this place.
fn make_store(
    alloc: Global,
    place: u32,
    blocks: u32,
    failing: &[(u32, u32)],
) -> Result<FailingStore, Fail> {
    let mut calls = Vec::new(alloc);
    for (bay, call) in failing {
        if *bay == place {
            calls.push(*call)?;
        }
    }
    Ok(FailingStore::make(alloc, blocks.saturating_add(place), calls)?)
}

/// Sixteen stores, the first with so many blocks and each next one with one more.
pub fn make_stores(
    alloc: Global,
    blocks: u32,
    failing: &[(u32, u32)],
) -> Result<Vec<FailingStore>, Fail> {
    let mut stores = Vec::new(alloc);
    for place in 0..16 {
        stores.push(make_store(alloc, place, blocks, failing)?)?;
    }
    Ok(stores)
}

/// Whether all those stores have come back, in order.
pub fn are_back(stores: &[FailingStore], blocks: u32) -> bool {
    for (place, store) in stores.iter().enumerate() {
        if u64::from(store.blocks()) != u64::from(blocks).saturating_add(place as u64) {
            return false;
        }
    }
    stores.len() == 16
}

/// A call on a script, and what it has printed.
pub fn call(
    alloc: Global,
    script: &str,
    blocks: u32,
    failing: &[(u32, u32)],
) -> Result<(Outcome<FailingStore>, String), Fail> {
    let mut source = MemorySource::make(script.as_bytes().to_vec(alloc)?, Vec::new(alloc));
    let mut sink = MemorySink::make(alloc, 1 << 17, Vec::new(alloc))?;
    let stores = make_stores(alloc, blocks, failing)?;
    let outcome = sim_call(alloc, &mut source, &mut sink, stores);
    let printed = String::from_utf8_lossy(alloc, sink.written())?;
    Ok((outcome, printed))
}

/// How a call has ended.
#[derive(Clone, Copy)]
pub struct Ending {
    pub status: Status,
    /// Whether all stores have come back, in order.
    pub is_back: bool,
    pub journals: usize,
    pub results: usize,
    pub turns: usize,
}

/// How a call has ended over stores of so many blocks.
fn ending_of(outcome: &Outcome<FailingStore>, blocks: u32) -> Ending {
    Ending {
        status: outcome.status,
        is_back: are_back(outcome.stores.as_slice(), blocks),
        journals: outcome.journals.len(),
        results: outcome.results.len(),
        turns: outcome.turns.len(),
    }
}

/// How a call on a script ends, and what it has printed.
pub fn end(
    alloc: Global,
    script: &str,
    blocks: u32,
    failing: &[(u32, u32)],
) -> Result<(Ending, String), Fail> {
    let (outcome, printed) = call(alloc, script, blocks, failing)?;
    Ok((ending_of(&outcome, blocks), printed))
}

/// Plays a script of so many rows, and looks for the whole report.
pub fn check_text(
    rt: &impl Abort,
    alloc: Global,
    script: &str,
    rows: usize,
    failing: &[(u32, u32)],
    report: &str,
) -> Result<(), Fail> {
    let (ending, printed) = end(alloc, script, u32::try_from(rows)?, failing)?;
    assert!(rt; printed.as_str() == report, "{script}{printed}");
    assert!(rt; ending.status == Status::Done && ending.is_back);
    Ok(())
}

/// The whole report that is to come of a play.
fn report_of_play(alloc: Global, play: &Play) -> Result<String, Fail> {
    let mut report = report_of(alloc, play.results, play.count, play.turns, play.rounds)?;
    push_state(&mut report, play.blocks, play.rows)?;
    Ok(report)
}

/// Plays a play, and looks for its report. Then runs its script without its turns, over stores that fail at the same calls.
fn check_play<R: Threads + Wait + Sync + Abort>(
    rt: &R,
    alloc: Global,
    play: &Play,
) -> Result<(), Fail> {
    let script = script_of(alloc, play.head, play.hosts, play.turns)?;
    let report = report_of_play(alloc, play)?;
    let rows = play.rows.len();
    check_text(rt, alloc, &script, rows, play.failing, &report)?;
    let lines = lines_of(alloc, play.head, play.hosts)?;
    let blocks = u32::try_from(rows)?;
    let status = check_lines(rt, alloc, lines.as_str(), blocks, play.failing, &NoGate)?;
    assert_eq!(rt; status, Status::Done);
    Ok(())
}

/// Plays these plays and looks for the report of each, and runs each once beside the simulator.
pub fn check<R: Threads + Wait + Sync + Abort>(
    rt: &R,
    alloc: Global,
    plays: &[Play],
) -> Result<(), Fail> {
    for play in plays {
        check_play(rt, alloc, play)?;
    }
    Ok(())
}
