//! Runs of the smallest script: whole, and with each call of the source, the sink or a store failing.

use crate::smallest::{REPORT, SCRIPT, part_of_report};
use array_cli::{Outcome, sim_call};
use block_store::{FailingStore, Store};
use raid_base::{BayNo, Entry, MemorySink, MemorySource, NoMemory, Status};
use std::alloc::Global;
use std::process::Abort;
use std::test::Fail;

/// The number of a call that is never made.
const NEVER: u32 = 1_000_000;

/// How a run has ended, and what it leaves.
#[derive(Clone, Copy)]
struct Left {
    status: Status,
    /// How many bytes of the report were printed, and none where something else was.
    printed: Option<usize>,
    /// Whether all stores have come back, in order.
    is_back: bool,
    results: usize,
    turns: usize,
    journals: usize,
    /// How many entries the first three journals have, and 0 where there is none.
    entries: [usize; 3],
}

/// Which calls of a run fail: of the source, of the sink, and of one of the stores.
#[derive(Clone, Copy)]
struct Failing {
    source: u32,
    sink: u32,
    bay: u8,
    store: u32,
}

/// No call fails.
const NO_FAULT: Failing = Failing {
    source: NEVER,
    sink: NEVER,
    bay: 0,
    store: NEVER,
};

fn one(alloc: Global, number: u32) -> Result<Vec<u32>, NoMemory> {
    vec![in alloc; number].map_err(|_| NoMemory)
}

/// Four stores with 1, 2, 3 and 4 blocks.
fn make_stores(alloc: Global, failing: Failing) -> Result<Vec<FailingStore>, Fail> {
    let mut stores = Vec::new(alloc);
    for bay in 0..4 {
        let call = if bay == u32::from(failing.bay) {
            failing.store
        } else {
            NEVER
        };
        stores.push(FailingStore::make(alloc, bay + 1, one(alloc, call)?)?)?;
    }
    Ok(stores)
}

/// Whether all stores have come back, in order.
fn are_back(stores: &[FailingStore]) -> bool {
    match stores {
        [a, b, c, d] => a.blocks() == 1 && b.blocks() == 2 && c.blocks() == 3 && d.blocks() == 4,
        _ => false,
    }
}

/// How many entries the journal at this place has.
fn entries(journals: &[Vec<Entry>], place: usize) -> usize {
    match journals.get(place) {
        Some(journal) => journal.len(),
        None => 0,
    }
}

fn left_of(outcome: &Outcome<FailingStore>, printed: &[u8]) -> Left {
    let journals = outcome.journals.as_slice();
    Left {
        status: outcome.status,
        printed: part_of_report(printed),
        is_back: are_back(outcome.stores.as_slice()),
        results: outcome.results.len(),
        turns: outcome.turns.len(),
        journals: journals.len(),
        entries: [
            entries(journals, 0),
            entries(journals, 1),
            entries(journals, 2),
        ],
    }
}

/// A call on the smallest script over four stores with 1, 2, 3 and 4 blocks. These calls of the source, the sink and one of
/// the stores fail.
fn run(alloc: Global, failing: Failing) -> Result<Left, Fail> {
    let mut source = MemorySource::make(SCRIPT.to_vec(alloc)?, one(alloc, failing.source)?);
    let mut sink = MemorySink::make(alloc, 4_096, one(alloc, failing.sink)?)?;
    let stores = make_stores(alloc, failing)?;
    let outcome = sim_call(alloc, &mut source, &mut sink, stores);
    Ok(left_of(&outcome, sink.written()))
}

/// Looks for a run to the end, and these numbers of entries.
fn check_whole(rt: &impl Abort, left: Left) {
    assert_eq!(rt; left.status, Status::Done);
    assert_eq!(rt; left.printed, Some(REPORT.len()));
    assert!(rt; left.is_back);
    assert!(rt; left.results == 2 && left.turns == 7);
    assert!(rt; left.journals == 3 && left.entries == [3, 1, 3]);
}

#[test]
fn the_smallest_script_is_played(rt: HostRuntime) -> Result<(), Fail> {
    check_whole(&rt, run(rt.alloc(), NO_FAULT)?);
    Ok(())
}

#[test]
fn a_source_that_fails_at_any_call_ends_the_run(rt: HostRuntime) -> Result<(), Fail> {
    for source in [0, 1] {
        let left = run(rt.alloc(), Failing { source, ..NO_FAULT })?;
        assert_eq!(rt; left.status, Status::ReadFault);
        assert_eq!(rt; left.printed, Some(0));
        assert!(rt; left.is_back && left.turns == 0);
    }
    Ok(())
}

/// Whether a run whose sink fails at this call has ended, and looks for what it leaves.
fn is_done(rt: &impl Abort, left: Left, call: u32) -> bool {
    assert!(rt; left.is_back && left.turns == 7);
    if left.status == Status::Done {
        assert!(rt; call >= 13);
        return true;
    }
    assert_eq!(rt; left.status, Status::WriteFault);
    assert!(rt; left.printed.is_some() && left.printed != Some(REPORT.len()));
    false
}

#[test]
fn a_sink_that_fails_at_any_call_has_taken_a_first_part(rt: HostRuntime) -> Result<(), Fail> {
    let mut done = false;
    for sink in 0..100 {
        let left = run(rt.alloc(), Failing { sink, ..NO_FAULT })?;
        if is_done(&rt, left, sink) {
            done = true;
            break;
        }
    }
    assert!(rt; done);
    Ok(())
}

/// Looks for the fault of a store before or after the play, with these numbers of entries, results and turns.
fn check_fault(rt: &impl Abort, left: Left, bay: u8, entries: [usize; 3], results: usize) {
    let bay = BayNo(bay);
    assert_eq!(rt; left.status, Status::StoreFault { bay });
    assert_eq!(rt; left.printed, Some(0));
    assert!(rt; left.is_back);
    assert_eq!(rt; left.entries, entries);
    assert_eq!(rt; left.results, results);
}

/// Each store is asked to clear its row, and at the end for its block. Between, bay 0 is asked for the put and the read of
/// the block, bay 1 for the share of the other block, and bay 2 for the put of the parity.
#[test]
fn a_store_that_fails_before_or_after_the_play_is_named(rt: HostRuntime) -> Result<(), Fail> {
    for (bay, last) in [(0, 3), (1, 2), (2, 2)] {
        let fails_at = |store| Failing {
            bay,
            store,
            ..NO_FAULT
        };
        let before = run(rt.alloc(), fails_at(0))?;
        check_fault(&rt, before, bay, [0, 0, 0], 0);
        assert!(rt; before.journals == 0 && before.turns == 0);
        let after = run(rt.alloc(), fails_at(last))?;
        check_fault(&rt, after, bay, [3, 1, 3], 2);
        assert!(rt; after.journals == 3 && after.turns == 7);
        check_whole(&rt, run(rt.alloc(), fails_at(last + 1))?);
    }
    Ok(())
}
