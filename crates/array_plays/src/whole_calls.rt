//! What no report shows: the parity on its device, two calls on one script, and the heaviest scripts.

use crate::playing::{FIVE, Play, call, check, end};
use crate::texts::{STAMPS, push_lines, script_of};
use block_store::Store;
use raid_base::{RowNo, Status};
use std::alloc::Global;
use std::process::Abort;
use std::test::Fail;

/// What the first row of the parity's store holds after a job of one host.
fn parity_after(alloc: Global, job: &str) -> Result<[u8; 64], Fail> {
    let script = script_of(alloc, STAMPS, &["host 1", job], &[])?;
    let (mut outcome, _) = call(alloc, script.as_str(), 1, &[])?;
    match outcome.stores.as_mut_slice() {
        [_, _, _, _, parity, ..] => {
            if parity.blocks() == 0 {
                return Err("no block")?;
            }
            Ok(parity.read(RowNo(0))?)
        }
        _ => Err("no parity")?,
    }
}

#[test]
fn the_parity_is_the_sum_of_the_blocks(rt: HostRuntime) -> Result<(), Fail> {
    let table = [
        ("write a 0 01 02 03 04", 0x04),
        ("write a 0 41 42", 0x03),
        ("write a 3 41", 0x41),
    ];
    for (job, byte) in table {
        assert!(rt; parity_after(rt.alloc(), job)? == [byte; 64], "{job}");
    }
    Ok(())
}

/// Whether two calls on a script, in which the same call of a store fails, are done and have the same end.
fn are_the_same(alloc: Global, script: &str, failing: &[(u32, u32)]) -> Result<bool, Fail> {
    let (first, printed) = call(alloc, script, 1, failing)?;
    let (second, again) = call(alloc, script, 1, failing)?;
    Ok(
        first.status == Status::Done
            && printed.as_str() == again.as_str()
            && first.results.as_slice() == second.results.as_slice()
            && first.turns.as_slice() == second.turns.as_slice(),
    )
}

#[test]
fn a_script_is_played_the_same_each_time(rt: HostRuntime) -> Result<(), Fail> {
    let hosts = [
        "host 0",
        "lose 2",
        "fit 2",
        "rebuild 2",
        "host 1",
        "write a 0 41 42",
        "read a 0 4",
        "host 2",
        "write a 2 43",
        "recover 0",
    ];
    let turns = [(1, 1, 3), (0, 7, 7), (2, 9, 12)];
    let script = script_of(rt.alloc(), STAMPS, &hosts, &turns)?;
    assert!(rt; are_the_same(rt.alloc(), script.as_str(), &[(1, 2)])?);
    Ok(())
}

/// Looks for a refusal of a script that weighs so much.
fn check_too_much(
    rt: &impl Abort,
    alloc: Global,
    script: &str,
    rows: u32,
    total: u64,
) -> Result<(), Fail> {
    let (ending, printed) = end(alloc, script, rows, &[])?;
    assert_eq!(rt; ending.status, Status::TooMuch { total });
    assert!(rt; printed.is_empty());
    Ok(())
}

/// Sixteen devices of 4,096 rows, and the operator's jobs.
const WIDE: &[&str] = &[
    "raid 1",
    "devices 16",
    "rows 4096",
    "mode order",
    "patience 3",
    "tries 1",
    "host 0",
];

/// Four rebuilds of 4,096 rows on sixteen devices weigh 2^20. They end without a request, since no device was fitted.
#[test]
fn the_heaviest_script_is_played(rt: HostRuntime) -> Result<(), Fail> {
    let rows = vec![in rt.alloc(); "closed"; 4096]?;
    let play = Play {
        head: WIDE,
        hosts: &["rebuild 0", "rebuild 0", "rebuild 0", "rebuild 0"],
        results: &[
            "0 0 notfitted 0",
            "0 1 notfitted 0",
            "0 2 notfitted 0",
            "0 3 notfitted 0",
        ],
        blocks: &[],
        rows: rows.as_slice(),
        ..FIVE
    };
    check(&rt, rt.alloc(), &[play])?;
    let jobs = ["rebuild 0", "rebuild 0", "rebuild 0", "rebuild 0", "lose 0"];
    let heavier = script_of(rt.alloc(), WIDE, &jobs, &[])?;
    check_too_much(&rt, rt.alloc(), heavier.as_str(), 4096, 1_048_592)
}

/// Sixteen devices of one row.
const MANY_TRIES: &[&str] = &[
    "raid 1",
    "devices 16",
    "rows 1",
    "mode order",
    "patience 3",
    "tries 64",
    "object a 0",
];

/// A script of four hosts with 64 reads each, and these lines.
fn many_reads(alloc: Global, last: &[&str]) -> Result<String, Fail> {
    let mut text = String::new(alloc);
    push_lines(&mut text, MANY_TRIES)?;
    for host in ["host 1", "host 2", "host 3", "host 4"] {
        push_lines(&mut text, &[host])?;
        push_lines(&mut text, &["read a 0 1"; 64])?;
    }
    push_lines(&mut text, last)?;
    Ok(text)
}

/// Four hosts with 64 reads each, and 64 tries, weigh 2^20. A fifth host with one read is too much.
#[test]
fn the_tries_are_weighed(rt: HostRuntime) -> Result<(), Fail> {
    let heaviest = many_reads(rt.alloc(), &["end"])?;
    let (ending, _) = end(rt.alloc(), heaviest.as_str(), 1, &[])?;
    assert_eq!(rt; ending.status, Status::Done);
    assert_eq!(rt; ending.turns, 256);
    let more = many_reads(rt.alloc(), &["host 5", "read a 0 1", "end"])?;
    check_too_much(&rt, rt.alloc(), more.as_str(), 1, 1_052_672)
}
