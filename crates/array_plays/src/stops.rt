//! A write that stops after each of its requests.

use crate::playing::check_text;
use crate::texts::{STAMPS, push_state, report_of, script_of};
use std::alloc::Global;
use std::process::Abort;
use std::test::Fail;

/// A write stops after so many requests: what is left.
fn check_left(
    rt: &impl Abort,
    alloc: Global,
    requests: u32,
    job: &str,
    end: &str,
    blocks: &[&str],
    row: &str,
) -> Result<(), Fail> {
    let turns = [(1, 1, u64::from(requests))];
    let script = script_of(alloc, STAMPS, &["host 1", job], &turns)?;
    let mut report = report_of(alloc, &[end], requests, &turns, &[])?;
    push_state(&mut report, blocks, &[row])?;
    check_text(rt, alloc, script.as_str(), 1, &[], report.as_str())
}

/// And what a recovery by another host makes of it.
fn check_recovered(
    rt: &impl Abort,
    alloc: Global,
    requests: u32,
    job: &str,
    end: &str,
    blocks: &[&str],
) -> Result<(), Fail> {
    let turns = [(1, 1, u64::from(requests)), (2, 20, 30)];
    let hosts = ["host 1", job, "host 2", "recover 0"];
    let script = script_of(alloc, STAMPS, &hosts, &turns)?;
    let results = [end, "2 0 recovered 18 closed none"];
    let count = requests.saturating_add(11);
    let mut report = report_of(alloc, &results, count, &turns, &[])?;
    push_state(&mut report, blocks, &["closed"])?;
    check_text(rt, alloc, script.as_str(), 1, &[], report.as_str())
}

/// A write of two blocks stops after each of its nine requests: the claim of the parity, two shares, two claims, the confirm,
/// and the puts of both blocks and of the parity. It is left so, and then another host recovers the row.
#[test]
fn a_write_stops_at_each_request(rt: HostRuntime) -> Result<(), Fail> {
    let gave = "1 0 gave 1 quit";
    let part = "1 0 part 1 10 quit";
    let all = "1 0 part 1 11 quit";
    let wrote = "1 0 wrote 1";
    let none = ["00", "00", "00", "00"];
    let first = ["41", "00", "00", "00"];
    let both = ["41", "42", "00", "00"];
    let table = [
        (1, "quit 1 write a 0 41 42", gave, none, "open"),
        (2, "quit 2 write a 0 41 42", gave, none, "open"),
        (3, "quit 3 write a 0 41 42", gave, none, "open"),
        (4, "quit 4 write a 0 41 42", gave, none, "open"),
        (5, "quit 5 write a 0 41 42", gave, none, "open"),
        (6, "quit 6 write a 0 41 42", gave, none, "open"),
        (7, "quit 7 write a 0 41 42", part, first, "open"),
        (8, "quit 8 write a 0 41 42", all, both, "open"),
        (9, "quit 9 write a 0 41 42", wrote, both, "closed"),
    ];
    for (requests, job, end, blocks, row) in table {
        check_left(&rt, rt.alloc(), requests, job, end, &blocks, row)?;
        check_recovered(&rt, rt.alloc(), requests, job, end, &blocks)?;
    }
    Ok(())
}
