//! Plays with a stop, a loss or a failing store at each place, beside a serial array.

use crate::playing::call;
use crate::serial_orders::fault_in;
use crate::texts::{LOCKS, STAMPS, push_lines, push_turns};
use raid_base::{BayNo, Status};
use std::alloc::Global;
use std::process::Abort;
use std::test::Fail;

/// Whether the store of this bay is to fail.
fn is_to_fail(failing: &[(u32, u32)], bay: BayNo) -> bool {
    for (place, _) in failing {
        if *place == u32::from(bay.0) {
            return true;
        }
    }
    false
}

/// What is wrong with a play. A store that is to fail may do so at the end, and then no report is printed.
fn fault_of_play(
    alloc: Global,
    text: &str,
    failing: &[(u32, u32)],
) -> Result<Option<&'static str>, Fail> {
    let (mut outcome, printed) = call(alloc, text, 2, failing)?;
    match outcome.status {
        Status::Done => fault_in(alloc, text, printed.as_str(), &mut outcome),
        Status::StoreFault { bay } if is_to_fail(failing, bay) && printed.is_empty() => Ok(None),
        _ => Ok(Some("another status")),
    }
}

/// Plays a script, and looks for a serial order of its results and for the sums of closed rows.
fn check(rt: &impl Abort, alloc: Global, text: &str, failing: &[(u32, u32)]) -> Result<(), Fail> {
    let fault = fault_of_play(alloc, text, failing)?;
    assert!(rt; fault.is_none(), "{text}");
    Ok(())
}

/// A script in which a write stops after so many requests, and a device is lost after so many requests of its host.
fn stopped(alloc: Global, head: &[&str], quit: &str, before: u64) -> Result<String, Fail> {
    let mut text = String::new(alloc);
    push_lines(&mut text, head)?;
    push_lines(
        &mut text,
        &["host 0", "lose 2", "fit 2", "rebuild 2", "host 1"],
    )?;
    writeln!(text, "{quit}write a 0 41 42")?;
    push_lines(
        &mut text,
        &["read a 0 4", "host 2", "recover 0", "read a 0 4"],
    )?;
    push_lines(&mut text, &["host 3", "recover 0"])?;
    let after = before.saturating_add(1);
    push_turns(&mut text, &[(1, 1, before), (0, after, after)])?;
    push_lines(&mut text, &["end"])?;
    Ok(text)
}

/// The words of a job that stops after so many requests.
const QUITS: [&str; 12] = [
    "quit 1 ", "quit 2 ", "quit 3 ", "quit 4 ", "quit 5 ", "quit 6 ", "quit 7 ", "quit 8 ",
    "quit 9 ", "quit 10 ", "quit 11 ", "quit 12 ",
];

/// A write that stops so, with a loss at each place.
fn check_stop(rt: &impl Abort, alloc: Global, head: &[&str], quit: &str) -> Result<(), Fail> {
    for before in 0..13 {
        let script = stopped(alloc, head, quit, before)?;
        check(rt, alloc, script.as_str(), &[])?;
    }
    Ok(())
}

#[test]
fn a_stop_and_a_loss_at_each_place_leave_a_serial_order(rt: HostRuntime) -> Result<(), Fail> {
    for quit in &QUITS {
        check_stop(&rt, rt.alloc(), STAMPS, quit)?;
        check_stop(&rt, rt.alloc(), LOCKS, quit)?;
    }
    Ok(())
}

/// A script over stores of which one fails at each of its calls.
fn check_stores(rt: &impl Abort, alloc: Global, script: &str) -> Result<(), Fail> {
    for bay in 0..5 {
        for fails in 1..10 {
            check(rt, alloc, script, &[(bay, fails)])?;
        }
    }
    Ok(())
}

#[test]
fn a_failing_store_and_a_loss_leave_a_serial_order(rt: HostRuntime) -> Result<(), Fail> {
    for head in [STAMPS, LOCKS] {
        for before in [0, 3, 6, 7, 9] {
            let script = stopped(rt.alloc(), head, "", before)?;
            check_stores(&rt, rt.alloc(), script.as_str())?;
        }
    }
    Ok(())
}
