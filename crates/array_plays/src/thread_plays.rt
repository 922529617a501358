//! Runs of many hosts, of stops and losses, and over stores that fail, beside the simulator.

use crate::texts::{LOCKS, STAMPS, lines_of, push_lines};
use crate::thread_runs::check_lines;
use rack_turns::{Gate, NoGate};
use raid_base::{BayNo, HostNo, Status};
use std::alloc::Global;
use std::process::Abort;
use std::sync::Wait;
use std::test::Fail;
use std::thread;
use std::thread::Threads;

/// Lets other threads go on while a bay is out, so that hosts meet there.
#[derive(Clone, Copy)]
struct Yields;

impl Gate for Yields {
    fn inside(&self, _host: HostNo, _bay: BayNo) {
        thread::yield_now();
    }
}

/// Sixteen hosts write a block of one row each and read the row.
fn sixteen_hosts(alloc: Global, head: &[&str]) -> Result<String, Fail> {
    let mut text = lines_of(alloc, head, &[])?;
    for host in 0..16 {
        writeln!(text, "host {host}")?;
        writeln!(text, "write a {} 4{}", host % 4, host % 10)?;
        push_lines(&mut text, &["read a 0 4"])?;
    }
    Ok(text)
}

#[test]
fn sixteen_hosts_on_one_row_are_simulated_by_their_turns(rt: HostRuntime) -> Result<(), Fail> {
    for head in [STAMPS, LOCKS] {
        let lines = sixteen_hosts(rt.alloc(), head)?;
        let status = check_lines(&rt, rt.alloc(), lines.as_str(), 1, &[], &Yields)?;
        assert_eq!(rt; status, Status::Done);
        for _time in 0..4 {
            let status = check_lines(&rt, rt.alloc(), lines.as_str(), 1, &[], &NoGate)?;
            assert_eq!(rt; status, Status::Done);
        }
    }
    Ok(())
}

/// A write that stops, with a loss, its mending and two recoveries beside it.
fn stopped(alloc: Global, head: &[&str], quit: u32) -> Result<String, Fail> {
    let losing = ["host 0", "lose 2", "fit 2", "rebuild 2", "host 1"];
    let mut text = lines_of(alloc, head, &losing)?;
    writeln!(text, "quit {quit} write a 0 41 42")?;
    push_lines(
        &mut text,
        &["read a 0 4", "host 2", "recover 0", "read a 0 4"],
    )?;
    push_lines(&mut text, &["host 3", "recover 0"])?;
    Ok(text)
}

/// Runs with a stop after each of the first twelve requests of the write, and some in which hosts meet.
fn check_stops<R: Threads + Wait + Sync + Abort>(
    rt: &R,
    alloc: Global,
    head: &[&str],
) -> Result<(), Fail> {
    for quit in 1..13 {
        let lines = stopped(alloc, head, quit)?;
        let status = check_lines(rt, alloc, lines.as_str(), 1, &[], &NoGate)?;
        assert_eq!(rt; status, Status::Done);
    }
    for quit in [2, 4, 5, 6, 7, 8, 9, 12] {
        let lines = stopped(alloc, head, quit)?;
        let status = check_lines(rt, alloc, lines.as_str(), 1, &[], &Yields)?;
        assert_eq!(rt; status, Status::Done);
    }
    Ok(())
}

#[test]
fn stops_losses_and_recoveries_are_simulated_by_their_turns(rt: HostRuntime) -> Result<(), Fail> {
    check_stops(&rt, rt.alloc(), STAMPS)?;
    check_stops(&rt, rt.alloc(), LOCKS)
}

/// Four hosts, of which one stops its write and one recovers the row.
const FOUR_HOSTS: [&str; 10] = [
    "host 1",
    "write a 0 41 42",
    "read a 0 4",
    "host 2",
    "quit 7 write a 1 43 44",
    "host 3",
    "recover 0",
    "read a 2 2",
    "host 4",
    "write a 3 45",
];

/// Runs in which one store fails at one call. Only the opening and the end of a run stop at a fault of a store.
fn check_failing<R: Threads + Wait + Sync + Abort>(
    rt: &R,
    alloc: Global,
    lines: &str,
    bay: u8,
) -> Result<(), Fail> {
    for fails in 0..12 {
        let failing = [(u32::from(bay), fails)];
        let status = check_lines(rt, alloc, lines, 1, &failing, &NoGate)?;
        let bay = BayNo(bay);
        assert!(rt; status == Status::Done || status == Status::StoreFault { bay });
        assert!(rt; fails > 0 || status != Status::Done);
    }
    Ok(())
}

#[test]
fn runs_over_failing_stores_are_simulated_by_their_turns(rt: HostRuntime) -> Result<(), Fail> {
    for head in [STAMPS, LOCKS] {
        let lines = lines_of(rt.alloc(), head, &FOUR_HOSTS)?;
        for bay in 0..5 {
            check_failing(&rt, rt.alloc(), lines.as_str(), bay)?;
        }
    }
    Ok(())
}
