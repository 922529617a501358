//! Plays in which hosts meet one another: what is refused, and what stays behind a host that stops.

use crate::playing::{FIVE, Play, check};
use crate::texts::LOCKS;
use std::test::Fail;

/// The claim of the unit comes behind a read with a greater number.
#[test]
fn a_claim_behind_a_read_is_late(rt: HostRuntime) -> Result<(), Fail> {
    let play = Play {
        hosts: &["host 1", "write a 0 41", "host 2", "read a 0 1"],
        turns: &[(2, 1, 1)],
        results: &["1 0 wrote 17", "2 0 read 2 00"],
        count: 9,
        rounds: &[(1, 2, 9)],
        blocks: &["41", "00", "00", "00"],
        ..FIVE
    };
    check(&rt, rt.alloc(), &[play])
}

#[test]
fn a_note_of_another_host_gives_up_a_write(rt: HostRuntime) -> Result<(), Fail> {
    let play = Play {
        hosts: &["host 1", "write a 0 41", "host 2", "write a 0 42"],
        turns: &[(1, 1, 1), (2, 2, 3)],
        results: &["1 0 wrote 1", "2 0 gave 2 busy 1 1"],
        count: 7,
        rounds: &[(1, 4, 7)],
        blocks: &["41", "00", "00", "00"],
        ..FIVE
    };
    check(&rt, rt.alloc(), &[play])
}

/// Each try of the write claims the parity, meets the reader, and releases the parity.
#[test]
fn a_reader_of_another_host_gives_up_a_write(rt: HostRuntime) -> Result<(), Fail> {
    let play = Play {
        head: LOCKS,
        hosts: &["host 1", "write a 0 41", "host 2", "read a 0 1"],
        turns: &[(2, 1, 1), (1, 2, 7)],
        results: &["1 0 gave 2 busy 2 2", "2 0 read 18 00"],
        count: 8,
        rounds: &[(2, 8, 8)],
        ..FIVE
    };
    check(&rt, rt.alloc(), &[play])
}

/// A read has met a missing device. Before it goes on, that device is rebuilt and the next one lost.
#[test]
fn a_read_that_meets_two_missing_devices_is_refused(rt: HostRuntime) -> Result<(), Fail> {
    let play = Play {
        head: &[
            "raid 1",
            "devices 5",
            "rows 1",
            "mode order",
            "patience 3",
            "tries 1",
            "object a 0",
        ],
        hosts: &[
            "host 0",
            "lose 0",
            "fit 0",
            "rebuild 0",
            "lose 1",
            "host 1",
            "read a 0 1",
        ],
        turns: &[(0, 1, 1), (1, 2, 3), (0, 4, 16)],
        results: &[
            "0 0 lost",
            "0 1 fitted",
            "0 2 rebuilt",
            "0 3 lost",
            "1 0 gave 1 broken 0 1",
        ],
        count: 17,
        rounds: &[(1, 17, 17)],
        ..FIVE
    };
    check(&rt, rt.alloc(), &[play])
}

#[test]
fn a_stopped_reader_goes_with_a_recovery(rt: HostRuntime) -> Result<(), Fail> {
    let play = Play {
        head: LOCKS,
        hosts: &[
            "host 1",
            "quit 1 read a 0 1",
            "host 2",
            "recover 0",
            "write a 0 41",
        ],
        turns: &[(1, 1, 1), (2, 10, 25)],
        results: &[
            "1 0 gave 1 quit",
            "2 0 recovered 18 closed none",
            "2 1 wrote 50",
        ],
        count: 17,
        blocks: &["41", "00", "00", "00"],
        ..FIVE
    };
    check(&rt, rt.alloc(), &[play])
}

/// The notes on the units stay.
#[test]
fn a_recovery_that_stops_after_its_put_is_open(rt: HostRuntime) -> Result<(), Fail> {
    let play = Play {
        hosts: &["host 1", "quit 7 recover 0"],
        results: &["1 0 recovered 17 open none"],
        count: 7,
        rounds: &[(1, 1, 7)],
        rows: &["open"],
        ..FIVE
    };
    check(&rt, rt.alloc(), &[play])
}

#[test]
fn a_rebuild_stops_between_two_rows(rt: HostRuntime) -> Result<(), Fail> {
    let play = Play {
        head: &[
            "raid 1",
            "devices 5",
            "rows 2",
            "mode order",
            "patience 3",
            "tries 2",
            "object a 0 1",
        ],
        hosts: &["host 0", "lose 0", "fit 0", "quit 11 rebuild 0"],
        results: &["0 0 lost", "0 1 fitted", "0 2 gave 1 quit"],
        count: 13,
        rounds: &[(0, 1, 13)],
        blocks: &["00"; 8],
        rows: &["closed", "closed"],
        ..FIVE
    };
    check(&rt, rt.alloc(), &[play])
}
