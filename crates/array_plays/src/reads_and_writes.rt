//! Plays of reads and writes that meet one another, by the reports that the rules give for them by hand.

use crate::playing::{FIVE, Play, check};
use crate::texts::LOCKS;
use std::test::Fail;

#[test]
fn a_script_without_hosts_has_a_report(rt: HostRuntime) -> Result<(), Fail> {
    let play = Play {
        head: &[
            "raid 1",
            "devices 3",
            "rows 1",
            "mode order",
            "patience 3",
            "tries 2",
        ],
        blocks: &[],
        ..FIVE
    };
    check(&rt, rt.alloc(), &[play])
}

#[test]
fn a_late_read_is_tried_again(rt: HostRuntime) -> Result<(), Fail> {
    let play = Play {
        hosts: &["host 1", "read a 0 1", "host 2", "write a 0 41"],
        turns: &[(2, 1, 5)],
        results: &["1 0 read 17 41", "2 0 wrote 2"],
        count: 7,
        rounds: &[(1, 6, 7)],
        blocks: &["41", "00", "00", "00"],
        ..FIVE
    };
    check(&rt, rt.alloc(), &[play])
}

#[test]
fn a_reader_that_meets_a_note_is_tried_again(rt: HostRuntime) -> Result<(), Fail> {
    let play = Play {
        hosts: &["host 1", "write a 0 41 42", "host 2", "read a 0 2"],
        turns: &[(1, 1, 7), (2, 8, 9), (1, 10, 11)],
        results: &["1 0 wrote 1", "2 0 read 18 41 42"],
        count: 13,
        rounds: &[(2, 12, 13)],
        blocks: &["41", "42", "00", "00"],
        ..FIVE
    };
    check(&rt, rt.alloc(), &[play])
}

#[test]
fn a_whole_row_is_written_without_a_read(rt: HostRuntime) -> Result<(), Fail> {
    let play = Play {
        hosts: &["host 1", "write a 0 01 02 03 04", "read a 0 4"],
        results: &["1 0 wrote 1", "1 1 read 17 01 02 03 04"],
        count: 15,
        rounds: &[(1, 1, 15)],
        blocks: &["01", "02", "03", "04"],
        ..FIVE
    };
    check(&rt, rt.alloc(), &[play])
}

#[test]
fn a_write_goes_over_two_rows(rt: HostRuntime) -> Result<(), Fail> {
    let play = Play {
        head: &[
            "raid 1",
            "devices 3",
            "rows 2",
            "mode order",
            "patience 3",
            "tries 2",
            "object a 0 1",
        ],
        hosts: &["host 1", "write a 1 41 42 43", "read a 0 4"],
        results: &["1 0 wrote 1", "1 1 read 17 00 41 42 43"],
        count: 17,
        rounds: &[(1, 1, 17)],
        blocks: &["00", "41", "42", "43"],
        rows: &["closed", "closed"],
        ..FIVE
    };
    check(&rt, rt.alloc(), &[play])
}

#[test]
fn jobs_without_parts_end_without_a_request(rt: HostRuntime) -> Result<(), Fail> {
    let play = Play {
        head: &[
            "raid 1",
            "devices 3",
            "rows 9",
            "mode order",
            "patience 3",
            "tries 2",
            "object a 0 1 2 3 4 5 6 7 8",
        ],
        hosts: &["host 1", "read a 0 17", "read a 17 2", "read b 0 1"],
        results: &["1 0 toomanyrows 9", "1 1 pastend 18", "1 2 noobject"],
        blocks: &["00"; 18],
        rows: &["closed"; 9],
        ..FIVE
    };
    check(&rt, rt.alloc(), &[play])
}

/// A write draws its number after its confirm, and a read after its last share. Each releases its readers. The first play has
/// one unit to write, the second two, and in the third the later write is first at the devices.
#[test]
fn under_locks_numbers_are_drawn_late(rt: HostRuntime) -> Result<(), Fail> {
    let one = Play {
        head: LOCKS,
        hosts: &["host 1", "write a 0 41", "read a 0 1"],
        results: &["1 0 wrote 17", "1 1 read 49 41"],
        count: 7,
        rounds: &[(1, 1, 7)],
        blocks: &["41", "00", "00", "00"],
        ..FIVE
    };
    let two = Play {
        hosts: &["host 1", "write a 0 41 42", "read a 0 2"],
        results: &["1 0 wrote 17", "1 1 read 49 41 42"],
        count: 15,
        rounds: &[(1, 1, 15)],
        blocks: &["41", "42", "00", "00"],
        ..one
    };
    let swapped = Play {
        hosts: &["host 1", "write a 0 41", "host 2", "write a 0 42"],
        turns: &[(2, 1, 5)],
        results: &["1 0 wrote 33", "2 0 wrote 18"],
        count: 10,
        rounds: &[(1, 6, 10)],
        ..one
    };
    check(&rt, rt.alloc(), &[one, two, swapped])
}
