//! Plays in which devices are lost, fitted and rebuilt.

use crate::playing::{FIVE, Play, check};
use crate::texts::{LOCKS, THREE};
use std::test::Fail;

/// The device is released by a read that holds a reader of the life before.
#[test]
fn a_reader_on_a_lost_device_does_not_count(rt: HostRuntime) -> Result<(), Fail> {
    let play = Play {
        head: LOCKS,
        hosts: &["host 0", "lose 0", "host 1", "read a 0 1"],
        turns: &[(1, 1, 1), (0, 2, 2)],
        results: &["0 0 lost", "1 0 read 49 00"],
        count: 12,
        rounds: &[(1, 3, 12)],
        ..FIVE
    };
    check(&rt, rt.alloc(), &[play])
}

#[test]
fn a_lost_block_is_read_from_the_others(rt: HostRuntime) -> Result<(), Fail> {
    let refitted = Play {
        hosts: &[
            "host 0",
            "lose 0",
            "fit 0",
            "host 1",
            "read a 0 1",
            "read a 0 1",
            "read a 0 1",
        ],
        turns: &[(1, 1, 1), (0, 2, 2), (1, 3, 7), (0, 8, 8)],
        results: &[
            "0 0 lost",
            "0 1 fitted",
            "1 0 read 1 00",
            "1 1 read 17 00",
            "1 2 read 33 00",
        ],
        count: 13,
        rounds: &[(1, 9, 13)],
        ..FIVE
    };
    let behind = Play {
        hosts: &[
            "host 0",
            "lose 0",
            "host 1",
            "read a 0 1",
            "host 3",
            "read a 0 1",
        ],
        turns: &[(3, 1, 1), (0, 2, 2)],
        results: &["0 0 lost", "1 0 read 17 00", "3 0 read 3 00"],
        count: 8,
        rounds: &[(1, 3, 8)],
        ..FIVE
    };
    check(&rt, rt.alloc(), &[refitted, behind])
}

#[test]
fn one_device_at_most_is_gone(rt: HostRuntime) -> Result<(), Fail> {
    let refused = Play {
        hosts: &["host 0", "lose 0", "lose 1", "fit 1"],
        results: &["0 0 lost", "0 1 still 0", "0 2 notlost 1"],
        count: 1,
        rounds: &[(0, 1, 1)],
        ..FIVE
    };
    let next = Play {
        head: THREE,
        hosts: &["host 0", "lose 1", "lose 2", "fit 1", "rebuild 1", "lose 2"],
        results: &[
            "0 0 lost",
            "0 1 still 1",
            "0 2 fitted",
            "0 3 rebuilt",
            "0 4 lost",
        ],
        count: 10,
        rounds: &[(0, 1, 10)],
        blocks: &["00", "00"],
        ..FIVE
    };
    check(&rt, rt.alloc(), &[refused, next])
}

#[test]
fn a_lost_device_is_rebuilt(rt: HostRuntime) -> Result<(), Fail> {
    let play = Play {
        hosts: &[
            "host 0",
            "lose 0",
            "fit 0",
            "rebuild 0",
            "host 1",
            "write a 0 41",
            "read a 0 1",
            "read a 0 1",
            "read a 0 1",
        ],
        turns: &[
            (1, 1, 5),
            (0, 6, 6),
            (1, 7, 11),
            (0, 12, 12),
            (1, 13, 17),
            (0, 18, 28),
            (1, 29, 29),
        ],
        results: &[
            "0 0 lost",
            "0 1 fitted",
            "0 2 rebuilt",
            "1 0 wrote 1",
            "1 1 read 17 41",
            "1 2 read 33 41",
            "1 3 read 49 41",
        ],
        count: 29,
        blocks: &["41", "00", "00", "00"],
        ..FIVE
    };
    check(&rt, rt.alloc(), &[play])
}

/// The device of the block is gone before the write, and between the put of the block and that of the parity.
#[test]
fn a_lost_block_is_written_through_the_parity(rt: HostRuntime) -> Result<(), Fail> {
    let before = Play {
        hosts: &[
            "host 0",
            "lose 0",
            "host 1",
            "write a 0 42",
            "host 3",
            "read a 0 1",
        ],
        turns: &[(3, 1, 1), (0, 2, 2), (1, 3, 12)],
        results: &["0 0 lost", "1 0 wrote 17", "3 0 read 3 00"],
        count: 12,
        blocks: &["42", "00", "00", "00"],
        ..FIVE
    };
    let between = Play {
        hosts: &["host 0", "lose 0", "host 1", "write a 0 41", "read a 0 1"],
        turns: &[(1, 1, 4), (0, 5, 5), (1, 6, 11)],
        results: &["0 0 lost", "1 0 wrote 1", "1 1 read 17 41"],
        count: 11,
        blocks: &["41", "00", "00", "00"],
        ..FIVE
    };
    check(&rt, rt.alloc(), &[before, between])
}

#[test]
fn a_write_whose_parity_is_lost_begins_anew(rt: HostRuntime) -> Result<(), Fail> {
    let play = Play {
        hosts: &["host 0", "lose 4", "host 1", "write a 0 41"],
        turns: &[(1, 1, 2), (0, 3, 3)],
        results: &["0 0 lost", "1 0 wrote 17"],
        count: 10,
        rounds: &[(1, 4, 10)],
        blocks: &["41", "00", "00", "00"],
        ..FIVE
    };
    check(&rt, rt.alloc(), &[play])
}
