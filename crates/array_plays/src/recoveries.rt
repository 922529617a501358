//! Plays in which a row is recovered behind a host that stopped, or beside one that goes on.

use crate::playing::{FIVE, Play, check};
use std::test::Fail;

#[test]
fn only_the_operator_recovers_without_parity(rt: HostRuntime) -> Result<(), Fail> {
    let other = Play {
        hosts: &["host 0", "lose 4", "host 2", "recover 0"],
        turns: &[(0, 1, 1)],
        results: &["0 0 lost", "2 0 gave 2 gone 4"],
        count: 3,
        rounds: &[(2, 2, 3)],
        ..FIVE
    };
    let operator = Play {
        hosts: &["host 0", "lose 4", "recover 0"],
        turns: &[],
        results: &["0 0 lost", "0 1 recovered 32 closed none"],
        count: 11,
        rounds: &[(0, 1, 11)],
        ..other
    };
    check(&rt, rt.alloc(), &[other, operator])
}

#[test]
fn a_stopped_write_is_closed_by_a_recovery(rt: HostRuntime) -> Result<(), Fail> {
    let play = Play {
        hosts: &["host 1", "quit 7 write a 0 41 42", "host 2", "recover 0"],
        turns: &[(1, 1, 7)],
        results: &["1 0 part 1 10 quit", "2 0 recovered 18 closed none"],
        count: 18,
        rounds: &[(2, 8, 18)],
        blocks: &["41", "00", "00", "00"],
        ..FIVE
    };
    check(&rt, rt.alloc(), &[play])
}

/// A write has put one of its two blocks when its host stops, and then a block is lost that it did not write.
#[test]
fn a_torn_row_loses_its_missing_block(rt: HostRuntime) -> Result<(), Fail> {
    let play = Play {
        hosts: &[
            "host 0",
            "lose 2",
            "host 1",
            "quit 7 write a 0 41 42",
            "host 2",
            "recover 0",
            "read a 2 1",
            "write a 2 55",
            "read a 2 1",
        ],
        turns: &[(1, 1, 7), (0, 8, 8)],
        results: &[
            "0 0 lost",
            "1 0 part 1 10 quit",
            "2 0 recovered 18 closed unit 2",
            "2 1 read 34 lost",
            "2 2 wrote 50",
            "2 3 read 66 55",
        ],
        count: 35,
        rounds: &[(2, 9, 35)],
        blocks: &["41", "00", "55", "00"],
        ..FIVE
    };
    check(&rt, rt.alloc(), &[play])
}

/// The first recovery stops with three notes seized. The second one is told by the notes whose write it was.
#[test]
fn a_second_recovery_knows_whose_write_it_was(rt: HostRuntime) -> Result<(), Fail> {
    let play = Play {
        hosts: &[
            "host 0",
            "lose 2",
            "host 1",
            "quit 7 write a 0 41 42",
            "host 2",
            "quit 3 recover 0",
            "host 3",
            "recover 0",
        ],
        turns: &[(1, 1, 7), (0, 8, 8), (2, 9, 11)],
        results: &[
            "0 0 lost",
            "1 0 part 1 10 quit",
            "2 0 gave 1 quit",
            "3 0 recovered 19 closed unit 2",
        ],
        count: 21,
        rounds: &[(3, 12, 21)],
        blocks: &["41", "00", "lost", "00"],
        ..FIVE
    };
    check(&rt, rt.alloc(), &[play])
}

/// A write stops before its first put in a row whose block of another device is missing.
#[test]
fn an_open_row_hides_its_missing_block(rt: HostRuntime) -> Result<(), Fail> {
    let hidden = Play {
        hosts: &["host 0", "lose 2", "host 1", "quit 3 write a 0 41"],
        turns: &[(0, 1, 1), (1, 2, 4)],
        results: &["0 0 lost", "1 0 gave 1 quit"],
        count: 4,
        blocks: &["00", "00", "hidden", "00"],
        rows: &["open"],
        ..FIVE
    };
    let shown = Play {
        hosts: &[
            "host 0",
            "lose 2",
            "host 1",
            "quit 3 write a 0 41",
            "host 2",
            "recover 0",
        ],
        turns: &[(0, 1, 1), (1, 2, 4), (2, 10, 19)],
        results: &[
            "0 0 lost",
            "1 0 gave 1 quit",
            "2 0 recovered 18 closed none",
        ],
        count: 14,
        ..FIVE
    };
    check(&rt, rt.alloc(), &[hidden, shown])
}

/// A recovery seizes the notes of a write that goes on: before its first put, between its puts of blocks, and of the parity
/// alone.
#[test]
fn a_seized_note_stops_the_put(rt: HostRuntime) -> Result<(), Fail> {
    let none = Play {
        hosts: &["host 1", "write a 0 41 42", "host 2", "recover 0"],
        turns: &[(1, 1, 6), (2, 10, 11), (1, 12, 12)],
        results: &["1 0 part 1 00 seized 0", "2 0 recovered 18 closed none"],
        count: 18,
        rounds: &[(2, 13, 21)],
        ..FIVE
    };
    let one = Play {
        turns: &[
            (1, 1, 6),
            (2, 10, 10),
            (1, 11, 11),
            (2, 12, 13),
            (1, 14, 14),
        ],
        results: &["1 0 part 1 10 seized 0", "2 0 recovered 18 closed none"],
        count: 19,
        rounds: &[(2, 15, 22)],
        blocks: &["41", "00", "00", "00"],
        ..none
    };
    let both = Play {
        turns: &[(1, 1, 6), (2, 10, 10), (1, 11, 13)],
        results: &["1 0 wrote 1", "2 0 recovered 18 closed none"],
        count: 20,
        rounds: &[(2, 14, 23)],
        blocks: &["41", "42", "00", "00"],
        ..none
    };
    check(&rt, rt.alloc(), &[none, one, both])
}

/// The notes of the write are of the moments 1, 4 and 5, and the patience is 3.
#[test]
fn a_young_note_is_not_seized(rt: HostRuntime) -> Result<(), Fail> {
    let play = Play {
        hosts: &["host 1", "quit 1 write a 0 41 42", "host 2", "recover 0"],
        turns: &[(1, 1, 1), (2, 2, 3)],
        results: &["1 0 gave 1 quit", "2 0 gave 2 young 1 1"],
        count: 3,
        rows: &["open"],
        ..FIVE
    };
    check(&rt, rt.alloc(), &[play])
}
