//! Plays over stores that fail.

use crate::playing::{FIVE, Play, check, end};
use crate::texts::{STAMPS, THREE, script_of};
use raid_base::{BayNo, Status};
use std::test::Fail;

/// Bay 0 is asked to clear its row, for the block, and to put it, and at the end for its cell.
#[test]
fn a_store_that_fails_while_playing_is_a_cause(rt: HostRuntime) -> Result<(), Fail> {
    let reading = Play {
        hosts: &["host 1", "write a 0 41"],
        failing: &[(0, 1)],
        results: &["1 0 wrote 17"],
        count: 8,
        rounds: &[(1, 1, 8)],
        blocks: &["41", "00", "00", "00"],
        ..FIVE
    };
    let putting = Play {
        hosts: &["host 1", "write a 0 41"],
        failing: &[(0, 2)],
        results: &["1 0 part 1 0 fault 0"],
        count: 4,
        rounds: &[(1, 1, 4)],
        rows: &["open"],
        ..FIVE
    };
    let recovered = Play {
        hosts: &["host 1", "write a 0 41", "recover 0"],
        results: &["1 0 part 1 0 fault 0", "1 1 recovered 33 closed none"],
        count: 15,
        rounds: &[(1, 1, 15)],
        rows: &["closed"],
        ..putting
    };
    check(&rt, rt.alloc(), &[reading, putting, recovered])
}

/// The same on the smallest array: the put of the block fails, then its read, then the share of the other block by the write,
/// and at last the put of the parity.
#[test]
fn each_call_of_a_play_may_fail(rt: HostRuntime) -> Result<(), Fail> {
    let put = Play {
        head: THREE,
        hosts: &["host 1", "write a 0 41", "read a 0 1"],
        failing: &[(0, 1)],
        results: &["1 0 part 1 0 fault 0", "1 1 gave 2 busy 1 1"],
        count: 7,
        rounds: &[(1, 1, 7)],
        blocks: &["00", "00"],
        rows: &["open"],
        ..FIVE
    };
    let read = Play {
        failing: &[(0, 2)],
        results: &["1 0 wrote 1", "1 1 read 33 41"],
        count: 8,
        rounds: &[(1, 1, 8)],
        blocks: &["41", "00"],
        rows: &["closed"],
        ..put
    };
    let share = Play {
        failing: &[(1, 1)],
        results: &["1 0 wrote 17", "1 1 read 33 41"],
        count: 10,
        rounds: &[(1, 1, 10)],
        ..read
    };
    let parity = Play {
        failing: &[(2, 1)],
        results: &["1 0 part 1 1 fault 2", "1 1 read 17 41"],
        count: 7,
        rounds: &[(1, 1, 7)],
        rows: &["open"],
        ..read
    };
    check(&rt, rt.alloc(), &[put, read, share, parity])
}

/// Each store is asked for its cell once more at the end. That is no request, so no bay answers for it.
#[test]
fn a_store_that_fails_at_the_end_is_named(rt: HostRuntime) -> Result<(), Fail> {
    let hosts = ["host 1", "write a 0 41"];
    let script = script_of(rt.alloc(), STAMPS, &hosts, &[])?;
    let table: [(u8, &[(u32, u32)], usize); 4] = [
        (0, &[(0, 3)], 5),
        (4, &[(4, 3)], 5),
        (3, &[(4, 3), (3, 1)], 5),
        (0, &[(0, 1), (0, 4)], 8),
    ];
    for (bay, failing, turns) in table {
        let (ending, printed) = end(rt.alloc(), script.as_str(), 1, failing)?;
        let bay = BayNo(bay);
        assert!(rt; printed.is_empty());
        assert!(rt; ending.status == Status::StoreFault { bay } && ending.is_back);
        assert!(rt; ending.journals == 5 && ending.results == 1);
        assert_eq!(rt; ending.turns, turns);
    }
    Ok(())
}
