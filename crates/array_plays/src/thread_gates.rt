//! A run in which several hosts are inside of bays at once.

use crate::texts::{STAMPS, lines_of};
use crate::thread_runs::check_lines;
use rack_turns::Gate;
use raid_base::{BayNo, HostNo, Status};
use std::sync::atomic::{AtomicBool, AtomicU64, Ordering};
use std::test::Fail;
use std::thread;

/// How often the held host looks for the other before it gives up.
const LOOKS: u64 = 20_000_000;

/// Holds host 1 inside of bay 4, the first time that it comes there, until host 2 has come inside of bay 1 a second time.
#[derive(Drop)]
struct Holds {
    came: AtomicBool,
    visits: AtomicU64,
    is_over: AtomicBool,
}

impl Gate for Holds {
    fn inside(&self, host: HostNo, bay: BayNo) {
        if host == HostNo(2) && bay == BayNo(1) {
            self.visits.fetch_add(1, Ordering::SeqCst);
        }
        if host == HostNo(1) && bay == BayNo(4) && !self.came.load(Ordering::SeqCst) {
            self.came.store(true, Ordering::SeqCst);
            self.is_over
                .store(seen_twice(&self.visits), Ordering::SeqCst);
        }
    }
}

/// Waits for a second visit, for a while. False where none has come.
fn seen_twice(visits: &AtomicU64) -> bool {
    for _look in 0..LOOKS {
        if visits.load(Ordering::SeqCst) >= 2 {
            return true;
        }
        thread::yield_now();
    }
    false
}

/// The first host writes bays 0 and 4, and the second reads bay 1 twice meanwhile.
const HOSTS: [&str; 13] = [
    "host 1",
    "write a 0 41",
    "read a 0 1",
    "host 2",
    "read a 1 1",
    "read a 1 1",
    "write a 1 42",
    "host 3",
    "write a 2 43",
    "read a 2 1",
    "host 4",
    "write a 3 44",
    "read a 3 1",
];

#[test]
fn a_host_held_inside_a_bay_holds_up_no_host_at_another(rt: HostRuntime) -> Result<(), Fail> {
    let lines = lines_of(rt.alloc(), STAMPS, &HOSTS)?;
    let gate = Holds {
        came: AtomicBool::new(false),
        visits: AtomicU64::new(0),
        is_over: AtomicBool::new(false),
    };
    let status = check_lines(&rt, rt.alloc(), lines.as_str(), 1, &[], &gate)?;
    assert_eq!(rt; status, Status::Done);
    assert!(rt; gate.came.load(Ordering::SeqCst));
    assert!(rt; gate.is_over.load(Ordering::SeqCst));
    Ok(())
}
