//! Recoveries of row 5: their requests, with the replies.

use crate::rows::{HELD, ROW, Step};
use place_numbers::Numbers;
use raid_base::{BayNo, Cause, Cell, Ended, HostNo, How, Note, Number, Reply, Request};
use std::process::Abort;
use stripe_recovery::RecoverTry;

pub const OPERATOR: HostNo = HostNo(0);

pub const ID: Number = Number(16);

pub const MISSING: Reply = Reply::Missing { floor: Number(9) };

pub fn cell(byte: u8, lost: u16) -> Cell {
    Cell {
        bytes: [byte; 64],
        lost,
    }
}

/// The note of an attempt that came from attempt 34.
pub fn note(mask: u16) -> Note {
    Note {
        host: HostNo(3),
        id: Number(51),
        origin: Number(34),
        mask,
        moment: 0,
    }
}

/// A cell of these bytes that this attempt put last, and the note that was seized.
pub fn granted(byte: u8, last: u64, seized: Option<Note>) -> Reply {
    Reply::Granted {
        cell: Some(cell(byte, 0)),
        read_no: Number(0),
        write_no: Number(40),
        last: Number(last),
        life: 0,
        seized,
    }
}

pub fn claim_by(id: Number, bay: u8, reply: Reply) -> Step {
    let request = Request::Claim {
        row: ROW,
        id,
        how: How::Seize,
        mask: 0,
        want: true,
    };
    Some((bay, request, reply))
}

pub fn claim(bay: u8, reply: Reply) -> Step {
    claim_by(ID, bay, reply)
}

pub fn confirm(reply: Reply) -> Step {
    let request = Request::Confirm {
        row: ROW,
        id: ID,
        want: false,
    };
    Some((2, request, reply))
}

pub fn put(cell: Cell, reply: Reply) -> Step {
    let request = Request::Put {
        row: ROW,
        id: ID,
        number: Number(48),
        cell,
    };
    Some((2, request, reply))
}

/// A release, whose reply doesn't matter.
pub fn release(bay: u8) -> Step {
    let request = Request::Release {
        row: ROW,
        id: ID,
        number: None,
    };
    Some((bay, request, Reply::NoNote { life: 1 }))
}

pub fn recovered(lost: Option<u8>) -> Ended {
    Ended::Recovered {
        number: Number(48),
        closed: true,
        lost,
    }
}

/// How the recovery ends where the host stops after this step: recovered but not closed once the put is done.
fn stopped_after(step: (u8, Request, Reply), before: Ended, ended: Ended) -> Ended {
    match (step.1, step.2, ended) {
        (Request::Put { .. }, Reply::Done, Ended::Recovered { number, lost, .. }) => {
            Ended::Recovered {
                number,
                closed: false,
                lost,
            }
        }
        _ => before,
    }
}

/// Recovers the row with these replies, and compares the requests and the end.
pub fn recovers(rt: &impl Abort, steps: &[Step], ended: Ended) {
    let mut recovery = RecoverTry::begin(4, OPERATOR, ID, ROW);
    follows(rt, &mut recovery, steps, ended);
}

/// Goes through a recovery with these replies, and compares the requests and the end.
pub fn follows(rt: &impl Abort, recovery: &mut RecoverTry, steps: &[Step], ended: Ended) {
    let mut numbers = Numbers::new(OPERATOR);
    numbers.see(ID);
    let mut stopped = Ended::Refused(Cause::Quit);
    for step in steps {
        let Some((bay, request, reply)) = *step else {
            continue;
        };
        let next = recovery.next(&[]);
        assert_eq!(rt; next, Some((BayNo(bay), request)));
        assert_eq!(rt; recovery.end(), None);
        if next.is_some() {
            assert_eq!(rt; recovery.quit(), stopped);
            recovery.take(&[], &reply, &mut numbers);
        }
        stopped = stopped_after((bay, request, reply), stopped, ended);
    }
    assert_eq!(rt; recovery.next(&[]), None);
    assert_eq!(rt; recovery.end(), Some(ended));
}
