//! Writes whose puts are not all done, also of a unit of each of two rows. Row 6 has its parity on bay 1 and its units on
//! bays 2, 3 and 0.

use crate::parts::two_rows;
use crate::rows::{HELD, ID, ROW, Step};
use crate::write_steps::{
    BLOCKS, RENEWED, ROBBED, claim, confirm, part, put, puts, shown, writes, writes_two, wrote,
};
use raid_base::{BayNo, Cause, Ended, Mode, Reply, Request, RowNo};
use std::process::Abort;

/// A step of the row 6.
fn next_row(step: Step) -> Step {
    let (bay, request, reply) = step?;
    let row = RowNo(6);
    let request = match request {
        Request::Claim {
            id,
            how,
            mask,
            want,
            ..
        } => Request::Claim {
            row,
            id,
            how,
            mask,
            want,
        },
        Request::Confirm { id, want, .. } => Request::Confirm { row, id, want },
        Request::Put {
            id,
            number,
            cell,
            ..
        } => Request::Put {
            row,
            id,
            number,
            cell,
        },
        Request::Release { id, number, .. } => Request::Release { row, id, number },
        Request::Share { id, want, .. } => Request::Share { row, id, want },
        Request::Lose => Request::Lose,
        Request::Fit => Request::Fit,
    };
    Some((bay, request, reply))
}

/// Writes a unit of each of two rows under stamps with these replies.
fn writes_rows(rt: &impl Abort, steps: &[Step], ended: Ended) {
    writes(rt, Mode::Order, two_rows(), &BLOCKS[..2], steps, ended);
}

#[test]
fn puts_that_are_not_done_leave_units_or_stop_the_row(rt: HostRuntime) {
    let seized = Cause::Seized { row: ROW };
    let fault = |bay| Cause::Fault { bay: BayNo(bay) };
    let done = Reply::Done;
    let second = |reply| put(0, 9, reply);
    let parity = |reply| put(2, 5, reply);
    let cases = [
        (puts(RENEWED, second(done), parity(done)), wrote(17)),
        (puts(done, second(RENEWED), parity(done)), wrote(17)),
        (puts(RENEWED, second(done), parity(ROBBED)), part(2, seized)),
        (puts(ROBBED, None, None), part(0, seized)),
        (puts(done, second(ROBBED), None), part(1, seized)),
        (puts(Reply::Fault, None, None), part(0, fault(3))),
        (puts(done, second(Reply::Fault), None), part(1, fault(0))),
        (puts(done, second(done), parity(ROBBED)), wrote(17)),
        (puts(done, second(done), parity(RENEWED)), wrote(17)),
        (
            puts(done, second(done), parity(Reply::Fault)),
            part(3, fault(2)),
        ),
        (
            puts(RENEWED, second(done), parity(Reply::Fault)),
            part(2, seized),
        ),
    ];
    for (steps, ended) in cases {
        writes_two(&rt, &steps, ended);
    }
}

/// The steps of a write of unit 2 of row 5 and unit 0 of row 6, with the replies to its puts.
fn puts_of_rows(first: Reply, parity: Step, second: Reply, last: Step) -> [Step; 10] {
    [
        claim(2, 4, true, shown(7)),
        claim(1, 0, true, shown(4)),
        next_row(claim(1, 1, true, shown(7))),
        next_row(claim(2, 0, true, shown(1))),
        confirm(false, HELD),
        next_row(Some((
            1,
            Request::Confirm {
                row: ROW,
                id: ID,
                want: false,
            },
            HELD,
        ))),
        put(1, 8, first),
        parity,
        next_row(put(2, 9, second)),
        next_row(last),
    ]
}

#[test]
fn the_first_put_that_counts_gives_the_cause(rt: HostRuntime) {
    let seized = Cause::Seized { row: ROW };
    let later = Cause::Seized { row: RowNo(6) };
    let fault = |bay| Cause::Fault { bay: BayNo(bay) };
    let done = Reply::Done;
    let parity = put(2, 11, done);
    let last = put(1, 15, done);
    let cases = [
        (puts_of_rows(done, parity, done, last), wrote(17)),
        (
            puts_of_rows(ROBBED, None, Reply::Fault, None),
            part(0, seized),
        ),
        (
            puts_of_rows(Reply::Fault, None, ROBBED, None),
            part(0, fault(1)),
        ),
        (
            puts_of_rows(RENEWED, parity, Reply::Fault, None),
            part(1, fault(2)),
        ),
        (puts_of_rows(RENEWED, parity, ROBBED, None), part(1, later)),
        (puts_of_rows(ROBBED, None, done, last), part(2, seized)),
    ];
    for (steps, ended) in cases {
        writes_rows(&rt, &steps, ended);
    }
}
