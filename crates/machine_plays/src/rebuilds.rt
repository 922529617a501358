//! Rebuilds of row 5.
ghost use Rattle.std.specs.Prelude.{◌<◌};

use crate::rows::{HELD, ID, NOTE, ROW, Step, granted};
use place_numbers::Numbers;
use raid_base::{
    BayNo, Cause, Cell, Ended, HostNo, How, NUMBERS_END, Number, Reply, Request, RowNo,
};
use rebuild_txn::MendTry;
use std::process::Abort;

fn cell(byte: u8, lost: u16) -> Cell {
    Cell {
        bytes: [byte; 64],
        lost,
    }
}

/// A claim that shows a cell of these bytes.
fn shown(bay: u8, byte: u8) -> Step {
    claim(bay, granted(Some(cell(byte, 0)), 40))
}

fn claim(bay: u8, reply: Reply) -> Step {
    let request = Request::Claim {
        row: ROW,
        id: ID,
        how: How::Mend,
        mask: 0,
        want: true,
    };
    Some((bay, request, reply))
}

fn confirm(reply: Reply) -> Step {
    let request = Request::Confirm {
        row: ROW,
        id: ID,
        want: false,
    };
    Some((2, request, reply))
}

fn put(bay: u8, cell: Cell, reply: Reply) -> Step {
    let request = Request::Put {
        row: ROW,
        id: ID,
        number: Number(49),
        cell,
    };
    Some((bay, request, reply))
}

/// A release, whose reply doesn't matter.
fn release(bay: u8) -> Step {
    let request = Request::Release {
        row: ROW,
        id: ID,
        number: None,
    };
    Some((bay, request, Reply::NoNote { life: 1 }))
}

/// Rebuilds the row on the target with these replies, and compares the requests and the end.
fn rebuilds(rt: &impl Abort, target: u8, steps: &[Step], ended: Ended)
    requires { target < 4 }
{
    let mut rebuild = MendTry::begin(4, ID, ROW, BayNo(target));
    follows(rt, &mut rebuild, steps, ended);
}

/// Goes through a rebuild with these replies, and compares the requests and the end.
fn follows(rt: &impl Abort, rebuild: &mut MendTry, steps: &[Step], ended: Ended) {
    let mut numbers = Numbers::new(HostNo(1));
    numbers.see(ID);
    for step in steps {
        let Some((bay, request, reply)) = *step else {
            continue;
        };
        let next = rebuild.next(&[]);
        assert_eq!(rt; next, Some((BayNo(bay), request)));
        assert_eq!(rt; rebuild.end(), None);
        if next.is_some() {
            assert_eq!(rt; rebuild.quit(), Ended::Refused(Cause::Quit));
            rebuild.take(&[], &reply, &mut numbers);
        }
    }
    assert_eq!(rt; rebuild.next(&[]), None);
    assert_eq!(rt; rebuild.end(), Some(ended));
}

/// The steps of a rebuild of unit 1, which showed no cell, with the cell that is put.
fn unit_steps(parity: Reply, rebuilt: Cell) -> [Step; 9] {
    [
        claim(2, parity),
        shown(3, 1),
        claim(0, granted(None, 12)),
        shown(1, 4),
        confirm(HELD),
        put(0, rebuilt, Reply::Done),
        release(3),
        release(1),
        release(2),
    ]
}

#[test]
fn puts_what_the_others_make_of_the_cell(rt: HostRuntime) {
    let unit = unit_steps(granted(Some(cell(7, 0)), 40), cell(2, 0));
    rebuilds(&rt, 0, &unit, Ended::Mended);
    let lost_unit = unit_steps(granted(Some(cell(5, 2)), 40), cell(0, 2));
    rebuilds(&rt, 0, &lost_unit, Ended::Mended);
    let parity = [
        claim(2, granted(None, 12)),
        shown(3, 1),
        claim(0, granted(Some(cell(0, 2)), 40)),
        shown(1, 4),
        confirm(HELD),
        put(2, cell(5, 2), Reply::Done),
        release(3),
        release(0),
        release(1),
    ];
    rebuilds(&rt, 2, &parity, Ended::Mended);
}

#[test]
fn a_cell_that_is_shown_is_left(rt: HostRuntime) {
    let steps = [
        shown(2, 7),
        shown(3, 1),
        shown(0, 2),
        shown(1, 4),
        confirm(HELD),
        release(3),
        release(0),
        release(1),
        release(2),
    ];
    rebuilds(&rt, 0, &steps, Ended::Mended);
}

#[test]
fn refusals_give_back_what_is_held(rt: HostRuntime) {
    let gone = |bay| Ended::Refused(Cause::Gone { bay: BayNo(bay) });
    let bare = [
        shown(2, 7),
        claim(3, granted(None, 0)),
        release(3),
        release(2),
    ];
    rebuilds(&rt, 0, &bare, gone(3));
    let missing = [claim(2, Reply::Missing { floor: Number(9) })];
    rebuilds(&rt, 2, &missing, gone(2));
    let busy = [
        shown(2, 7),
        shown(3, 1),
        shown(0, 2),
        claim(1, Reply::Busy { holder: NOTE }),
        release(3),
        release(0),
        release(2),
    ];
    rebuilds(&rt, 0, &busy, Ended::Refused(Cause::Busy { holder: NOTE }));
}

#[test]
fn replies_to_a_claim_refuse_with_their_causes(rt: HostRuntime) {
    let above = Number(48);
    let bay = BayNo(3);
    let cases = [
        (Reply::Late { above }, Cause::Late { above }),
        (Reply::Young { note: NOTE }, Cause::Young { note: NOTE }),
        (Reply::Fault, Cause::Fault { bay }),
        (Reply::Missing { floor: Number(17) }, Cause::Gone { bay }),
    ];
    for (reply, cause) in cases {
        let steps = [shown(2, 7), claim(3, reply), release(2)];
        rebuilds(&rt, 0, &steps, Ended::Refused(cause));
    }
}

/// The steps of a rebuild that is refused after its claims, at the confirm or at the put.
fn refused(last_write: u64, confirmed: Step, done: Step) -> [Step; 10] {
    [
        claim(2, granted(Some(cell(7, 0)), last_write)),
        shown(3, 1),
        claim(0, granted(None, 0)),
        shown(1, 4),
        confirmed,
        done,
        release(3),
        release(0),
        release(1),
        release(2),
    ]
}

#[test]
fn refusals_after_the_claims_give_all_back(rt: HostRuntime) {
    let changed = Cause::Changed { row: ROW };
    let seized = Cause::Seized { row: ROW };
    let spent = Cause::Spent {
        seen: Number(NUMBERS_END - 1),
    };
    let fault = |bay| Cause::Fault { bay: BayNo(bay) };
    let no_note = Reply::NoNote { life: 0 };
    let not_noted = put(0, cell(2, 0), no_note);
    let failed = put(0, cell(2, 0), Reply::Fault);
    let cases = [
        (refused(40, confirm(no_note), None), changed),
        (refused(40, confirm(Reply::Fault), None), fault(2)),
        (refused(NUMBERS_END - 1, confirm(HELD), None), spent),
        (refused(40, confirm(HELD), not_noted), seized),
        (refused(40, confirm(HELD), failed), fault(0)),
    ];
    for (steps, cause) in cases {
        rebuilds(&rt, 0, &steps, Ended::Refused(cause));
    }
}

/// Takes these replies to whatever is asked.
fn takes(rebuild: &mut MendTry, replies: &[Reply]) {
    let mut numbers = Numbers::new(HostNo(1));
    for reply in replies {
        if rebuild.next(&[]).is_some() {
            rebuild.take(&[], reply, &mut numbers);
        }
    }
}

#[test]
fn a_rebuild_in_the_room_of_another_goes_as_a_fresh_one(rt: HostRuntime) {
    let mut rebuild = MendTry::begin(4, Number(33), RowNo(6), BayNo(1));
    let held = granted(Some(cell(9, 0)), 40);
    takes(&mut rebuild, &[held, held, Reply::Fault]);
    assert!(rt; rebuild.next(&[]).is_some());
    rebuild.renew(4, ID, ROW, BayNo(3));
    let busy = Cause::Busy { holder: NOTE };
    let refused = [
        shown(2, 7),
        claim(3, Reply::Busy { holder: NOTE }),
        release(2),
    ];
    follows(&rt, &mut rebuild, &refused, Ended::Refused(busy));
    rebuild.renew(4, ID, ROW, BayNo(0));
    let steps = unit_steps(granted(Some(cell(7, 0)), 40), cell(2, 0));
    follows(&rt, &mut rebuild, &steps, Ended::Mended);
}
