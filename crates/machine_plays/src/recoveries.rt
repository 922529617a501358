//! What recoveries put, name lost and keep.

use crate::recovery_steps::{
    ID, MISSING, OPERATOR, cell, claim, claim_by, confirm, follows, granted, note, put, recovered,
    recovers, release,
};
use crate::rows::{HELD, ROW, Step};
use place_numbers::Numbers;
use raid_base::{BayNo, Cause, Ended, HostNo, NUMBERS_END, Number, Reply, RowNo};
use stripe_recovery::RecoverTry;

#[test]
fn sums_a_whole_row(rt: HostRuntime) {
    let lost_unit = Reply::Granted {
        cell: Some(cell(0, 2)),
        read_no: Number(0),
        write_no: Number(0),
        last: Number(0),
        life: 0,
        seized: None,
    };
    for (unit, sum) in [(granted(2, 0, None), cell(7, 0)), (lost_unit, cell(5, 2))] {
        let steps = [
            claim(2, granted(9, 0, Some(note(3)))),
            claim(3, granted(1, 34, None)),
            claim(0, unit),
            claim(1, granted(4, 0, Some(note(0)))),
            confirm(HELD),
            put(sum, Reply::Done),
            release(3),
            release(0),
            release(1),
        ];
        recovers(&rt, &steps, recovered(None));
    }
}

#[test]
fn names_the_missing_unit_of_a_torn_row_alone(rt: HostRuntime) {
    let cases = [
        (Some(note(2)), 0, 0, true),
        (Some(note(1)), 34, 0, true),
        (Some(note(4)), 0, 34, true),
        (Some(note(1)), 33, 34, false),
        (Some(note(0)), 34, 34, false),
        (None, 34, 34, false),
    ];
    for (seized, first, last, torn) in cases {
        let lost = if torn { Some(1) } else { None };
        let put = if torn {
            put(cell(5, 2), Reply::Done)
        } else {
            None
        };
        let parity = if torn { None } else { release(2) };
        let steps = [
            claim(2, granted(7, 0, seized)),
            claim(3, granted(1, first, None)),
            claim(0, MISSING),
            claim(1, granted(4, last, None)),
            confirm(HELD),
            put,
            release(3),
            release(1),
            parity,
        ];
        recovers(&rt, &steps, recovered(lost));
    }
}

#[test]
fn only_the_operator_recovers_a_row_without_its_parity(rt: HostRuntime) {
    let steps = [
        claim(2, MISSING),
        claim(3, granted(1, 0, None)),
        claim(0, granted(2, 0, None)),
        claim(1, granted(4, 0, None)),
        confirm(MISSING),
        release(3),
        release(0),
        release(1),
    ];
    recovers(&rt, &steps, recovered(None));
    let mut numbers = Numbers::new(HostNo(1));
    let mut recovery = RecoverTry::begin(4, HostNo(1), Number(17), ROW);
    if recovery.next(&[]).is_some() {
        recovery.take(&[], &MISSING, &mut numbers);
    }
    let gone = Ended::Refused(Cause::Gone { bay: BayNo(2) });
    assert_eq!(rt; recovery.end(), Some(gone));
}

/// The steps of a recovery that is refused at the confirm or at the put. It seized the note of unit 1.
fn refused(parity: Reply, confirmed: Step, done: Step, last: Step) -> [Step; 9] {
    [
        claim(2, parity),
        claim(3, granted(1, 0, None)),
        claim(0, granted(2, 0, Some(note(0)))),
        claim(1, granted(4, 0, None)),
        confirmed,
        done,
        release(3),
        release(1),
        last,
    ]
}

#[test]
fn a_refused_recovery_keeps_what_it_seized(rt: HostRuntime) {
    let changed = Cause::Changed { row: ROW };
    let fault = Cause::Fault { bay: BayNo(2) };
    let no_note = Reply::NoNote { life: 0 };
    let plain = granted(7, 0, None);
    let noted = granted(7, 0, Some(note(1)));
    let cases = [
        (refused(plain, confirm(no_note), None, release(2)), changed),
        (refused(plain, confirm(MISSING), None, release(2)), changed),
        (refused(noted, confirm(no_note), None, None), changed),
        (refused(noted, confirm(Reply::Fault), None, None), fault),
    ];
    for (steps, cause) in cases {
        recovers(&rt, &steps, Ended::Refused(cause));
    }
}

#[test]
fn the_note_of_the_parity_stays_after_a_put_that_was_not_done(rt: HostRuntime) {
    let spent = Cause::Spent {
        seen: Number(NUMBERS_END - 1),
    };
    let late = Reply::Granted {
        cell: Some(cell(7, 0)),
        read_no: Number(NUMBERS_END - 1),
        write_no: Number(0),
        last: Number(0),
        life: 0,
        seized: None,
    };
    let seized = Cause::Seized { row: ROW };
    let fault = Cause::Fault { bay: BayNo(2) };
    let plain = granted(7, 0, None);
    let held = confirm(HELD);
    let not_noted = put(cell(7, 0), Reply::NoNote { life: 0 });
    let failed = put(cell(7, 0), Reply::Fault);
    let cases = [
        (refused(late, held, None, release(2)), spent),
        (refused(plain, held, not_noted, None), seized),
        (refused(plain, held, failed, None), fault),
    ];
    for (steps, cause) in cases {
        recovers(&rt, &steps, Ended::Refused(cause));
    }
}

#[test]
fn replies_to_a_claim_refuse_with_their_causes(rt: HostRuntime) {
    let noted = granted(7, 0, Some(note(1)));
    let holder = note(0);
    let above = Number(48);
    let cases = [
        (Reply::Busy { holder }, Cause::Busy { holder }),
        (Reply::Late { above }, Cause::Late { above }),
        (Reply::Young { note: holder }, Cause::Young { note: holder }),
        (Reply::Fault, Cause::Fault { bay: BayNo(0) }),
    ];
    for (reply, cause) in cases {
        let steps = [
            claim(2, noted),
            claim(3, granted(1, 0, None)),
            claim(0, reply),
            release(3),
        ];
        recovers(&rt, &steps, Ended::Refused(cause));
    }
}

#[test]
fn a_second_missing_bay_breaks_the_row(rt: HostRuntime) {
    let plain = granted(7, 0, None);
    let steps = [
        claim(2, plain),
        claim(3, MISSING),
        claim(0, plain),
        claim(1, MISSING),
        release(0),
        release(2),
    ];
    let first = BayNo(3);
    let second = BayNo(1);
    let broken = Cause::Broken { first, second };
    recovers(&rt, &steps, Ended::Refused(broken));
}

/// Takes these replies to whatever is asked.
fn takes(recovery: &mut RecoverTry, replies: &[Reply]) {
    let mut numbers = Numbers::new(HostNo(1));
    for reply in replies {
        if recovery.next(&[]).is_some() {
            recovery.take(&[], reply, &mut numbers);
        }
    }
}

#[test]
fn a_recovery_in_the_room_of_another_goes_as_a_fresh_one(rt: HostRuntime) {
    let mut recovery = RecoverTry::begin(4, HostNo(1), Number(17), RowNo(6));
    let plain = granted(7, 0, None);
    takes(&mut recovery, &[plain, MISSING, plain, Reply::Fault]);
    assert!(rt; recovery.next(&[]).is_some());
    recovery.renew(4, OPERATOR, ID, ROW);
    let no_note = confirm(Reply::NoNote { life: 0 });
    let steps = refused(plain, no_note, None, release(2));
    let changed = Cause::Changed { row: ROW };
    follows(&rt, &mut recovery, &steps, Ended::Refused(changed));
    recovery.renew(4, OPERATOR, ID, ROW);
    let torn = [
        claim(2, granted(7, 0, Some(note(2)))),
        claim(3, granted(1, 0, None)),
        claim(0, MISSING),
        claim(1, granted(4, 0, None)),
        confirm(HELD),
        put(cell(5, 2), Reply::Done),
        release(3),
        release(1),
    ];
    follows(&rt, &mut recovery, &torn, recovered(Some(1)));
}
