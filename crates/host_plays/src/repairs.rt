//! The operator's jobs in any order, rebuilds, and a recovery.

use crate::hosts::{HOST, OPERATOR, plays};
use crate::steps::{
    BUSY, MISSING, NOTE, YOUNG, attempt_on, cell, fitted, granted, lost, seized, shown,
};
use raid_base::{BayNo, Cause, JobEnd, Number};
use std::test::Fail;

#[test]
fn the_operator_asks_nothing_in_a_wrong_order(rt: HostRuntime) -> Result<(), Fail> {
    let jobs =
        b"host 0\nfit 0\nrebuild 0\nlose 1\nlose 0\nlose 1\nfit 0\nrebuild 1\nfit 1\nfit 1\nlose 2\nrebuild 2\n";
    let still = JobEnd::StillMissing { bay: BayNo(1) };
    let ends = [
        JobEnd::NotLost { bay: BayNo(0) },
        JobEnd::NotFitted { bay: BayNo(0) },
        JobEnd::Lost,
        still,
        still,
        JobEnd::NotLost { bay: BayNo(0) },
        JobEnd::NotFitted { bay: BayNo(1) },
        JobEnd::Fitted,
        JobEnd::NotLost { bay: BayNo(1) },
        still,
        JobEnd::NotFitted { bay: BayNo(2) },
    ];
    plays(
        &rt,
        rt.alloc(),
        OPERATOR,
        jobs,
        &[lost(1), fitted(1)],
        &ends,
    )
}

#[test]
fn a_rebuild_mends_row_after_row(rt: HostRuntime) -> Result<(), Fail> {
    let jobs = b"host 0\nlose 1\nfit 1\nrebuild 1\nlose 0\n";
    let first = attempt_on(0, 16);
    let busy = attempt_on(1, 64);
    let second = attempt_on(1, 80);
    let steps = [
        lost(1),
        fitted(1),
        first.mend(2, seized(Some(cell(7, 0)), 40, None)),
        first.mend(0, shown(1)),
        first.mend(1, granted(None)),
        first.confirm(2),
        first.put(1, 48, cell(6, 0)),
        first.release(0),
        first.release(2),
        busy.mend(1, granted(None)),
        busy.mend(2, BUSY),
        busy.release(1),
        second.mend(1, granted(None)),
        second.mend(2, shown(1)),
        second.mend(0, shown(4)),
        second.confirm(1),
        second.put(1, 96, cell(5, 0)),
        second.release(2),
        second.release(0),
        lost(0),
    ];
    let ends = [JobEnd::Lost, JobEnd::Fitted, JobEnd::Rebuilt, JobEnd::Lost];
    plays(&rt, rt.alloc(), OPERATOR, jobs, &steps, &ends)
}

#[test]
fn a_rebuild_is_given_up_after_its_tries_of_one_row(rt: HostRuntime) -> Result<(), Fail> {
    let jobs = b"host 0\nlose 0\nfit 0\nrebuild 0\nrebuild 0\nlose 2\n";
    let first = attempt_on(0, 16);
    let again = attempt_on(0, 32);
    let cause = Cause::Busy { holder: NOTE };
    let steps = [
        lost(0),
        fitted(0),
        first.mend(2, BUSY),
        again.mend(2, shown(7)),
        again.mend(0, granted(None)),
        again.mend(1, shown(1)),
        again.confirm(2),
        again.put(0, 48, cell(6, 0)),
        again.release(1),
        again.release(2),
        attempt_on(1, 64).mend(1, BUSY),
        attempt_on(1, 80).mend(1, BUSY),
        attempt_on(0, 96).mend(2, BUSY),
        attempt_on(0, 112).mend(2, BUSY),
    ];
    let gave = JobEnd::Gave { tries: 2, cause };
    let still = JobEnd::StillMissing { bay: BayNo(0) };
    let ends = [JobEnd::Lost, JobEnd::Fitted, gave, gave, still];
    plays(&rt, rt.alloc(), OPERATOR, jobs, &steps, &ends)
}

#[test]
fn a_recovery_is_tried_again_and_names_the_lost_unit(rt: HostRuntime) -> Result<(), Fail> {
    let jobs = b"host 1\nrecover 1\nread a 9 1\n";
    let young = attempt_on(1, 1);
    let torn = attempt_on(1, 49);
    let steps = [
        young.seize(1, seized(Some(cell(7, 0)), 40, Some(NOTE))),
        young.seize(2, YOUNG),
        torn.seize(1, seized(Some(cell(7, 0)), 40, Some(NOTE))),
        torn.seize(2, MISSING),
        torn.seize(0, shown(4)),
        torn.confirm(1),
        torn.put(1, 65, cell(4, 1)),
        torn.release(0),
    ];
    let ends = [
        JobEnd::Recovered {
            number: Number(65),
            closed: true,
            lost: Some(0),
        },
        JobEnd::PastEnd { blocks: 4 },
    ];
    plays(&rt, rt.alloc(), HOST, jobs, &steps, &ends)
}
