//! What writes read and put, where each request is granted.

use crate::parts::{one_unit, two_units, whole_row};
use crate::rows::{HELD, granted};
use crate::write_steps::{
    BLOCKS, MISSING, bare, cell, claim, confirm, lock_steps, put, release, share, shown, writes,
    writes_two, wrote,
};
use raid_base::{Cause, Ended, Mode, NUMBERS_END, Number, Reply};

#[test]
fn plans_read_and_put_what_they_say(rt: HostRuntime) {
    let small = [
        claim(2, 2, true, shown(7)),
        claim(0, 0, true, shown(2)),
        confirm(false, HELD),
        put(0, 8, Reply::Done),
        put(2, 13, Reply::Done),
    ];
    writes(
        &rt,
        Mode::Order,
        one_unit(),
        &BLOCKS[..1],
        &small,
        wrote(17),
    );
    let reconstruct = [
        claim(2, 3, false, bare()),
        share(1, shown(4)),
        claim(3, 0, false, bare()),
        claim(0, 0, false, bare()),
        confirm(false, HELD),
        put(3, 8, Reply::Done),
        put(0, 9, Reply::Done),
        put(2, 5, Reply::Done),
    ];
    writes_two(&rt, &reconstruct, wrote(17));
}

#[test]
fn a_full_plan_reads_nothing(rt: HostRuntime) {
    let full = [
        claim(2, 7, false, bare()),
        claim(3, 0, false, bare()),
        claim(0, 0, false, bare()),
        claim(1, 0, false, bare()),
        confirm(false, HELD),
        put(3, 8, Reply::Done),
        put(0, 9, Reply::Done),
        put(1, 10, Reply::Done),
        put(2, 11, Reply::Done),
    ];
    writes(&rt, Mode::Order, whole_row(), &BLOCKS, &full, wrote(17));
}

#[test]
fn locks_draw_after_the_confirms_and_give_readers_back(rt: HostRuntime) {
    let steps = lock_steps();
    writes(
        &rt,
        Mode::Lock,
        two_units(),
        &BLOCKS[..2],
        &steps,
        wrote(49),
    );
    let seen = Number(NUMBERS_END - 1);
    let spent = [
        claim(2, 3, false, granted(None, NUMBERS_END - 1)),
        share(1, shown(4)),
        claim(3, 0, false, bare()),
        claim(0, 0, false, bare()),
        confirm(false, HELD),
        release(3),
        release(0),
        release(1),
        release(2),
    ];
    let refused = Ended::Refused(Cause::Spent { seen });
    writes(&rt, Mode::Lock, two_units(), &BLOCKS[..2], &spent, refused);
}

#[test]
fn missing_units_are_left_to_the_parity(rt: HostRuntime) {
    let wanted = [
        claim(2, 2, true, shown(7)),
        claim(0, 0, true, MISSING),
        share(3, shown(1)),
        share(1, shown(4)),
        confirm(false, HELD),
        put(2, 13, Reply::Done),
    ];
    writes(
        &rt,
        Mode::Order,
        one_unit(),
        &BLOCKS[..1],
        &wanted,
        wrote(17),
    );
    let other = [
        claim(2, 3, false, bare()),
        share(1, MISSING),
        claim(3, 0, true, shown(1)),
        claim(0, 0, true, shown(2)),
        confirm(
            true,
            Reply::Held {
                cell: Some(cell(7)),
            },
        ),
        put(3, 8, Reply::Done),
        put(0, 9, Reply::Done),
        put(2, 5, Reply::Done),
    ];
    writes_two(&rt, &other, wrote(17));
}

#[test]
fn a_parity_that_is_missing_is_not_put(rt: HostRuntime) {
    let parity = [
        claim(2, 3, false, MISSING),
        claim(3, 0, false, bare()),
        claim(0, 0, false, bare()),
        confirm(false, MISSING),
        put(3, 8, Reply::Done),
        put(0, 9, Reply::Done),
    ];
    writes_two(&rt, &parity, wrote(17));
}
