//! Writes that are refused at a claim or at a confirm.

use crate::parts::two_units;
use crate::rows::{HELD, NOTE, ROW, Step};
use crate::write_steps::{
    BLOCKS, MISSING, ROBBED, bare, claim, confirm, release, share, shown, writes, writes_two,
};
use raid_base::{BayNo, Cause, Ended, Mode, Number, Reply};

/// The steps of a write of units 0 and 1 that is refused at the claim of unit 1.
fn refused(first: Reply, second: Reply, readers: bool) -> [Step; 7] {
    let reader = if readers { release(1) } else { None };
    let held = if first == MISSING { None } else { release(3) };
    [
        claim(2, 3, false, bare()),
        share(1, shown(4)),
        claim(3, 0, false, first),
        claim(0, 0, false, second),
        held,
        reader,
        release(2),
    ]
}

#[test]
fn refusals_give_back_the_data_ascending_and_then_the_parity(rt: HostRuntime) {
    let above = Number(48);
    let floor = Number(17);
    let at_id = Reply::Missing { floor };
    let broken = Cause::Broken {
        first: BayNo(3),
        second: BayNo(0),
    };
    let fault = Cause::Fault { bay: BayNo(0) };
    let cases = [
        (
            bare(),
            Reply::Busy { holder: NOTE },
            Cause::Busy { holder: NOTE },
        ),
        (bare(), Reply::Late { above }, Cause::Late { above }),
        (
            bare(),
            Reply::Young { note: NOTE },
            Cause::Young { note: NOTE },
        ),
        (bare(), Reply::Fault, fault),
        (bare(), at_id, Cause::Behind { floor }),
        (MISSING, MISSING, broken),
        (MISSING, at_id, Cause::Behind { floor }),
    ];
    for (first, second, cause) in cases {
        let steps = refused(first, second, false);
        writes_two(&rt, &steps, Ended::Refused(cause));
    }
    for (first, second, cause) in [(bare(), Reply::Fault, fault), (MISSING, at_id, broken)] {
        let steps = refused(first, second, true);
        let ended = Ended::Refused(cause);
        writes(&rt, Mode::Lock, two_units(), &BLOCKS[..2], &steps, ended);
    }
}

/// The steps of a write of units 0 and 1 that is refused at its confirm.
fn unconfirmed(parity: Reply, share: Step, first: Reply, confirmed: Step, last: Step) -> [Step; 8] {
    let want = confirmed == confirm(true, HELD);
    let held = if first == MISSING { None } else { release(3) };
    [
        claim(2, 3, false, parity),
        share,
        claim(3, 0, want, first),
        claim(0, 0, want, bare()),
        confirmed,
        held,
        release(0),
        last,
    ]
}

#[test]
fn a_confirm_that_is_not_as_it_was_refuses(rt: HostRuntime) {
    let changed = Ended::Refused(Cause::Changed { row: ROW });
    let shares = share(1, shown(4));
    let not_shared = share(1, MISSING);
    let last = release(2);
    let gone = confirm(false, ROBBED);
    let missing = confirm(false, MISSING);
    let held = confirm(false, HELD);
    let bare_held = confirm(true, HELD);
    let cases = [
        unconfirmed(bare(), shares, bare(), gone, last),
        unconfirmed(bare(), shares, bare(), missing, last),
        unconfirmed(MISSING, None, bare(), held, None),
        unconfirmed(bare(), not_shared, bare(), bare_held, last),
    ];
    for steps in cases {
        writes_two(&rt, &steps, changed);
    }
}

/// The steps of a write of units 0 and 1 that is refused by this reply to its confirm.
fn confirmed_by(first: Reply, reply: Reply) -> [Step; 8] {
    let confirmed = confirm(false, reply);
    unconfirmed(bare(), share(1, shown(4)), first, confirmed, release(2))
}

#[test]
fn a_reply_that_refuses_comes_before_a_change(rt: HostRuntime) {
    let floor = Number(17);
    let behind = Cause::Behind { floor };
    let at_id = Reply::Missing { floor };
    let holder = NOTE;
    let broken = Cause::Broken {
        first: BayNo(3),
        second: BayNo(2),
    };
    let fault = Cause::Fault { bay: BayNo(2) };
    let cases = [
        (confirmed_by(bare(), at_id), behind),
        (confirmed_by(MISSING, MISSING), broken),
        (confirmed_by(MISSING, at_id), behind),
        (
            confirmed_by(bare(), Reply::Busy { holder }),
            Cause::Busy { holder },
        ),
        (confirmed_by(bare(), Reply::Fault), fault),
    ];
    for (steps, cause) in cases {
        writes_two(&rt, &steps, Ended::Refused(cause));
    }
}
