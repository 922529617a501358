//! One slot under worked sequences of requests.

use crate::exchanges::{
    CELL, answered, claim, confirm, granted, missing, note, put, release, share, step,
};
use raid_base::{How, Mode, Number, Reply, Request};
use slot_rules::Slots;
use std::test::Fail;

#[test]
fn stamps_order_reads_and_writes(rt: HostRuntime) -> Result<(), Fail> {
    let mut slots = Slots::make(rt.alloc(), Mode::Order, 1, 3)?;
    let steps = [
        step(1, 1, claim(17, How::Plain, 0), granted(0, 0, 0, 0, None)),
        step(
            2,
            2,
            share(34),
            Reply::Busy {
                holder: note(1, 17, 17, 0, 1),
            },
        ),
        step(2, 3, share(2), granted(0, 0, 0, 0, None)),
        step(1, 4, put(17, 17), Reply::Done),
        step(2, 5, share(2), Reply::Late { above: Number(17) }),
        step(2, 6, share(34), granted(2, 17, 17, 0, None)),
        step(
            1,
            7,
            claim(33, How::Plain, 0),
            Reply::Late { above: Number(34) },
        ),
        step(2, 8, claim(50, How::Plain, 9), granted(34, 17, 17, 0, None)),
        step(2, 9, confirm(50, true), Reply::Held { cell: Some(CELL) }),
        step(2, 10, release(50, None), Reply::Done),
        step(2, 11, release(50, None), Reply::NoNote { life: 0 }),
    ];
    assert_eq!(rt; answered(&mut slots, &steps), steps.len());
    Ok(())
}

#[test]
fn locks_order_reads_and_writes(rt: HostRuntime) -> Result<(), Fail> {
    let mut slots = Slots::make(rt.alloc(), Mode::Lock, 1, 3)?;
    let steps = [
        step(1, 1, share(1), granted(0, 0, 0, 0, None)),
        step(2, 2, share(2), granted(0, 0, 0, 0, None)),
        step(
            1,
            3,
            share(17),
            Reply::Busy {
                holder: note(1, 1, 1, 0, 1),
            },
        ),
        step(
            3,
            4,
            claim(3, How::Plain, 0),
            Reply::Busy {
                holder: note(1, 1, 1, 0, 1),
            },
        ),
        step(1, 5, release(1, Some(Number(17))), Reply::Done),
        step(2, 6, release(2, Some(Number(18))), Reply::Done),
        step(3, 7, claim(3, How::Plain, 0), granted(18, 0, 0, 0, None)),
        step(
            1,
            8,
            share(33),
            Reply::Busy {
                holder: note(3, 3, 3, 0, 7),
            },
        ),
    ];
    assert_eq!(rt; answered(&mut slots, &steps), steps.len());
    Ok(())
}

#[test]
fn a_fitted_device_is_blank_and_keeps_the_high_number(rt: HostRuntime) -> Result<(), Fail> {
    let mut slots = Slots::make(rt.alloc(), Mode::Order, 1, 3)?;
    let steps = [
        step(1, 1, share(17), granted(0, 0, 0, 0, None)),
        step(0, 2, Request::Lose, Reply::Emptied),
        step(0, 3, Request::Lose, Reply::Emptied),
        step(1, 4, share(33), missing(17)),
        step(0, 5, claim(16, How::Mend, 0), missing(17)),
        step(0, 6, Request::Fit, Reply::Fitted),
        step(1, 7, share(33), missing(17)),
        step(1, 8, confirm(33, false), missing(17)),
        step(0, 9, claim(16, How::Mend, 0), granted(17, 17, 0, 1, None)),
        step(
            2,
            10,
            claim(50, How::Seize, 0),
            Reply::Young {
                note: note(0, 16, 16, 0, 9),
            },
        ),
        step(2, 12, claim(50, How::Seize, 0), missing(17)),
        step(0, 13, put(16, 48), Reply::NoNote { life: 1 }),
        step(0, 14, claim(32, How::Mend, 0), granted(17, 17, 0, 1, None)),
        step(0, 15, put(32, 48), Reply::Done),
        step(
            1,
            16,
            claim(49, How::Plain, 0),
            granted(17, 48, 32, 1, None),
        ),
    ];
    assert_eq!(rt; answered(&mut slots, &steps), steps.len());
    assert_eq!(rt; slots.life(), 1);
    Ok(())
}

#[test]
fn a_seizure_hands_on_origin_and_mask(rt: HostRuntime) -> Result<(), Fail> {
    let mut slots = Slots::make(rt.alloc(), Mode::Lock, 1, 3)?;
    let steps = [
        step(1, 1, share(1), granted(0, 0, 0, 0, None)),
        step(
            2,
            3,
            claim(2, How::Seize, 0),
            Reply::Young {
                note: note(1, 1, 1, 0, 1),
            },
        ),
        step(2, 4, claim(2, How::Seize, 6), granted(0, 0, 0, 0, None)),
        step(
            1,
            5,
            release(1, Some(Number(17))),
            Reply::NoNote { life: 0 },
        ),
        step(
            2,
            5,
            claim(18, How::Seize, 1),
            granted(0, 0, 0, 0, Some(note(2, 2, 2, 6, 4))),
        ),
        step(
            3,
            7,
            claim(3, How::Seize, 1),
            Reply::Young {
                note: note(2, 18, 2, 6, 5),
            },
        ),
        step(
            3,
            8,
            claim(3, How::Seize, 1),
            granted(0, 0, 0, 0, Some(note(2, 18, 2, 6, 5))),
        ),
        step(3, 9, put(3, 19), Reply::Done),
    ];
    assert_eq!(rt; answered(&mut slots, &steps), steps.len());
    Ok(())
}
