//! Which rows of a bay have a note or a reader.

use crate::exchanges::{answered, granted, missing, step};
use raid_base::{How, Mode, Number, Reply, Request, RowNo};
use slot_rules::Slots;
use std::test::Fail;

fn claim(row: u16) -> Request {
    Request::Claim {
        row: RowNo(row),
        id: Number(17),
        how: How::Plain,
        mask: 0,
        want: false,
    }
}

fn share(row: u16) -> Request {
    Request::Share {
        row: RowNo(row),
        id: Number(17),
        want: false,
    }
}

fn release(row: u16) -> Request {
    Request::Release {
        row: RowNo(row),
        id: Number(17),
        number: None,
    }
}

#[test]
fn rows_with_a_note_are_open(rt: HostRuntime) -> Result<(), Fail> {
    let mut slots = Slots::make(rt.alloc(), Mode::Order, 4, 3)?;
    let claims = [
        step(1, 1, claim(2), granted(0, 0, 0, 0, None)),
        step(1, 2, claim(0), granted(0, 0, 0, 0, None)),
    ];
    assert_eq!(rt; answered(&mut slots, &claims), claims.len());
    assert_eq!(rt; slots.open_rows(), 2);
    let releases = [step(1, 3, release(2), Reply::Done)];
    assert_eq!(rt; answered(&mut slots, &releases), releases.len());
    let count = slots.open_rows();
    assert_eq!(rt; count, 1);
    assert_eq!(rt; slots.open_row(0), RowNo(0));
    let losses = [
        step(0, 4, Request::Lose, Reply::Emptied),
        step(0, 5, Request::Fit, Reply::Fitted),
    ];
    assert_eq!(rt; answered(&mut slots, &losses), losses.len());
    assert_eq!(rt; slots.open_rows(), 0);
    let shares = [step(1, 6, share(3), missing(0))];
    assert_eq!(rt; answered(&mut slots, &shares), shares.len());
    Ok(())
}

#[test]
fn rows_with_a_reader_are_open(rt: HostRuntime) -> Result<(), Fail> {
    let mut slots = Slots::make(rt.alloc(), Mode::Lock, 4, 3)?;
    let shares = [
        step(1, 1, share(3), granted(0, 0, 0, 0, None)),
        step(1, 2, share(1), granted(0, 0, 0, 0, None)),
        step(1, 3, release(3), Reply::Done),
    ];
    assert_eq!(rt; answered(&mut slots, &shares), shares.len());
    let count = slots.open_rows();
    assert_eq!(rt; count, 1);
    assert_eq!(rt; slots.open_row(0), RowNo(1));
    Ok(())
}
