//! Reads of units 0 and 1.

use crate::parts::two_units;
use crate::rows::{ID, NOTE, ROW, Step};
use host_read::ReadTry;
use place_numbers::Numbers;
use raid_base::{
    BayNo, Cause, Cell, Content, Ended, HostNo, Mode, NUMBERS_END, Number, Reply, Request,
};
use std::process::Abort;
use virtual_objects::RowParts;

/// A slot is missing, with a number below the id.
const MISSING: Reply = Reply::Missing { floor: Number(16) };

const GONE: Reply = Reply::NoNote { life: 0 };

fn shown_at(byte: u8, lost: u16, write_no: u64) -> Reply {
    let bytes = [byte; 64];
    Reply::Granted {
        cell: Some(Cell { bytes, lost }),
        read_no: Number(0),
        write_no: Number(write_no),
        last: Number(0),
        life: 0,
        seized: None,
    }
}

/// A cell of these bytes.
fn shown(byte: u8) -> Reply {
    shown_at(byte, 0, 16)
}

fn share(bay: u8, reply: Reply) -> Step {
    let request = Request::Share {
        row: ROW,
        id: ID,
        want: true,
    };
    Some((bay, request, reply))
}

/// A release with the number of the read.
fn numbered(bay: u8, reply: Reply) -> Step {
    let request = Request::Release {
        row: ROW,
        id: ID,
        number: Some(Number(49)),
    };
    Some((bay, request, reply))
}

/// A release of a read that is refused, whose reply doesn't matter.
fn release(bay: u8) -> Step {
    let request = Request::Release {
        row: ROW,
        id: ID,
        number: None,
    };
    Some((bay, request, GONE))
}

/// Reads units 0 and 1 with these replies, and compares the requests, the contents and the end.
fn reads(rt: &impl Abort, mode: Mode, steps: &[Step], ended: Ended, contents: &[Content]) {
    let mut read = ReadTry::begin(mode, 4, ID, two_units());
    follows(rt, &mut read, steps, ended, contents);
}

/// Goes through a read with these replies, and compares the requests, the contents and the end.
fn follows(
    rt: &impl Abort,
    read: &mut ReadTry,
    steps: &[Step],
    ended: Ended,
    contents: &[Content],
) {
    let mut numbers = Numbers::new(HostNo(1));
    numbers.see(ID);
    for step in steps {
        let Some((bay, request, reply)) = *step else {
            continue;
        };
        let next = read.next(&[]);
        assert_eq!(rt; next, Some((BayNo(bay), request)));
        assert_eq!(rt; read.end(), None);
        assert!(rt; read.contents().is_empty());
        if next.is_some() {
            assert_eq!(rt; read.quit(), Ended::Refused(Cause::Quit));
            read.take(&[], &reply, &mut numbers);
        }
    }
    assert_eq!(rt; read.next(&[]), None);
    assert_eq!(rt; read.end(), Some(ended));
    assert_eq!(rt; read.contents(), contents);
}

fn read_at(number: u64) -> Ended {
    Ended::Read {
        number: Number(number),
    }
}

/// What units 0 and 1 hold.
const HELD: [Content; 2] = [Content::Bytes([1; 64]), Content::Bytes([2; 64])];

#[test]
fn reads_what_the_units_show(rt: HostRuntime) {
    let stamps = [share(3, shown(1)), share(0, shown(2))];
    reads(&rt, Mode::Order, &stamps, read_at(17), &HELD);
    let locks = [
        share(3, shown_at(1, 0, 40)),
        share(0, shown(2)),
        numbered(3, Reply::Done),
        numbered(0, Reply::Done),
    ];
    reads(&rt, Mode::Lock, &locks, read_at(49), &HELD);
}

/// The shares of a row whose unit 1 is missing.
fn shares(parity: Reply, last: Step, first: Step, second: Step, third: Step) -> [Step; 7] {
    [
        share(3, shown_at(1, 0, 40)),
        share(0, MISSING),
        share(2, parity),
        last,
        first,
        second,
        third,
    ]
}

#[test]
fn the_whole_row_makes_a_missing_unit(rt: HostRuntime) {
    let last = share(1, shown(4));
    let stamps = shares(shown(7), last, None, None, None);
    reads(&rt, Mode::Order, &stamps, read_at(17), &HELD);
    let lost = shares(shown_at(5, 2, 16), last, None, None, None);
    let contents = [Content::Bytes([1; 64]), Content::Lost];
    reads(&rt, Mode::Order, &lost, read_at(17), &contents);
    let done = |bay| numbered(bay, Reply::Done);
    let locks = shares(shown(7), last, done(3), done(2), done(1));
    reads(&rt, Mode::Lock, &locks, read_at(49), &HELD);
}

#[test]
fn a_reader_that_is_gone_refuses_after_all_releases(rt: HostRuntime) {
    let released = Ended::Refused(Cause::Released { row: ROW });
    let last = share(1, shown(4));
    let replies = [
        (GONE, Reply::Done, Reply::Done),
        (Reply::Done, GONE, Reply::Done),
        (Reply::Done, Reply::Done, GONE),
    ];
    for (first, second, third) in replies {
        let first = numbered(3, first);
        let steps = shares(
            shown(7),
            last,
            first,
            numbered(2, second),
            numbered(1, third),
        );
        reads(&rt, Mode::Lock, &steps, released, &[]);
    }
    let seen = Number(NUMBERS_END - 1);
    let spent = [
        share(3, shown_at(1, 0, NUMBERS_END - 1)),
        share(0, shown(2)),
        release(3),
        release(0),
    ];
    reads(
        &rt,
        Mode::Lock,
        &spent,
        Ended::Refused(Cause::Spent { seen }),
        &[],
    );
}

#[test]
fn refusals_have_the_cause_of_their_reply(rt: HostRuntime) {
    let above = Number(48);
    let floor = Number(17);
    let at_id = Reply::Missing { floor };
    let behind = Cause::Behind { floor };
    let fault = Cause::Fault { bay: BayNo(0) };
    let cases = [
        (Reply::Busy { holder: NOTE }, Cause::Busy { holder: NOTE }),
        (Reply::Late { above }, Cause::Late { above }),
        (Reply::Young { note: NOTE }, Cause::Young { note: NOTE }),
        (Reply::Fault, fault),
    ];
    for (reply, cause) in cases {
        let ended = Ended::Refused(cause);
        let stamps = [share(3, shown(1)), share(0, reply)];
        reads(&rt, Mode::Order, &stamps, ended, &[]);
        let locks = [share(3, shown(1)), share(0, reply), release(3)];
        reads(&rt, Mode::Lock, &locks, ended, &[]);
    }
    let stamps = [share(3, shown(1)), share(0, at_id)];
    reads(&rt, Mode::Order, &stamps, Ended::Refused(behind), &[]);
}

/// Refused since bay 0 and then this bay were missing.
fn broken(bay: u8) -> Ended {
    Ended::Refused(Cause::Broken {
        first: BayNo(0),
        second: BayNo(bay),
    })
}

#[test]
fn under_stamps_a_second_missing_bay_breaks_the_row_unless_it_is_behind(rt: HostRuntime) {
    let floor = Number(17);
    let at_id = Reply::Missing { floor };
    let behind = Ended::Refused(Cause::Behind { floor });
    let last = share(1, MISSING);
    let late = share(1, at_id);
    let cases = [
        (shares(MISSING, None, None, None, None), broken(2)),
        (shares(at_id, None, None, None, None), behind),
        (shares(shown(7), last, None, None, None), broken(1)),
        (shares(shown(7), late, None, None, None), behind),
    ];
    for (steps, ended) in cases {
        reads(&rt, Mode::Order, &steps, ended, &[]);
    }
}

#[test]
fn under_locks_it_always_breaks_and_readers_are_given_back(rt: HostRuntime) {
    let floor = Number(17);
    let late = share(1, Reply::Missing { floor });
    let held = release(3);
    let parity = release(2);
    let first = shares(MISSING, held, None, None, None);
    reads(&rt, Mode::Lock, &first, broken(2), &[]);
    let second = shares(shown(7), late, held, parity, None);
    reads(&rt, Mode::Lock, &second, broken(1), &[]);
}

/// Takes these replies to whatever is asked.
fn takes(read: &mut ReadTry, replies: &[Reply]) {
    let mut numbers = Numbers::new(HostNo(1));
    for reply in replies {
        if read.next(&[]).is_some() {
            read.take(&[], reply, &mut numbers);
        }
    }
}

#[test]
fn a_read_in_the_room_of_another_goes_as_a_fresh_one(rt: HostRuntime) {
    let mut read = ReadTry::begin(Mode::Lock, 4, Number(33), two_units());
    takes(&mut read, &[shown(9), MISSING, Reply::Fault]);
    assert!(rt; read.next(&[]).is_some());
    read.renew(Mode::Order, 4, ID, two_units());
    let stamps = [share(3, shown(1)), share(0, shown(2))];
    follows(&rt, &mut read, &stamps, read_at(17), &HELD);
    read.renew(Mode::Lock, 4, ID, two_units());
    let last = share(1, shown(4));
    let done = |bay| numbered(bay, Reply::Done);
    let locks = shares(shown(7), last, done(3), done(2), done(1));
    follows(&rt, &mut read, &locks, read_at(49), &HELD);
}
