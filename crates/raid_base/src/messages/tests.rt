//! Entries and calls, made and read.
ghost use Rattle.std.specs.Prelude.{IsTrue};
ghost use Rattle.raid_base.specs.Exchanges.{are_kept};

use super::*;

const ROW: RowNo = RowNo(3);

const ID: Number = Number(18);

const CELL: Cell = Cell {
    bytes: [7; 64],
    lost: 1,
};

const NOTE: Note = Note {
    host: HostNo(4),
    mask: 6,
    id: Number(20),
    origin: Number(36),
    moment: 11,
};

/// Whether an entry and a call of these say what was put into them.
fn is_kept(what: Request, reply: Reply) -> bool
    requires { IsTrue (are_kept what reply) }
{
    let ask = Ask {
        host: HostNo(2),
        clock: 5,
        moment: 8,
        what,
    };
    let answer = Answer { clock: 9, reply };
    let entry = Entry::of(&ask, 9, &reply);
    let call = Call::of(BayNo(1), &ask, &answer);
    entry.ask() == ask
        && entry.host() == HostNo(2)
        && entry.moment() == 8
        && entry.clock() == 9
        && entry.reply() == reply
        && call.bay() == BayNo(1)
        && call.ask() == ask
        && call.clock() == 9
        && call.answer() == answer
}

#[test]
fn a_put_keeps_its_cell(rt: HostRuntime) {
    let put = Request::Put {
        row: ROW,
        id: ID,
        number: Number(34),
        cell: CELL,
    };
    assert!(rt; is_kept(put, Reply::NoNote { life: 2 }));
    assert!(rt; is_kept(put, Reply::Done));
}

#[test]
fn a_claim_keeps_the_cell_and_the_note_that_it_was_shown(rt: HostRuntime) {
    let claim = Request::Claim {
        row: ROW,
        id: ID,
        how: How::Seize,
        mask: 5,
        want: true,
    };
    let granted = Reply::Granted {
        cell: Some(CELL),
        read_no: Number(1),
        write_no: Number(2),
        last: Number(3),
        life: 4,
        seized: Some(NOTE),
    };
    assert!(rt; is_kept(claim, granted));
    assert!(rt; is_kept(claim, Reply::Young { note: NOTE }));
}

#[test]
fn a_reply_that_does_not_fit_is_kept(rt: HostRuntime) {
    let confirm = Request::Confirm {
        row: ROW,
        id: ID,
        want: false,
    };
    assert!(rt; is_kept(confirm, Reply::Held { cell: Some(CELL) }));
    assert!(rt; is_kept(confirm, Reply::Emptied));
    assert!(rt; is_kept(Request::Lose, Reply::Held { cell: None }));
}
