//! Requests to one slot, and what is answered to them.
ghost use Rattle.std.specs.Prelude.{◌<◌, length, IsTrue};
ghost use Rattle.slot_rules.specs.Serving.{IsAskFor};

use raid_base::{Ask, Cell, HostNo, How, Note, Number, Reply, Request, RowNo};
use slot_rules::{Slots, Verdict, row_of};

/// A request of a host at a moment, and what is answered to it.
#[derive(Clone, Copy)]
pub struct Exchange {
    host: u8,
    moment: u64,
    what: Request,
    reply: Reply,
}

pub const CELL: Cell = Cell {
    bytes: [7; 64],
    lost: 4,
};

pub fn share(id: u64) -> Request {
    Request::Share {
        row: RowNo(0),
        id: Number(id),
        want: false,
    }
}

pub fn claim(id: u64, how: How, mask: u16) -> Request {
    Request::Claim {
        row: RowNo(0),
        id: Number(id),
        how,
        mask,
        want: false,
    }
}

pub fn confirm(id: u64, want: bool) -> Request {
    Request::Confirm {
        row: RowNo(0),
        id: Number(id),
        want,
    }
}

pub fn put(id: u64, number: u64) -> Request {
    Request::Put {
        row: RowNo(0),
        id: Number(id),
        number: Number(number),
        cell: CELL,
    }
}

pub fn release(id: u64, number: Option<Number>) -> Request {
    Request::Release {
        row: RowNo(0),
        id: Number(id),
        number,
    }
}

pub fn granted(read_no: u64, write_no: u64, last: u64, life: u32, seized: Option<Note>) -> Reply {
    Reply::Granted {
        cell: None,
        read_no: Number(read_no),
        write_no: Number(write_no),
        last: Number(last),
        life,
        seized,
    }
}

pub fn note(host: u8, id: u64, origin: u64, mask: u16, moment: u64) -> Note {
    Note {
        host: HostNo(host),
        id: Number(id),
        origin: Number(origin),
        mask,
        moment,
    }
}

pub fn missing(floor: u64) -> Reply {
    Reply::Missing {
        floor: Number(floor),
    }
}

/// Whether the ask may be asked of the slots.
fn is_within(slots: &Slots, ask: &Ask) -> bool
    ensures { IsTrue result → IsAskFor (length slots.now.slots) ask.now }
{
    match row_of(ask.what) {
        Some(row) => usize::from(row.0) < slots.rows() && ask.host.0 < 16,
        None => ask.host.0 < 16,
    }
}

/// What the store hands over for an ask that needs it: it holds the block of `CELL`.
fn handed(slots: &Slots, ask: &Ask) -> Option<Cell>
    requires ask { IsAskFor (length slots.now.slots) ask.now }
    requires row { 0 < length slots.now.slots }
{
    match slots.judge(ask) {
        Verdict::Say(_) => None,
        Verdict::NeedRead => {
            let bytes = CELL.bytes;
            let lost = slots.mark(RowNo(0));
            Some(Cell { bytes, lost })
        }
        Verdict::NeedWrite => Some(CELL),
    }
}

/// The answer to an ask.
fn answer(slots: &mut Slots, ask: &Ask) -> Option<Reply> {
    if slots.rows() == 0 || slots.life() == u32::MAX || !is_within(slots, ask) {
        return None;
    }
    let cell = handed(slots, ask);
    Some(slots.apply(ask, cell))
}

/// How many of these requests are answered so, asked step by step.
pub fn answered(slots: &mut Slots, steps: &[Exchange]) -> usize {
    for (place, step) in steps.iter().enumerate() {
        let ask = Ask {
            host: HostNo(step.host),
            clock: 0,
            moment: step.moment,
            what: step.what,
        };
        if answer(slots, &ask) != Some(step.reply) {
            return place;
        }
    }
    steps.len()
}

pub fn step(host: u8, moment: u64, what: Request, reply: Reply) -> Exchange {
    Exchange {
        host,
        moment,
        what,
        reply,
    }
}
