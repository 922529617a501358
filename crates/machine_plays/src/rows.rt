//! Row 5 of four bays: its parity is on bay 2, and its units 0, 1 and 2 on bays 3, 0 and 1. It holds cells of bytes 1, 2
//! and 4 with the parity 7.

use raid_base::{Cell, HostNo, Note, Number, Reply, Request, RowNo};

/// A request to a bay, and the reply. None where a case has no such step.
pub type Step = Option<(u8, Request, Reply)>;

pub const ROW: RowNo = RowNo(5);

/// The id of an attempt of a host.
pub const ID: Number = Number(17);

pub const NOTE: Note = Note {
    host: HostNo(2),
    id: Number(34),
    origin: Number(34),
    mask: 0,
    moment: 0,
};

pub const HELD: Reply = Reply::Held { cell: None };

pub fn granted(cell: Option<Cell>, write_no: u64) -> Reply {
    Reply::Granted {
        cell,
        read_no: Number(0),
        write_no: Number(write_no),
        last: Number(0),
        life: 0,
        seized: None,
    }
}
