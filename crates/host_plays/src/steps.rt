//! Requests of hosts, and the replies to them.

use crate::hosts::Step;
use raid_base::{Cell, HostNo, How, Note, Number, Reply, Request, RowNo};

pub const NOTE: Note = Note {
    host: HostNo(2),
    id: Number(34),
    origin: Number(34),
    mask: 1,
    moment: 0,
};

pub const BUSY: Reply = Reply::Busy { holder: NOTE };

pub const YOUNG: Reply = Reply::Young { note: NOTE };

const HELD: Reply = Reply::Held { cell: None };

pub const MISSING: Reply = Reply::Missing { floor: Number(9) };

const LOSE: Request = Request::Lose;

const FIT: Request = Request::Fit;

pub fn cell(byte: u8, lost: u16) -> Cell {
    Cell {
        bytes: [byte; 64],
        lost,
    }
}

/// A grant of a slot that was written with this number, and the note that was seized.
pub fn seized(cell: Option<Cell>, write_no: u64, seized: Option<Note>) -> Reply {
    Reply::Granted {
        cell,
        read_no: Number(0),
        write_no: Number(write_no),
        last: Number(0),
        life: 0,
        seized,
    }
}

pub fn granted(cell: Option<Cell>) -> Reply {
    seized(cell, 0, None)
}

pub fn shown(byte: u8) -> Reply {
    granted(Some(cell(byte, 0)))
}

/// The requests of an attempt with this id on a row.
#[derive(Clone, Copy)]
pub struct Attempted {
    row: RowNo,
    id: Number,
}

impl Attempted {
    pub fn claim(&self, bay: u8, how: How, mask: u16, reply: Reply) -> Step {
        let request = Request::Claim {
            row: self.row,
            id: self.id,
            how,
            mask,
            want: how != How::Plain,
        };
        (bay, request, reply)
    }

    pub fn mend(&self, bay: u8, reply: Reply) -> Step {
        self.claim(bay, How::Mend, 0, reply)
    }

    pub fn seize(&self, bay: u8, reply: Reply) -> Step {
        self.claim(bay, How::Seize, 0, reply)
    }

    pub fn share(&self, bay: u8, reply: Reply) -> Step {
        let request = Request::Share {
            row: self.row,
            id: self.id,
            want: true,
        };
        (bay, request, reply)
    }

    pub fn confirm(&self, bay: u8) -> Step {
        let request = Request::Confirm {
            row: self.row,
            id: self.id,
            want: false,
        };
        (bay, request, HELD)
    }

    pub fn put(&self, bay: u8, number: u64, cell: Cell) -> Step {
        let request = Request::Put {
            row: self.row,
            id: self.id,
            number: Number(number),
            cell,
        };
        (bay, request, Reply::Done)
    }

    /// A release, whose reply doesn't matter.
    pub fn release(&self, bay: u8) -> Step {
        let request = Request::Release {
            row: self.row,
            id: self.id,
            number: None,
        };
        (bay, request, Reply::NoNote { life: 1 })
    }
}

pub fn attempt_on(row: u16, id: u64) -> Attempted {
    Attempted {
        row: RowNo(row),
        id: Number(id),
    }
}

pub fn lost(bay: u8) -> Step {
    (bay, LOSE, Reply::Emptied)
}

pub fn fitted(bay: u8) -> Step {
    (bay, FIT, Reply::Fitted)
}
