//! Writes of row 5 whose new blocks are of bytes 8, 9 and 10: their requests, with the replies.
ghost use Rattle.std.specs.Prelude.{◌≡◌, length};
ghost use Rattle.virtual_objects.specs.RowParts.{AreRowParts};
ghost use Rattle.attempts.specs.Parts.{blocks_in};
ghost use Rattle.host_write.specs.Tries.{block_count};

use crate::parts::two_units;
use crate::rows::{HELD, ID, ROW, Step, granted};
use host_write::WriteTry;
use place_numbers::Numbers;
use raid_base::{BayNo, Cause, Cell, Ended, HostNo, How, Mode, Number, Reply, Request};
use std::process::Abort;
use virtual_objects::RowParts;

/// A slot is missing, with a number below the id.
pub const MISSING: Reply = Reply::Missing { floor: Number(16) };

/// A note is gone in the life in which it was granted.
pub const ROBBED: Reply = Reply::NoNote { life: 0 };

/// A note is gone since its device was lost.
pub const RENEWED: Reply = Reply::NoNote { life: 1 };

pub const BLOCKS: [[u8; 64]; 3] = [[8; 64], [9; 64], [10; 64]];

pub fn cell(byte: u8) -> Cell {
    Cell {
        bytes: [byte; 64],
        lost: 0,
    }
}

/// Granted without a cell, with a number below the id.
pub fn bare() -> Reply {
    granted(None, 16)
}

pub fn shown(byte: u8) -> Reply {
    granted(Some(cell(byte)), 16)
}

pub fn claim(bay: u8, mask: u16, want: bool, reply: Reply) -> Step {
    let request = Request::Claim {
        row: ROW,
        id: ID,
        how: How::Plain,
        mask,
        want,
    };
    Some((bay, request, reply))
}

/// The share of a unit that isn't wanted.
pub fn share(bay: u8, reply: Reply) -> Step {
    let request = Request::Share {
        row: ROW,
        id: ID,
        want: true,
    };
    Some((bay, request, reply))
}

pub fn confirm(want: bool, reply: Reply) -> Step {
    let request = Request::Confirm {
        row: ROW,
        id: ID,
        want,
    };
    Some((2, request, reply))
}

pub fn put_at(number: u64, bay: u8, byte: u8, reply: Reply) -> Step {
    let request = Request::Put {
        row: ROW,
        id: ID,
        number: Number(number),
        cell: cell(byte),
    };
    Some((bay, request, reply))
}

/// A put under stamps, where the id is the number.
pub fn put(bay: u8, byte: u8, reply: Reply) -> Step {
    put_at(17, bay, byte, reply)
}

/// A release, whose reply doesn't matter.
pub fn release(bay: u8) -> Step {
    let request = Request::Release {
        row: ROW,
        id: ID,
        number: None,
    };
    Some((bay, request, RENEWED))
}

/// Writes with these replies, and compares the requests and the end.
pub fn writes(
    rt: &impl Abort,
    mode: Mode,
    parts: RowParts,
    blocks: &[[u8; 64]],
    steps: &[Step],
    ended: Ended,
)
    requires parts { AreRowParts 4 parts.items }
    requires blocks { length blocks.now ≡ blocks_in parts.items }
{
    let mut write = WriteTry::begin(mode, 4, ID, parts);
    follows(rt, &mut write, blocks, steps, ended);
}

/// Goes through a write with these replies, and compares the requests and the end.
pub fn follows(
    rt: &impl Abort,
    write: &mut WriteTry,
    blocks: &[[u8; 64]],
    steps: &[Step],
    ended: Ended,
)
    requires { length blocks.now ≡ block_count write.old }
{
    let mut numbers = Numbers::new(HostNo(1));
    numbers.see(ID);
    for step in steps {
        let Some((bay, request, reply)) = *step else {
            continue;
        };
        let next = write.next(blocks);
        assert_eq!(rt; next, Some((BayNo(bay), request)));
        assert_eq!(rt; write.end(), None);
        if next.is_some() {
            write.take(blocks, &reply, &mut numbers);
        }
    }
    assert_eq!(rt; write.next(blocks), None);
    assert_eq!(rt; write.end(), Some(ended));
}

/// Writes units 0 and 1 under stamps with these replies.
pub fn writes_two(rt: &impl Abort, steps: &[Step], ended: Ended) {
    writes(rt, Mode::Order, two_units(), &BLOCKS[..2], steps, ended);
}

pub fn wrote(number: u64) -> Ended {
    Ended::Wrote {
        number: Number(number),
    }
}

pub fn part(made: u128, cause: Cause) -> Ended {
    Ended::Part {
        number: ID,
        made,
        cause,
    }
}

/// The steps of a write of units 0 and 1 under locks.
pub fn lock_steps() -> [Step; 9] {
    [
        claim(2, 3, false, granted(None, 40)),
        share(1, shown(4)),
        claim(3, 0, false, bare()),
        claim(0, 0, false, bare()),
        confirm(false, HELD),
        put_at(49, 3, 8, Reply::Done),
        put_at(49, 0, 9, Reply::Done),
        put_at(49, 2, 5, Reply::Done),
        release(1),
    ]
}

/// The steps of a write of units 0 and 1, with the replies to its puts.
pub fn puts(first: Reply, second: Step, third: Step) -> [Step; 8] {
    [
        claim(2, 3, false, bare()),
        share(1, shown(4)),
        claim(3, 0, false, bare()),
        claim(0, 0, false, bare()),
        confirm(false, HELD),
        put(3, 8, first),
        second,
        third,
    ]
}
