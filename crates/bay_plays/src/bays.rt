//! Worked sequences of one slot behind a bay.
ghost use Rattle.std.specs.Prelude.{◌<◌, IsTrue, IfSome};
ghost use Rattle.slot_rules.specs.Serving.{row_of};

use bay_device::{Bay, BayFault};
use block_store::{FailingStore, MemoryStore, Store};
use raid_base::{Ask, Cell, Failed, HostNo, How, Mode, Note, Number, Reply, Request, RowNo};
use slot_rules::row_of;
use std::alloc::Global;
use std::test::Fail;

const ROW: RowNo = RowNo(0);

fn is_within(what: Request, rows: usize) -> bool
    ensures { IsTrue result → IfSome (row_of what) (λ row. row.0 < rows) }
{
    match row_of(what) {
        Some(row) => usize::from(row.0) < rows,
        None => true,
    }
}

/// The reply, or `None` where the ask may not be handled.
fn reply<D: Store>(bay: &mut Bay<D>, host: u8, what: Request) -> Option<Reply> {
    if host >= 16 || bay.room() == 0 || !is_within(what, bay.slots.rows()) {
        return None;
    }
    let ask = Ask {
        host: HostNo(host),
        clock: 0,
        moment: 1,
        what,
    };
    Some(bay.handle(&ask).reply)
}

/// How many of these are answered so, asked in turn, each of its host.
fn answered<D: Store>(bay: &mut Bay<D>, cases: &[(u8, Request, Reply)]) -> usize {
    for (place, (host, what, answer)) in cases.iter().enumerate() {
        if reply(bay, *host, *what) != Some(*answer) {
            return place;
        }
    }
    cases.len()
}

fn share(id: u64) -> Request {
    Request::Share {
        row: ROW,
        id: Number(id),
        want: true,
    }
}

fn claim(id: u64, how: How) -> Request {
    Request::Claim {
        row: ROW,
        id: Number(id),
        how,
        mask: 0,
        want: true,
    }
}

fn put(id: u64, number: u64, byte: u8) -> Request {
    Request::Put {
        row: ROW,
        id: Number(id),
        number: Number(number),
        cell: cell(byte),
    }
}

fn release(id: u64, number: u64) -> Request {
    Request::Release {
        row: ROW,
        id: Number(id),
        number: Some(Number(number)),
    }
}

fn cell(byte: u8) -> Cell {
    Cell {
        bytes: [byte; 64],
        lost: 0,
    }
}

fn busy(host: u8, id: u64) -> Reply {
    Reply::Busy {
        holder: Note {
            host: HostNo(host),
            id: Number(id),
            origin: Number(id),
            mask: 0,
            moment: 1,
        },
    }
}

/// A grant of a cell with these numbers: what was read, written and put last, and the life of the bay.
fn granted(cell: Option<Cell>, numbers: [u64; 3], life: u32) -> Reply {
    let [read_no, write_no, last] = numbers;
    Reply::Granted {
        cell,
        read_no: Number(read_no),
        write_no: Number(write_no),
        last: Number(last),
        life,
        seized: None,
    }
}

fn late(above: u64) -> Reply {
    Reply::Late {
        above: Number(above),
    }
}

fn missing(floor: u64) -> Reply {
    Reply::Missing {
        floor: Number(floor),
    }
}

fn make(alloc: Global, mode: Mode) -> Result<Bay<MemoryStore>, Fail> {
    let store = MemoryStore::make(alloc, 1)?;
    match Bay::make(alloc, store, 1, mode, 3, 20) {
        Ok(bay) => Ok(bay),
        Err(_) => Err("no bay")?,
    }
}

#[test]
fn one_slot_by_stamps(rt: HostRuntime) -> Result<(), Fail> {
    let mut bay = make(rt.alloc(), Mode::Order)?;
    let cases = [
        (
            1,
            claim(17, How::Plain),
            granted(Some(cell(0)), [0, 0, 0], 0),
        ),
        (2, share(34), busy(1, 17)),
        (2, share(2), granted(Some(cell(0)), [0, 0, 0], 0)),
        (1, put(17, 17, 41), Reply::Done),
        (2, share(2), late(17)),
        (2, share(34), granted(Some(cell(41)), [2, 17, 17], 0)),
        (1, claim(33, How::Plain), late(34)),
        (
            2,
            claim(50, How::Plain),
            granted(Some(cell(41)), [34, 17, 17], 0),
        ),
    ];
    assert_eq!(rt; answered(&mut bay, &cases), cases.len());
    assert_eq!(rt; bay.room(), 12);
    assert_eq!(rt; bay.journal().len(), 8);
    Ok(())
}

#[test]
fn one_slot_under_locks(rt: HostRuntime) -> Result<(), Fail> {
    let mut bay = make(rt.alloc(), Mode::Lock)?;
    let cases = [
        (1, share(1), granted(Some(cell(0)), [0, 0, 0], 0)),
        (2, share(2), granted(Some(cell(0)), [0, 0, 0], 0)),
        (3, claim(3, How::Plain), busy(1, 1)),
        (1, release(1, 17), Reply::Done),
        (2, release(2, 18), Reply::Done),
        (
            3,
            claim(3, How::Plain),
            granted(Some(cell(0)), [18, 0, 0], 0),
        ),
    ];
    assert_eq!(rt; answered(&mut bay, &cases), cases.len());
    Ok(())
}

#[test]
fn a_lost_device_is_fitted_and_mended(rt: HostRuntime) -> Result<(), Fail> {
    let mut bay = make(rt.alloc(), Mode::Order)?;
    let cases = [
        (
            1,
            claim(17, How::Plain),
            granted(Some(cell(0)), [0, 0, 0], 0),
        ),
        (1, put(17, 17, 41), Reply::Done),
        (0, Request::Lose, Reply::Emptied),
        (2, share(34), missing(17)),
        (0, Request::Fit, Reply::Fitted),
        (2, share(34), missing(17)),
        (1, claim(33, How::Plain), missing(17)),
        (1, claim(33, How::Mend), granted(None, [17, 17, 0], 1)),
        (1, put(33, 49, 42), Reply::Done),
        (2, share(66), granted(Some(cell(42)), [17, 49, 33], 1)),
    ];
    assert_eq!(rt; answered(&mut bay, &cases), cases.len());
    Ok(())
}

/// A bay whose store fails at its second, fourth and sixth call.
fn make_failing(alloc: Global) -> Result<Bay<FailingStore>, Fail> {
    let store = FailingStore::make(alloc, 1, vec![in alloc; 1, 3, 5]?)?;
    match Bay::make(alloc, store, 1, Mode::Order, 3, 20) {
        Ok(bay) => Ok(bay),
        Err(_) => Err("no bay")?,
    }
}

type Look = Result<Option<Cell>, Failed>;

/// What two looks at the row show, and whether no note stands there.
fn looked<D: Store>(bay: &mut Bay<D>) -> Option<(Look, Look, bool)> {
    if bay.slots.rows() != 1 {
        return None;
    }
    let first = bay.look(ROW);
    let second = bay.look(ROW);
    Some((first, second, bay.note(ROW).is_none()))
}

#[test]
fn a_store_fails_at_each_call(rt: HostRuntime) -> Result<(), Fail> {
    let mut bay = make_failing(rt.alloc())?;
    let cases = [
        (1, claim(17, How::Plain), Reply::Fault),
        (
            1,
            claim(17, How::Plain),
            granted(Some(cell(0)), [0, 0, 0], 0),
        ),
        (1, put(17, 17, 41), Reply::Fault),
        (1, put(17, 17, 41), Reply::Done),
    ];
    assert_eq!(rt; answered(&mut bay, &cases), cases.len());
    let shown = Some((Err(Failed), Ok(Some(cell(41))), true));
    assert!(rt; looked(&mut bay) == shown);
    let (_, journal) = bay.close();
    assert_eq!(rt; journal.len(), 4);
    Ok(())
}

/// Whether a bay of two rows is refused over a store of one block.
fn is_too_small(alloc: Global) -> Result<bool, Fail> {
    let store = MemoryStore::make(alloc, 1)?;
    let made = Bay::make(alloc, store, 2, Mode::Lock, 3, 1);
    Ok(matches!(made, Err(BayFault::TooSmall(_))))
}

/// Whether a bay is refused over a store that fails at its second call.
fn is_fault(alloc: Global) -> Result<bool, Fail> {
    let store = FailingStore::make(alloc, 2, vec![in alloc; 1]?)?;
    let made = Bay::make(alloc, store, 2, Mode::Lock, 3, 1);
    Ok(matches!(made, Err(BayFault::Fault(_))))
}

#[test]
fn a_bay_is_made_where_the_store_serves(rt: HostRuntime) -> Result<(), Fail> {
    assert!(rt; is_too_small(rt.alloc())?);
    assert!(rt; is_fault(rt.alloc())?);
    Ok(())
}
