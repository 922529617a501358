//! The slots of one bay.
ghost use Rattle.std.specs.Prelude.{◌≡◌, IfOk, replicate};
ghost use Rattle.slot_rules.specs.Serving.{row_of};
ghost use Rattle.slot_rules.specs.Parts.{device_reply};

use crate::open_rows::OpenRows;
use crate::opened::Open;
use crate::slot::{BayState, SlotState, Verdict, raised};
use raid_base::{Ask, Cell, Mode, NoMemory, Note, Number, Reply, Request, RowNo};
use std::alloc::Global;
use std::marker::Model;

/// The row that a request is for.
pub fn row_of(what: Request) -> Option<RowNo>
    ensures { result ≡ row_of what }
{
    match what {
        Request::Share { row, .. } => Some(row),
        Request::Claim { row, .. } => Some(row),
        Request::Confirm { row, .. } => Some(row),
        Request::Put { row, .. } => Some(row),
        Request::Release { row, .. } => Some(row),
        Request::Lose => None,
        Request::Fit => None,
    }
}

/// What is answered where a device is lost or fitted.
fn device_reply(what: Request) -> Reply
    ensures { result ≡ device_reply what }
{
    match what {
        Request::Lose => Reply::Emptied,
        _ => Reply::Fitted,
    }
}

/// What was last put on a row, and the numbers of its slot since. In another life than that of the put the slot is blank.
#[derive(Clone, Copy, Debug)]
pub struct RowState {
    life: u32,
    mark: u16,
    read_no: Number,
    write_no: Number,
    last: Number,
}

impl RowState {
    ghost use Rattle.std.specs.Prelude.{unwrap_or};
    ghost use Rattle.slot_rules.specs.Opens.{first_row, slot_in, row_after};

    /// A row at the start: zeros, and nothing lost.
    fn first() -> RowState
        ensures { result ≡ first_row }
    {
        RowState {
            life: 0,
            mark: 0,
            read_no: Number(0),
            write_no: Number(0),
            last: Number(0),
        }
    }

    /// So many rows at the start.
    fn first_rows(alloc: Global, count: u16) -> Result<Vec<RowState>, NoMemory>
        ensures { IfOk result (λ rows. rows.items ≡ replicate count first_row) }
    {
        let mut rows = Vec::with_capacity(alloc, usize::from(count)).map_err(|_| NoMemory)?;
        for _row in 0..count {
            rows.push(RowState::first()).map_err(|_| NoMemory)?;
        }
        Ok(rows)
    }

    /// The slot in this life, where both numbers of a blank one are `bare`.
    fn slot(&self, life: u32, bare: Number) -> SlotState
        ensures { result ≡ slot_in life bare self.now }
    {
        if self.life == life {
            SlotState {
                mark: Some(self.mark),
                read_no: self.read_no,
                write_no: self.write_no,
                last: self.last,
            }
        } else {
            SlotState {
                mark: None,
                read_no: bare,
                write_no: bare,
                last: Number(0),
            }
        }
    }

    /// Keeps a slot of this life, unless it is blank.
    fn keep(&mut self, life: u32, slot: SlotState)
        ensures { self.new ≡ row_after life slot.mark slot self.old }
    {
        if let Some(mark) = slot.mark {
            *self = RowState {
                life,
                mark,
                read_no: slot.read_no,
                write_no: slot.write_no,
                last: slot.last,
            };
        }
    }
}

/// The slots of one bay, all but their blocks.
///
/// A row's slot is blank exactly where it was last put in another life than the bay's. Both its numbers are then `bare`, so
/// a device is lost and fitted without a look at the rows on which nothing is open.
#[derive(Debug, Drop)]
pub struct Slots {
    state: BayState,
    bare: Number,
    rows: Vec<RowState>,
    open_rows: OpenRows,
}

impl Model for Slots {
    ghost use Rattle.slot_rules.specs.Tables.{Table};
    ghost use Rattle.slot_rules.specs.Opens.{table_kept, Keeping};

    ghost Value = { Table };

    ghost view = { λ s. table_kept s.state s.bare s.rows.items s.open_rows };

    ghost invariant = { λ s. Keeping s.state.life s.state.empty s.rows.items s.open_rows.opens };
}

impl Slots {
    ghost use Rattle.std.specs.Prelude.{◌≡◌, ◌<◌, ◌-◌, ◌^◌, ℕ, List, IfOk, length, slice_get, Some, is_none};
    ghost use Rattle.slot_rules.specs.Tables.{MakesFirstBay, kept_of, slot_over, lost_of};
    ghost use Rattle.slot_rules.specs.Opens.{ListsOpen, open_part, figures};
    ghost use Rattle.slot_rules.specs.Serving.{IsAskFor, IsVerdict, IsVerdictOf, row_of};
    ghost use Rattle.slot_rules.specs.Serving.{RepliesByRule, LeavesByRule, FitsWhereServed};
    ghost use Rattle.slot_rules.specs.Parts.{ServedRow, table_lost, table_fitted, device_reply, device_after};

    /// The slots at the start, over a store whose first blocks are zeros: none is blank, and all numbers are 0. All memory is taken here.
    pub fn make(alloc: Global, mode: Mode, rows: u16, patience: u64) -> Result<Slots, NoMemory>
        ensures first { IfOk result (λ slots. MakesFirstBay mode rows patience slots) }
        ensures rows { IfOk result (λ slots. length slots.slots ≡ rows) }
    {
        let open_rows = OpenRows::make(alloc, rows)?;
        let rows = RowState::first_rows(alloc, rows)?;
        let state = BayState {
            mode,
            patience,
            empty: false,
            high: Number(0),
            life: 0,
        };
        Ok(Slots {
            state,
            bare: Number(0),
            rows,
            open_rows,
        })
    }

    /// How many rows there are.
    pub fn rows(&self) -> usize
        ensures { result ≡ length self.now.slots }
    {
        self.rows.len()
    }

    /// How requests are ordered.
    pub fn mode(&self) -> Mode
        ensures { result ≡ self.now.state.mode }
    {
        self.state.mode
    }

    /// Whether the device is lost and no other is fitted.
    pub fn is_empty(&self) -> bool
        ensures { result ≡ self.now.state.empty }
    {
        self.state.empty
    }

    /// How often the device was lost.
    pub fn life(&self) -> u32
        ensures { result ≡ self.now.state.life }
    {
        self.state.life
    }

    /// The open note.
    pub fn note(&self, row: RowNo) -> Option<Note>
        requires { row.0 < length self.now.slots }
        ensures { (blocks : List (List ℕ)) → result ≡ (slot_over self.now blocks row).note }
    {
        self.opened(row).note
    }

    /// Whether the slot is missing: it has no cell. A bay without a device has no cells at all.
    pub fn blank(&self, row: RowNo) -> bool
        requires { row.0 < length self.now.slots }
        ensures { (blocks : List (List ℕ)) → result ≡ is_none (slot_over self.now blocks row).cell }
    {
        self.slot(row).mark.is_none()
    }

    /// The `lost` of the slot's cell, 0 where the slot is missing.
    pub fn mark(&self, row: RowNo) -> u16
        requires { row.0 < length self.now.slots }
        ensures { (blocks : List (List ℕ)) → result ≡ lost_of (slot_over self.now blocks row).cell }
    {
        self.slot(row).mark.unwrap_or(0)
    }

    /// How many rows have a note or a reader. Each of them is `open_row` of exactly one number below that.
    pub fn open_rows(&self) -> u16
        ensures count { result ≡ length self.now.order }
        ensures listed { ListsOpen self.now.order self.now.slots }
    {
        self.open_rows.len()
    }

    /// One of the rows with a note or a reader.
    pub fn open_row(&self, k: u16) -> RowNo
        requires { k < length self.now.order }
        ensures { slice_get self.now.order k ≡ Some result }
    {
        self.open_rows.row(k)
    }

    /// The mark and the numbers of a row's slot.
    fn slot(&self, row: RowNo) -> SlotState
        requires { row.0 < length self.now.slots }
        ensures { result ≡ figures (kept_of self.now.slots row) }
    {
        self.rows[usize::from(row.0)].slot(self.state.life, self.bare)
    }

    /// What is open on a row.
    fn opened(&self, row: RowNo) -> &Open
        requires { row.0 < length self.now.slots }
        ensures { result.now ≡ open_part (kept_of self.now.slots row) }
    {
        self.open_rows.at(row.0)
    }

    /// What the rule makes of an ask before the store is asked.
    ///
    /// The verdict is the same whatever the blocks.
    pub fn judge(&self, ask: &Ask) -> Verdict
        requires { IsAskFor (length self.now.slots) ask.now }
        ensures verdict { IsVerdictOf self.now ask.now result }
        ensures shape { IsVerdict ask.now.what result }
    {
        match row_of(ask.what) {
            Some(row) => self.slot(row).judge(self.opened(row), &self.state, ask),
            None => Verdict::Say(device_reply(ask.what)),
        }
    }

    /// Does what the rule says where the store isn't needed, and `cell` is None, or where it did its part, and `cell`
    /// is what was read or written.
    pub fn apply(&mut self, ask: &Ask, cell: Option<Cell>) -> Reply
        requires ask { IsAskFor (length self.old.slots) ask.now }
        requires life { ask.now.what ≡ Request.Lose → self.old.state.life < 2 ^ 32 - 1 }
        ensures reply { RepliesByRule self.old ask.now cell result }
        ensures bay { LeavesByRule self.old ask.now cell self.new }
        ensures fits { FitsWhereServed self.old ask.now cell result }
        ensures rows { length self.new.slots ≡ length self.old.slots }
    {
        match row_of(ask.what) {
            Some(row) => self.serve(row, ask, cell),
            None => self.change_device(ask.what),
        }
    }

    /// Serves an ask of this row.
    fn serve(&mut self, row: RowNo, ask: &Ask, cell: Option<Cell>) -> Reply
        requires row { row.0 < length self.old.slots }
        requires host { ask.now.host.0 < 16 }
        ensures served { ServedRow row ask.now cell self.old result self.new }
        ensures rows { length self.new.slots ≡ length self.old.slots }
    {
        let place = usize::from(row.0);
        let before = self.rows[place].slot(self.state.life, self.bare);
        let mut slot = before;
        let reply = self
            .open_rows
            .serve(row.0, &mut slot, &self.state, ask, cell);
        self.rows[place].keep(self.state.life, slot);
        let high = raised(self.state.high, before.read_no, slot.read_no);
        self.state.high = raised(high, before.write_no, slot.write_no);
        reply
    }

    /// The device is lost, with all that stood on it, if there is one.
    fn lose(&mut self)
        requires { self.old.state.life < 2 ^ 32 - 1 }
        ensures { self.new ≡ table_lost self.old }
    {
        if self.state.empty {
            return;
        }
        self.state.empty = true;
        self.state.life += 1;
        self.bare = Number(0);
        self.open_rows.clear();
    }

    /// A device is fitted, unless there is one. Its slots are blank, and their numbers are as high as any ever was.
    fn fit(&mut self)
        ensures { self.new ≡ table_fitted self.old }
    {
        if !self.state.empty {
            return;
        }
        self.state.empty = false;
        self.bare = self.state.high;
    }

    /// Serves a request without a row.
    fn change_device(&mut self, what: Request) -> Reply
        requires life { what ≡ Request.Lose → self.old.state.life < 2 ^ 32 - 1 }
        ensures reply { result ≡ device_reply what }
        ensures after { self.new ≡ device_after what self.old }
    {
        match what {
            Request::Lose => self.lose(),
            _ => self.fit(),
        }
        device_reply(what)
    }
}
