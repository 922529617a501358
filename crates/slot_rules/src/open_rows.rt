//! What is open on each row of a bay. The rows with a note or a reader stand first, so that they can be counted, listed
//! and cleared without a look at the others.
ghost use Rattle.std.specs.Prelude.{◌≡◌, ◌+◌, ◌<◌, ◌≤◌, ℕ, List, length, nat_eq, is_some, slice_get, Some, true};
ghost use Rattle.std.specs.Map.{lookup};
ghost use Rattle.indexmap.specs.IndexMap.{IsReordered, IsUnique};
ghost use Rattle.slot_rules.specs.Opens.{open_at, AreFirst, AreFirstBut};

use crate::opened::Open;
use crate::slot::{BayState, SlotState};
use indexmap::IndexMap;
use raid_base::{Ask, Cell, NoMemory, Reply, RowNo};
use std::alloc::Global;
use std::marker::Model;

/// What is open on each row, by the row's number. The first `count` entries are those with a note or a reader.
#[derive(Debug, Drop)]
pub struct OpenRows {
    entries: IndexMap<u16, Open>,
    count: u16,
}

impl Model for OpenRows {
    ghost use Rattle.slot_rules.specs.Opens.{OpenTable, table_of, KeepsFirst};

    ghost Value = { OpenTable };

    ghost view = { λ t. table_of t.entries.entries t.count };

    ghost invariant = { λ t. KeepsFirst t.entries.entries t.count };
}

/// The place of a row's entry.
fn place_of(entries: &IndexMap<u16, Open>, row: u16) -> usize
    requires { is_some (lookup (nat_eq row) entries.now.entries) ≡ true }
    ensures { slice_get entries.now.entries result ≡ Some (row, open_at entries.now.entries row) }
{
    match entries.get_index_of(&row) {
        Some(place) => place,
        None => unreachable!(),
    }
}

/// Moves the entry at this place into or out of the first `count`, where that is due. Returns how many these are then.
fn settle(entries: &mut IndexMap<u16, Open>, count: u16, place: usize) -> u16
    requires within { place < length entries.old.entries }
    requires few { count ≤ length entries.old.entries }
    requires narrow { length entries.old.entries < 65536 }
    requires unique { IsUnique nat_eq entries.old }
    requires first { AreFirstBut place entries.old.entries count }
    ensures first { AreFirst entries.new.entries result }
    ensures few { result ≤ length entries.new.entries }
    ensures same { IsReordered nat_eq entries.old entries.new }
    ensures unique { IsUnique nat_eq entries.new }
{
    let is_open = entries[place].is_open();
    let first = usize::from(count);
    if is_open && first <= place {
        entries.swap_indices(place, first);
        count + 1
    } else if !is_open && place < first {
        entries.swap_indices(place, first - 1);
        count - 1
    } else {
        count
    }
}

impl OpenRows {
    ghost use Rattle.std.specs.Prelude.{IfOk, [], replicate, map};
    ghost use Rattle.slot_rules.specs.Tables.{closed};
    ghost use Rattle.slot_rules.specs.Opens.{Lists, is_open_at, opened_on, kept_on, KeepsOthers};
    ghost use Rattle.slot_rules.specs.Parts.{ServedSlot};

    /// So many rows, on which nothing is open. All memory is taken here.
    pub fn make(alloc: Global, rows: u16) -> Result<OpenRows, NoMemory>
        ensures order { IfOk result (λ t. t.order ≡ []) }
        ensures opens { IfOk result (λ t. t.opens ≡ replicate rows closed) }
    {
        let mut entries = IndexMap::with_capacity(alloc, usize::from(rows)).map_err(|_| NoMemory)?;
        for row in 0..rows {
            entries.insert(row, Open::closed()).map_err(|_| NoMemory)?;
        }
        Ok(OpenRows { entries, count: 0 })
    }

    /// What is open on a row.
    pub fn at(&self, row: u16) -> &Open
        requires { row < length self.now.opens }
        ensures { result.now ≡ opened_on self.now.opens row }
    {
        match self.entries.get(&row) {
            Some(opened) => opened,
            None => unreachable!(),
        }
    }

    /// Serves an ask of a row whose slot this is.
    pub fn serve(
        &mut self,
        row: u16,
        slot: &mut SlotState,
        state: &BayState,
        ask: &Ask,
        cell: Option<Cell>,
    ) -> Reply
        requires row { row < length self.old.opens }
        requires host { ask.now.host.0 < 16 }
        ensures served { ServedSlot state.now ask.now cell
            (kept_on slot.old self.old row) result (kept_on slot.new self.new row) }
        ensures others { KeepsOthers row self.old self.new }
    {
        let place = place_of(&self.entries, row);
        let reply = slot.serve(&mut self.entries[place], state, ask, cell);
        self.count = settle(&mut self.entries, self.count, place);
        reply
    }

    /// Drops all notes and readers.
    pub fn clear(&mut self)
        ensures order { self.new.order ≡ [] }
        ensures opens { self.new.opens ≡ map (λ _. closed) self.old.opens }
    {
        while self.count > 0 {
            self.count -= 1;
            self.entries[usize::from(self.count)].clear();
        }
    }

    /// How many rows have a note or a reader.
    pub fn len(&self) -> u16
        ensures len { result ≡ length self.now.order }
        ensures lists { Lists self.now.order (length self.now.opens) (is_open_at self.now.opens) }
    {
        self.count
    }

    /// One of the rows with a note or a reader.
    pub fn row(&self, k: u16) -> RowNo
        requires { k < length self.now.order }
        ensures { slice_get self.now.order k ≡ Some result }
    {
        match self.entries.get_index(usize::from(k)) {
            Some((row, _)) => RowNo(*row),
            None => unreachable!(),
        }
    }
}
