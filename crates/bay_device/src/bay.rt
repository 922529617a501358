//! A bay: slots over a store, and the journal of all that it was asked.
//!
//! `handle` judges an ask by the slots, lets the store read or write where the rule needs it, changes the slots,
//! and appends the ask with its answer to the journal. The clock of the answer is one above the greater of the
//! bay's and the ask's, so clocks rise along each journal.
//!
//! Reply and slots are the slot rule's, and the reply is `Fault` only where the store's count of failures rose. All
//! memory, for `cap` entries, is taken by `make`: who asks keeps room. A world's turns call it.
ghost use Rattle.std.specs.Prelude.{◌≡◌, ◌≤◌, ◌<◌, ◌+◌, ◌^◌, List, ℕ, length, vec_len};
ghost use Rattle.std.specs.Vec.{vec_capacity};
ghost use Rattle.slot_rules.specs.Tables.{with_blocks};
ghost use Rattle.std.specs.Prelude.{IsTrue, OnOk, IfOk, IfErr, is_err, true, take, drop, replicate, [], ◌∷◌, ◌++◌, ◌-◌};
ghost use Rattle.raid_base.specs.Cells.{zeros};
ghost use Rattle.raid_base.specs.Counts.{HasCause};
ghost use Rattle.bay_device.specs.Making.{IsCutOff};

use crate::serve::serve;
use block_store::Store;
use raid_base::{Answer, Ask, Cell, Entry, Failed, Mode, Note, RowNo};
use slot_rules::Slots;
use std::alloc::Global;

/// Why a bay wasn't made. Each hands the store back.
#[derive(Drop)]
pub enum BayFault<D> {
    /// The store has fewer blocks than the bay has rows.
    TooSmall(D),
    /// There was no memory.
    NoMemory(D),
    /// The store failed.
    Fault(D),
}

/// The rules of some slots over a store, and a journal of all that they were asked.
///
/// The journal outlives the device. All its memory, for `cap` entries, is taken when the bay is made.
#[derive(Drop)]
pub struct Bay<D: Store> {
    pub slots: Slots,
    /// One above the clock of the bay or the ask, whichever is greater, at each ask.
    pub clock: u64,
    pub journal: Vec<Entry>,
    /// How many entries the journal may have.
    pub cap: u32,
    pub store: D,
    pub ghost held: { vec_len journal ≤ cap },
    pub ghost reserved: { cap ≤ vec_capacity journal },
    pub ghost stored: { length slots.slots ≤ D.size store },
    pub ghost ticks: { clock ≤ 2 ^ 62 + vec_len journal },
    pub ghost lives: { slots.state.life ≤ vec_len journal },
}

/// Writes zeros to the first blocks of a store.
fn clear<D: Store>(store: &mut D, rows: u16) -> Result<(), Failed>
    requires { rows ≤ D.size store.old }
    ensures zeros { IsTrue (D.tells store.old) → OnOk result (take rows (D.content store.new) ≡ replicate rows zeros) }
    ensures tells { D.tells store.new ≡ D.tells store.old }
    ensures size { D.size store.new ≡ D.size store.old }
    ensures cause { HasCause (D.faults store.old) (D.faults store.new) (is_err result) }
    ensures others { drop rows (D.content store.new) ≡ drop rows (D.content store.old) }
    ensures cut_off { is_err result ≡ true → IsCutOff rows (D.content store.old) (D.content store.new) }
{
    for row in 0..rows {
        store.write(RowNo(row), &[0; 64])?;
    }
    Ok(())
}

impl<D: Store> Bay<D> {
    ghost use Rattle.std.specs.Prelude.{is_none, slice_get, Some};
    ghost use Rattle.raid_base.specs.Replies.{is_fault};
    ghost use Rattle.raid_base.specs.Fits.{fits};
    ghost use Rattle.raid_base.specs.declared.numbers.RowNo.{RowNo};
    ghost use Rattle.slot_rules.specs.Slots.{Bay as BayState, first_bay, slot_of};
    ghost use Rattle.slot_rules.specs.Tables.{lost_of};
    ghost use Rattle.slot_rules.specs.Opens.{ListsOpen};
    ghost use Rattle.slot_rules.specs.Handling.{Handled};
    ghost use Rattle.slot_rules.specs.Replay.{Replays, next_clock};
    ghost use Rattle.bay_device.specs.Handling.{IsAskOfBay, IsHandledSomehow, KeepsOthers, RisesByFaults, cell_of_row};
    ghost use Rattle.bay_device.specs.Making.{IsRefusal};

    /// A bay of so many rows that was asked nothing yet. Writes zeros to their blocks.
    pub fn make(
        alloc: Global,
        mut store: D,
        rows: u16,
        mode: Mode,
        patience: u64,
        cap: u32,
    ) -> Result<Bay<D>, BayFault<D>>
        ensures first { IfOk result (λ bay. with_blocks bay.slots (replicate rows zeros) ≡ first_bay mode rows patience) }
        ensures told { IsTrue (D.tells store) → IfOk result (λ bay. with_blocks bay.slots (D.content bay.store) ≡ first_bay mode rows patience) }
        ensures rows { IfOk result (λ bay. length bay.slots.slots ≡ rows) }
        ensures clock { IfOk result (λ bay. bay.clock ≡ 0) }
        ensures journal { IfOk result (λ bay. bay.journal.items ≡ []) }
        ensures cap { IfOk result (λ bay. bay.cap ≡ cap) }
        ensures store { IfOk result (λ bay. (D.tells bay.store ≡ D.tells store) × (D.size bay.store ≡ D.size store) × (D.faults store ≤ D.faults bay.store)) }
        ensures others { IfOk result (λ bay. drop rows (D.content bay.store) ≡ drop rows (D.content store)) }
        ensures large { IfOk result (λ bay. rows ≤ D.size store) }
        ensures refused { IfErr result (IsRefusal D.Store rows store) }
    {
        if store.blocks() < rows as u32 {
            return Err(BayFault::TooSmall(store));
        }
        let slots = match Slots::make(alloc, mode, rows, patience) {
            Ok(slots) => slots,
            Err(_) => return Err(BayFault::NoMemory(store)),
        };
        let journal = match Vec::with_capacity(alloc, cap as usize) {
            Ok(journal) => journal,
            Err(_) => return Err(BayFault::NoMemory(store)),
        };
        if clear(&mut store, rows).is_err() {
            return Err(BayFault::Fault(store));
        }
        Ok(Bay {
            slots,
            clock: 0,
            journal,
            cap,
            store,
        })
    }

    /// Answers an ask, and keeps it with the answer as the last entry of the journal.
    ///
    /// The reply and what the bay is afterwards are the slot rule's, over the store's content where it tells that.
    pub fn handle(&mut self, ask: &Ask) -> Answer
        requires ask { IsAskOfBay (length self.old.slots.slots) ask.now }
        requires room { vec_len self.old.journal < self.old.cap }
        ensures told { IsTrue (D.tells self.old.store) → Handled self.old.slots (D.content self.old.store) ask.now result.reply self.new.slots (D.content self.new.store) }
        ensures somehow { IsHandledSomehow ask.now result.reply self.old.slots self.new.slots }
        ensures fits { IsTrue (fits ask.now.what result.reply) }
        ensures clock { self.new.clock ≡ next_clock self.old.clock ask.now }
        ensures answered { result.clock ≡ self.new.clock }
        ensures journal { self.new.journal.items ≡ self.old.journal.items ++ (record { ask = ask.now; clock = result.clock; reply = result.reply }) ∷ [] }
        ensures cap { self.new.cap ≡ self.old.cap }
        ensures kept { is_fault result.reply ≡ true → self.new.slots ≡ self.old.slots }
        ensures rows { length self.new.slots.slots ≡ length self.old.slots.slots }
        ensures mode { (self.new.slots.state.mode ≡ self.old.slots.state.mode) × (self.new.slots.state.patience ≡ self.old.slots.state.patience) }
        ensures cause { HasCause (D.faults self.old.store) (D.faults self.new.store) (is_fault result.reply) }
        ensures store { (D.tells self.new.store ≡ D.tells self.old.store) × (D.size self.new.store ≡ D.size self.old.store) }
        ensures others { KeepsOthers (length self.old.slots.slots) (D.content self.old.store) (D.content self.new.store) }
        ensures replays { IsTrue (D.tells self.old.store) → (first : BayState) (start : ℕ) → Replays first start self.old.journal.items (with_blocks self.old.slots (D.content self.old.store)) self.old.clock → Replays first start self.new.journal.items (with_blocks self.new.slots (D.content self.new.store)) self.new.clock }
        ensures faults { (opening : ℕ) → RisesByFaults self.old.journal.items opening (D.faults self.old.store) → RisesByFaults self.new.journal.items opening (D.faults self.new.store) }
    {
        let reply = serve(&mut self.slots, &mut self.store, ask);
        let clock = self.clock.max(ask.clock) + 1;
        let entry = Entry::of(ask, clock, &reply);
        self.clock = clock;
        match self.journal.push(entry) {
            Ok(()) => Answer { clock, reply },
            Err(_) => unreachable!(),
        }
    }

    /// How many more asks the journal has room for.
    pub fn room(&self) -> u32
        ensures { result ≡ self.now.cap - vec_len self.now.journal }
    {
        self.cap - self.journal.len() as u32
    }

    /// All that the bay was asked and answered since it was made.
    pub fn journal(&self) -> &[Entry]
        ensures { result.now ≡ self.now.journal.items }
    {
        self.journal.as_slice()
    }

    /// The open note of a row's slot.
    pub fn note(&self, row: RowNo) -> Option<Note>
        requires { row.0 < length self.now.slots.slots }
        ensures { (blocks : List (List ℕ)) → result ≡ (slot_of (with_blocks self.now.slots blocks) row).note }
    {
        self.slots.note(row)
    }

    /// How many rows have a note or a reader. Each of them is `open_row` of exactly one number below that.
    pub fn open_rows(&self) -> u16
        ensures count { result ≡ length self.now.slots.order }
        ensures listed { ListsOpen self.now.slots.order self.now.slots.slots }
    {
        self.slots.open_rows()
    }

    /// One of the rows with a note or a reader.
    pub fn open_row(&self, k: u16) -> RowNo
        requires { k < length self.now.slots.order }
        ensures { slice_get self.now.slots.order k ≡ Some result }
    {
        self.slots.open_row(k)
    }

    /// The cell of a row, or `None` where it is missing. Changes nothing but the count of the store's faults.
    pub fn look(&mut self, row: RowNo) -> Result<Option<Cell>, Failed>
        requires { row.0 < length self.old.slots.slots }
        ensures told { IsTrue (D.tells self.old.store) → IfOk result (λ cell. cell ≡ cell_of_row (with_blocks self.old.slots (D.content self.old.store)) row) }
        ensures missing { IfOk result (λ cell. (blocks : List (List ℕ)) → is_none cell ≡ is_none (cell_of_row (with_blocks self.old.slots blocks) row)) }
        ensures mark { IfOk result (λ cell. (blocks : List (List ℕ)) → lost_of cell ≡ lost_of (cell_of_row (with_blocks self.old.slots blocks) row)) }
        ensures cause { HasCause (D.faults self.old.store) (D.faults self.new.store) (is_err result) }
        ensures slots { self.new.slots ≡ self.old.slots }
        ensures clock { self.new.clock ≡ self.old.clock }
        ensures journal { self.new.journal ≡ self.old.journal }
        ensures cap { self.new.cap ≡ self.old.cap }
        ensures store { (D.content self.new.store ≡ D.content self.old.store) × (D.tells self.new.store ≡ D.tells self.old.store) × (D.size self.new.store ≡ D.size self.old.store) }
    {
        if self.slots.blank(row) {
            return Ok(None);
        }
        let lost = self.slots.mark(row);
        let bytes = self.store.read(row)?;
        Ok(Some(Cell { bytes, lost }))
    }

    /// The store and the journal.
    pub fn close(self) -> (D, Vec<Entry>)
        ensures store { result.0 ≡ self.store }
        ensures journal { result.1 ≡ self.journal }
    {
        let Bay {
            slots: _,
            clock: _,
            journal,
            cap: _,
            store,
        } = self;
        (store, journal)
    }
}
