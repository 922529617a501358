//! The errands that an attempt has still to do.
ghost use Rattle.std.specs.Prelude.{◌≡◌, [], ◌∷◌, ◌++◌, ◌<◌, ◌≤◌, length, drop, slice_get};
ghost use Rattle.arrayvec.specs.ArrayVec.{array_vec_len};
ghost use Rattle.attempts.specs.Puts.{put};
ghost use Rattle.attempts.specs.Pending.{asked_of_each};

use crate::errands::{put, release};
use crate::units::Bays;
use arrayvec::ArrayVec;
use raid_base::{BayNo, Cell, Errand, Number, Request, RowNo};
use std::marker::Model;

/// A slot to give back.
#[derive(Clone, Copy, Debug, Default)]
struct Held {
    bay: BayNo,
    row: RowNo,
}

/// Releases of the slots of 8 rows, with one id and one number for all.
///
/// They differ in bay and row alone, so no more than that is kept of each.
#[derive(Debug, Drop)]
pub struct Releases {
    id: Number,
    number: Option<Number>,
    slots: ArrayVec<Held, 256>,
}

impl Model for Releases {
    ghost use Rattle.std.specs.Prelude.{map};
    ghost use Rattle.attempts.specs.Batches.{Releases as ReleasesView};
    ghost use Rattle.attempts.specs.Releases.{release};
    ghost use Rattle.attempts.specs.declared.queue.Held.{Held};

    ghost Value = { ReleasesView };

    ghost view = { λ r. record { id = r.id; number = r.number; errands = map (λ (slot : Held). release r.id slot.row r.number slot.bay) r.slots.items } };
}

impl Releases {
    ghost use Rattle.attempts.specs.Batches.{with_releases};

    pub fn new(id: Number, number: Option<Number>) -> Releases
        ensures { result ≡ record { id = id; number = number; errands = [] } }
    {
        Releases {
            id,
            number,
            slots: ArrayVec::new(),
        }
    }

    /// Adds the release of a slot.
    pub fn push(&mut self, row: RowNo, bay: BayNo)
        requires { length self.old.errands < 256 }
        ensures { self.new ≡ with_releases self.old row (bay ∷ []) }
    {
        self.slots.push(Held { bay, row });
    }

    fn len(&self) -> usize
        ensures { result ≡ length self.now.errands }
    {
        self.slots.len()
    }

    fn get(&self, at: usize) -> Option<Errand>
        ensures { result ≡ slice_get self.now.errands at }
    {
        if at >= self.slots.len() {
            return None;
        }
        let slot = self.slots[at];
        Some(release(self.id, slot.row, self.number, slot.bay))
    }
}

/// A cell to put.
#[derive(Clone, Copy, Debug, Default)]
struct Placed {
    bay: BayNo,
    cell: Cell,
}

/// Puts to the slots of one row, with one number for all.
#[derive(Debug, Drop)]
pub struct CellPuts {
    id: Number,
    row: RowNo,
    number: Number,
    cells: ArrayVec<Placed, 16>,
}

impl Model for CellPuts {
    ghost use Rattle.std.specs.Prelude.{map};
    ghost use Rattle.attempts.specs.Batches.{CellPuts as CellPutsView};
    ghost use Rattle.attempts.specs.Puts.{put};
    ghost use Rattle.attempts.specs.declared.queue.Placed.{Placed};

    ghost Value = { CellPutsView };

    ghost view = { λ p. record { id = p.id; row = p.row; number = p.number; errands = map (λ (placed : Placed). put p.id p.row p.number placed.cell placed.bay) p.cells.items } };
}

impl CellPuts {
    pub fn new(id: Number, row: RowNo, number: Number) -> CellPuts
        ensures { result ≡ record { id = id; row = row; number = number; errands = [] } }
    {
        CellPuts {
            id,
            row,
            number,
            cells: ArrayVec::new(),
        }
    }

    /// Adds the put of a cell.
    pub fn push(&mut self, cell: Cell, bay: BayNo)
        requires { length self.old.errands < 16 }
        ensures { self.new ≡ record self.old { errands = self.old.errands ++ put self.old.id self.old.row self.old.number cell bay ∷ [] } }
    {
        self.cells.push(Placed { bay, cell });
    }

    fn len(&self) -> usize
        ensures { result ≡ length self.now.errands }
    {
        self.cells.len()
    }

    fn get(&self, at: usize) -> Option<Errand>
        ensures { result ≡ slice_get self.now.errands at }
    {
        if at >= self.cells.len() {
            return None;
        }
        let placed = &self.cells[at];
        Some(put(self.id, self.row, self.number, placed.cell, placed.bay))
    }
}

/// Errands in order. Of those that are alike, what they share is kept once.
#[derive(Debug, Drop)]
enum Errands {
    Nothing,
    /// One request to each of these bays.
    Each { request: Request, bays: Bays },
    Puts(CellPuts),
    Released(Releases),
}

impl Errands {
    ghost use Rattle.attempts.specs.Pending.{errands_in};

    fn len(&self) -> usize
        ensures { result ≡ length (errands_in self.now) }
    {
        match self {
            Errands::Nothing => 0,
            Errands::Each { bays, .. } => bays.len(),
            Errands::Puts(puts) => puts.len(),
            Errands::Released(releases) => releases.len(),
        }
    }

    fn get(&self, at: usize) -> Option<Errand>
        ensures { result ≡ slice_get (errands_in self.now) at }
    {
        match self {
            Errands::Nothing => None,
            Errands::Each { request, bays } => asked_at(request, bays, at),
            Errands::Puts(puts) => puts.get(at),
            Errands::Released(releases) => releases.get(at),
        }
    }
}

/// The request to one of these bays.
fn asked_at(request: &Request, bays: &Bays, at: usize) -> Option<Errand>
    ensures { result ≡ slice_get (asked_of_each request.now bays.now.items) at }
{
    if at >= bays.len() {
        return None;
    }
    Some(Errand {
        bay: bays[at],
        request: *request,
    })
}

/// Errands that are done in order.
///
/// Contracts see it as the list of those that are left.
#[derive(Debug, Drop)]
pub struct Queue {
    errands: Errands,
    at: usize,
}

impl Model for Queue {
    ghost use Rattle.std.specs.Prelude.{List, drop, ◌≤◌, length};
    ghost use Rattle.raid_base.specs.declared.messages.Errand.{Errand};

    ghost Value = { List Errand };

    ghost use Rattle.attempts.specs.Pending.{errands_in};

    ghost view = { λ q. drop q.at (errands_in q.errands) };

    ghost invariant = { λ q. (q.at ≤ length (errands_in q.errands)) × (length (errands_in q.errands) ≤ 256) };
}

impl Queue {
    ghost use Rattle.raid_base.specs.First.{first_errand};

    pub fn empty() -> Queue
        ensures { result ≡ [] }
    {
        Queue {
            errands: Errands::Nothing,
            at: 0,
        }
    }

    /// A queue of one errand.
    pub fn one(errand: Errand) -> Queue
        ensures { result ≡ errand ∷ [] }
    {
        let mut bays = ArrayVec::new();
        bays.push(errand.bay);
        Queue::each(errand.request, bays)
    }

    /// One request to each of these bays.
    pub fn each(request: Request, bays: Bays) -> Queue
        requires { array_vec_len bays ≤ 32 }
        ensures { result ≡ asked_of_each request bays.items }
    {
        Queue {
            errands: Errands::Each { request, bays },
            at: 0,
        }
    }

    pub fn puts(puts: CellPuts) -> Queue
        requires { length puts.errands ≤ 16 }
        ensures { result ≡ puts.errands }
    {
        Queue {
            errands: Errands::Puts(puts),
            at: 0,
        }
    }

    pub fn releases(releases: Releases) -> Queue
        requires { length releases.errands ≤ 256 }
        ensures { result ≡ releases.errands }
    {
        Queue {
            errands: Errands::Released(releases),
            at: 0,
        }
    }

    pub fn len(&self) -> usize
        ensures { result ≡ length self.now }
    {
        self.errands.len() - self.at
    }

    /// The first of them, if any is left.
    pub fn first(&self) -> Option<Errand>
        ensures { result ≡ slice_get self.now 0 }
    {
        self.errands.get(self.at)
    }

    /// The first of them.
    pub fn head(&self) -> Errand
        requires { 0 < length self.now }
        ensures { result ≡ first_errand self.now }
    {
        match self.first() {
            Some(errand) => errand,
            None => unreachable!(),
        }
    }

    /// Leaves the first of them behind.
    pub fn advance(&mut self)
        requires { 0 < length self.old }
        ensures { self.new ≡ drop 1 self.old }
    {
        self.at += 1;
    }
}
