//! The merge of journals by their clocks.
ghost use Rattle.std.specs.Prelude.{◌≡◌, ◌+◌, ◌<◌, ◌≤◌, ◌++◌, ◌∷◌, [], Option, length, map, sum_by, slice_get, IfOk};
ghost use Rattle.std.specs.List.{AllByRecursion};
ghost use Rattle.std.specs.Vec.{vec_capacity};
ghost use Rattle.clock_merge.specs.Merge.{ClocksRise};
ghost use Rattle.clock_merge.specs.Heads.{heads_at, entries_in, AreShort, IsFirst, GoesFirst};
ghost use Rattle.clock_merge.specs.Turns.{AppendsMerge};

use arrayvec::ArrayVec;
use raid_base::{Entry, NoMemory, Turn};
use std::alloc::Global;
use std::marker::Model;

/// A list of turns in room that was made beforehand.
#[derive(Debug, Drop)]
pub struct Turns {
    turns: Vec<Turn>,
}

impl Model for Turns {
    ghost use Rattle.std.specs.Vec.{vec_capacity};
    ghost use Rattle.clock_merge.specs.Turns.{Turns as TurnsView};

    ghost Value = { TurnsView };

    ghost view = { λ t. record { items = t.turns.items; room = vec_capacity t.turns } };
}

impl Turns {
    /// No turns, with room for so many.
    pub fn make(alloc: Global, count: u32) -> Result<Turns, NoMemory>
        ensures empty { IfOk result (λ turns. turns.items ≡ []) }
        ensures room { IfOk result (λ turns. count ≤ turns.room) }
    {
        match Vec::with_capacity(alloc, count as usize) {
            Ok(turns) => Ok(Turns { turns }),
            Err(_) => Err(NoMemory),
        }
    }

    /// The turns, the first of them first.
    pub fn as_slice(&self) -> &[Turn]
        ensures { result.now ≡ self.now.items }
    {
        self.turns.as_slice()
    }

    /// The list of the turns, and its room with it.
    pub fn into_vec(self) -> Vec<Turn>
        ensures items { result.items ≡ self.items }
        ensures room { vec_capacity result ≡ self.room }
    {
        self.turns
    }

    /// Appends a turn, for which there is room.
    fn push(&mut self, turn: Turn)
        requires { length self.old.items < self.old.room }
        ensures items { self.new.items ≡ self.old.items ++ turn ∷ [] }
        ensures room { self.new.room ≡ self.old.room }
    {
        self.turns.push_reserved(turn);
    }
}

/// The entry of a bay as the first head, unless that of an earlier bay is not after it.
fn earlier(
    first: Option<(usize, Entry)>,
    bay: usize,
    entry: Option<Entry>,
) -> Option<(usize, Entry)>
    ensures { GoesFirst bay entry first result }
{
    let Some(entry) = entry else {
        return first;
    };
    let clock = entry.clock();
    match &first {
        Some((_, least)) if least.clock() <= clock => first,
        _ => Some((bay, entry)),
    }
}

/// The entry at this place of a journal, none at its end.
fn head(journal: &[Entry], place: usize) -> Option<Entry>
    ensures { result ≡ slice_get journal.now place }
{
    journal.get(place).copied()
}

/// The first of the entries at these places by its clock, and by its bay where clocks are the same, with its bay.
fn first_head(journals: &[&[Entry]], places: &[usize; 16]) -> Option<(usize, Entry)>
    requires { length journals.now ≤ 16 }
    ensures { IsFirst (heads_at (entries_in journals.now) places.now) (length journals.now) result }
{
    let mut first = None;
    for (bay, journal) in journals.iter().enumerate() {
        first = earlier(first, bay, head(journal, places[bay]));
    }
    first
}

/// The turn at which an entry came.
fn turn_of(entry: Entry) -> Turn
    ensures { result ≡ record { host = entry.ask.host; moment = entry.ask.moment } }
{
    Turn {
        host: entry.host(),
        moment: entry.moment(),
    }
}

/// Appends the turns of all entries of these journals, in the order of their clocks, and of their bays where clocks are
/// the same.
pub fn merge_slices(turns: &mut Turns, journals: &[&[Entry]])
    requires few { length journals.now ≤ 16 }
    requires short { AreShort (entries_in journals.now) }
    requires rising { AllByRecursion ClocksRise (entries_in journals.now) }
    requires room { sum_by length (entries_in journals.now) + length turns.old.items ≤ turns.old.room }
    ensures merged { AppendsMerge (entries_in journals.now) turns.old.items turns.new.items }
    ensures room { turns.new.room ≡ turns.old.room }
{
    let mut places = [0; 16];
    'lines: while let Some((bay, entry)) = first_head(journals, &places) {
        turns.push(turn_of(entry));
        places[bay] += 1;
    }
}

/// Appends the turns of all entries of these journals, as `merge_slices` does.
pub fn merge(turns: &mut Turns, journals: &[Vec<Entry>])
    requires few { length journals.now ≤ 16 }
    requires rising { AllByRecursion ClocksRise (map (λ journal. journal.items) journals.now) }
    requires room { sum_by length (map (λ journal. journal.items) journals.now) + length turns.old.items ≤ turns.old.room }
    ensures merged { AppendsMerge (map (λ journal. journal.items) journals.now) turns.old.items turns.new.items }
    ensures room { turns.new.room ≡ turns.old.room }
{
    let mut slices: ArrayVec<&[Entry], 16> = ArrayVec::new();
    for journal in journals {
        slices.push(journal.as_slice());
    }
    merge_slices(turns, slices.as_slice());
}
