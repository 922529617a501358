//! The hosts that read one slot under locks.
ghost use Rattle.std.specs.Prelude.{◌≡◌, ◌<◌, ◌==◌, ◌++◌, ◌∷◌, [], not, find, length};
ghost use Rattle.slot_rules.specs.Readers.{is_old_or_own, is_of_host, young_reader};
ghost use Rattle.slot_rules.specs.Rules.{is_reader, is_same_host, other_readers};

use crate::Reader;
use arrayvec::ArrayVec;
use raid_base::{Ask, HostNo, Number};
use std::marker::Model;

/// How many hosts there are, and so how many may read one slot.
pub const HOSTS: usize = 16;

/// Whether a note or reader of this host and moment is old for the ask, or its own.
pub fn is_old_or_own(ask: &Ask, patience: u64, host: HostNo, moment: u64) -> bool
    ensures { result ≡ is_old_or_own patience ask.now host moment }
{
    let is_old = match ask.moment.checked_sub(moment) {
        Some(age) => patience <= age,
        None => false,
    };
    is_old || host == ask.host
}

/// The readers of a slot in order of arrival, at most one of each host.
#[derive(Debug, Drop)]
pub struct Readers {
    readers: ArrayVec<Reader, 16>,
}

impl Model for Readers {
    ghost use Rattle.std.specs.Prelude.{List};
    ghost use Rattle.slot_rules.specs.declared.Reader.{Reader};
    ghost use Rattle.slot_rules.specs.Readers.{OnePerHost};

    ghost Value = { List Reader };

    ghost view = { λ r. r.readers.items };

    ghost invariant = { λ r. OnePerHost r.readers.items };
}

impl Readers {
    /// No readers.
    pub fn new() -> Readers
        ensures { result ≡ [] }
    {
        Readers {
            readers: ArrayVec::new(),
        }
    }

    /// Whether there is none.
    pub fn is_empty(&self) -> bool
        ensures { result ≡ (length self.now == 0) }
    {
        self.readers.is_empty()
    }

    /// The reader with this id.
    pub fn with_id(&self, id: Number) -> Option<Reader>
        ensures { result ≡ find (is_reader id) self.now }
    {
        self.readers
            .iter()
            .find(|reader| reader.id.0 == id.0)
            .copied()
    }

    /// The first reader with another id.
    pub fn with_other_id(&self, id: Number) -> Option<Reader>
        ensures { result ≡ find (λ reader. not (is_reader id reader)) self.now }
    {
        self.readers
            .iter()
            .find(|reader| reader.id.0 != id.0)
            .copied()
    }

    /// The reader of the ask's host, where it has another id.
    pub fn of_host(&self, ask: &Ask, id: Number) -> Option<Reader>
        ensures { result ≡ find (is_same_host ask.now id) self.now }
    {
        let host = ask.host;
        self.readers
            .iter()
            .find(|reader| reader.host.0 == host.0 && reader.id.0 != id.0)
            .copied()
    }

    /// The first reader that the ask may not put aside: one of another host that came less than `patience` moments ago.
    pub fn young(&self, ask: &Ask, patience: u64) -> Option<Reader>
        ensures { result ≡ young_reader patience ask.now self.now }
    {
        self.readers
            .iter()
            .find(|reader| !is_old_or_own(ask, patience, reader.host, reader.moment))
            .copied()
    }

    /// One more reader, of a host that has none.
    pub fn add(&mut self, reader: Reader)
        requires host { reader.host.0 < 16 }
        requires absent { find (is_of_host reader.host) self.old ≡ None }
        ensures { self.new ≡ self.old ++ reader ∷ [] }
    {
        self.readers.push(reader);
    }

    /// Drops the reader with this id.
    pub fn remove(&mut self, id: Number)
        ensures { self.new ≡ other_readers id self.old }
    {
        self.readers.retain(|reader| reader.id.0 != id.0);
    }

    /// Drops all readers.
    pub fn clear(&mut self)
        ensures { self.new ≡ [] }
    {
        self.readers.clear();
    }
}
