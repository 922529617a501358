//! What is open on one row: a note, and the hosts that read it under locks.
ghost use Rattle.std.specs.Prelude.{◌≡◌};

use crate::Reader;
use crate::readers::Readers;
use crate::slot::BayState;
use raid_base::{Ask, Note, Number, Reply};

/// The note and the readers of one row.
#[derive(Debug, Drop)]
pub struct Open {
    pub note: Option<Note>,
    pub readers: Readers,
}

impl Open {
    ghost use Rattle.std.specs.Prelude.{◌<◌, None, Some, IsTrue};
    ghost use Rattle.slot_rules.specs.Rules.{note_id, note_of};
    ghost use Rattle.slot_rules.specs.Tables.{closed, is_open};
    ghost use Rattle.slot_rules.specs.Parts.{RefusesUnderLocks, IsAlone, IsReleaseReply};
    ghost use Rattle.slot_rules.specs.Parts.{admitted, is_refusal};

    /// Nothing is open.
    pub fn closed() -> Open
        ensures { result ≡ closed }
    {
        Open {
            note: None,
            readers: Readers::new(),
        }
    }

    /// Whether there is a note or a reader.
    pub fn is_open(&self) -> bool
        ensures { result ≡ is_open self.now }
    {
        self.note.is_some() || !self.readers.is_empty()
    }

    /// Drops the note and all readers.
    pub fn clear(&mut self)
        ensures { self.new ≡ closed }
    {
        self.note = None;
        self.readers.clear();
    }

    /// Whether the open note has this id.
    pub fn has_note(&self, id: Number) -> bool
        ensures { result ≡ note_id self.now.note id }
    {
        match self.note {
            Some(note) => note.id.0 == id.0,
            None => false,
        }
    }

    /// How a share is refused under locks, where the slot isn't missing.
    pub fn share_refusal(&self, ask: &Ask, id: Number) -> Option<Reply>
        ensures refused { RefusesUnderLocks self.now ask.now id result }
        ensures refusal { IsTrue (is_refusal result) }
        ensures alone { result ≡ None → IsAlone ask.now id self.now }
    {
        if let Some(holder) = self.note {
            return Some(Reply::Busy { holder });
        }
        match self.readers.of_host(ask, id) {
            Some(reader) => Some(Reply::Busy {
                holder: reader.as_note(),
            }),
            None => None,
        }
    }

    /// What a release answers.
    pub fn release_reply(&self, state: &BayState, id: Number) -> Reply
        ensures { IsReleaseReply state.now self.now id result }
    {
        if self.has_note(id) {
            return Reply::Done;
        }
        match self.readers.with_id(id) {
            Some(_) => Reply::Done,
            None => Reply::NoNote { life: state.life },
        }
    }

    /// Lets the ask's host in as a reader, unless it is one.
    pub fn admit(&mut self, ask: &Ask, id: Number)
        requires host { ask.now.host.0 < 16 }
        requires alone { IsAlone ask.now id self.old }
        ensures { self.new ≡ admitted ask.now id self.old }
    {
        if self.readers.with_id(id).is_none() {
            self.readers.add(Reader {
                host: ask.host,
                id,
                moment: ask.moment,
            });
        }
    }

    /// Opens a note of the ask, with this origin and mask.
    pub fn open_note(&mut self, ask: &Ask, id: Number, origin: Number, mask: u16)
        ensures { self.new ≡ record self.old { note = Some (note_of ask.now id origin mask) } }
    {
        self.note = Some(Note {
            host: ask.host,
            id,
            origin,
            mask,
            moment: ask.moment,
        });
    }
}
