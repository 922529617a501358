//! What hosts ask and bays answer.
ghost use Rattle.std.specs.Prelude.{◌≡◌};

use crate::cells::Cell;
use crate::exchange::Exchange;
use crate::numbers::{BayNo, HostNo, Number, RowNo};
use std::marker::Model;
use std::mem::size_of;

/// How devices order what they get: by locks, or by the stamps that requests carry.
#[derive(Clone, Copy, Debug, PartialEq, Eq)]
pub enum Mode {
    Lock,
    Order,
}

/// How a claim is made: as a write makes it, by a recovery over an old note, or by a rebuild also on a blank slot.
#[derive(Clone, Copy, Debug, PartialEq, Eq)]
pub enum How {
    Plain,
    Seize,
    Mend,
}

/// An open claim on a slot: who made it, in which attempt and when, and the attempt and mask that it came from.
#[derive(Clone, Copy, Debug, PartialEq, Eq)]
pub struct Note {
    pub host: HostNo,
    pub mask: u16,
    pub id: Number,
    pub origin: Number,
    pub moment: u64,
}

/// What a host asks of one bay.
///
/// `want` asks for the cell. The mask of a claim of a parity is the set of units that a write wants.
#[derive(Clone, Copy, Debug, PartialEq, Eq)]
pub enum Request {
    Share {
        row: RowNo,
        id: Number,
        want: bool,
    },
    Claim {
        row: RowNo,
        id: Number,
        how: How,
        mask: u16,
        want: bool,
    },
    Confirm {
        row: RowNo,
        id: Number,
        want: bool,
    },
    Put {
        row: RowNo,
        id: Number,
        number: Number,
        cell: Cell,
    },
    Release {
        row: RowNo,
        id: Number,
        number: Option<Number>,
    },
    Lose,
    Fit,
}

/// What a bay answers.
///
/// Numbers and `last` in a `Granted` are those before the request. `life` counts how often the bay has lost its device.
#[derive(Clone, Copy, Debug, PartialEq, Eq)]
pub enum Reply {
    Granted {
        cell: Option<Cell>,
        read_no: Number,
        write_no: Number,
        last: Number,
        life: u32,
        seized: Option<Note>,
    },
    Busy {
        holder: Note,
    },
    Late {
        above: Number,
    },
    Young {
        note: Note,
    },
    Missing {
        floor: Number,
    },
    Held {
        cell: Option<Cell>,
    },
    NoNote {
        life: u32,
    },
    Done,
    Fault,
    Emptied,
    Fitted,
}

/// A request with its host, the host's clock and the moment.
#[derive(Clone, Copy, Debug, PartialEq, Eq)]
pub struct Ask {
    pub host: HostNo,
    pub clock: u64,
    pub moment: u64,
    pub what: Request,
}

/// A reply with the clock of its bay.
#[derive(Clone, Copy, Debug, PartialEq, Eq)]
pub struct Answer {
    pub clock: u64,
    pub reply: Reply,
}

/// A line of a bay's journal: what was asked, the bay's clock after it, and what was answered.
///
/// Contracts see those three. A request and its reply are kept together, in less room than both take alone.
#[derive(Clone, Copy, Debug, PartialEq, Eq)]
pub struct Entry {
    host: HostNo,
    asked: u64,
    moment: u64,
    clock: u64,
    exchange: Exchange,
}

impl Model for Entry {
    ghost use Rattle.raid_base.specs.Calls.{Entry as Line};

    ghost Value = { Line };

    ghost use Rattle.raid_base.specs.Exchanges.{exchange_of, request_of, reply_of, exchange-back};

    ghost view = { λ e. record { ask = record { host = e.host; clock = e.asked; moment = e.moment; what = request_of e.exchange }; clock = e.clock; reply = reply_of e.exchange } };

    ghost inverse = { λ e. record { host = e.ask.host; asked = e.ask.clock; moment = e.ask.moment; clock = e.clock; exchange = exchange_of e.ask.what e.reply } };

    ghost inverse_ok = { λ e h i. record { host = e.host; asked = e.asked; moment = e.moment; clock = e.clock; exchange = exchange-back e.exchange i } };
}

impl Entry {
    ghost use Rattle.std.specs.Prelude.{◌≡◌, IsTrue};
    ghost use Rattle.raid_base.specs.Exchanges.{are_kept};

    /// The line of this ask, this clock of the bay and this reply.
    pub fn of(ask: &Ask, clock: u64, reply: &Reply) -> Entry
        requires kept { IsTrue (are_kept ask.now.what reply.now) }
        ensures { result ≡ record { ask = ask.now; clock = clock; reply = reply.now } }
    {
        Entry {
            host: ask.host,
            asked: ask.clock,
            moment: ask.moment,
            clock,
            exchange: Exchange::of(&ask.what, reply),
        }
    }

    /// What was asked.
    pub fn ask(&self) -> Ask
        ensures { result ≡ self.now.ask }
    {
        Ask {
            host: self.host,
            clock: self.asked,
            moment: self.moment,
            what: self.exchange.request(),
        }
    }

    /// The host that asked.
    pub fn host(&self) -> HostNo
        ensures { result ≡ self.now.ask.host }
    {
        self.host
    }

    /// The moment at which it asked.
    pub fn moment(&self) -> u64
        ensures { result ≡ self.now.ask.moment }
    {
        self.moment
    }

    /// The bay's clock after it.
    pub fn clock(&self) -> u64
        ensures { result ≡ self.now.clock }
    {
        self.clock
    }

    /// What was answered.
    pub fn reply(&self) -> Reply
        ensures { result ≡ self.now.reply }
    {
        self.exchange.reply()
    }
}

/// A line of a host's transcript: the bay, what was asked of it, and the answer.
///
/// Contracts see those three. It is kept as an entry is.
#[derive(Clone, Copy, Debug, PartialEq, Eq)]
pub struct Call {
    bay: BayNo,
    host: HostNo,
    asked: u64,
    moment: u64,
    clock: u64,
    exchange: Exchange,
}

impl Model for Call {
    ghost use Rattle.raid_base.specs.Calls.{Call as Line};

    ghost Value = { Line };

    ghost use Rattle.raid_base.specs.Exchanges.{exchange_of, request_of, reply_of, exchange-back};

    ghost view = { λ c. record { bay = c.bay; ask = record { host = c.host; clock = c.asked; moment = c.moment; what = request_of c.exchange }; answer = record { clock = c.clock; reply = reply_of c.exchange } } };

    ghost inverse = { λ c. record { bay = c.bay; host = c.ask.host; asked = c.ask.clock; moment = c.ask.moment; clock = c.answer.clock; exchange = exchange_of c.ask.what c.answer.reply } };

    ghost inverse_ok = { λ c h i. record { bay = c.bay; host = c.host; asked = c.asked; moment = c.moment; clock = c.clock; exchange = exchange-back c.exchange i } };
}

impl Call {
    ghost use Rattle.std.specs.Prelude.{◌≡◌, IsTrue};
    ghost use Rattle.raid_base.specs.Exchanges.{are_kept};

    /// The line of this bay, this ask and this answer.
    pub fn of(bay: BayNo, ask: &Ask, answer: &Answer) -> Call
        requires kept { IsTrue (are_kept ask.now.what answer.now.reply) }
        ensures { result ≡ record { bay = bay; ask = ask.now; answer = answer.now } }
    {
        Call {
            bay,
            host: ask.host,
            asked: ask.clock,
            moment: ask.moment,
            clock: answer.clock,
            exchange: Exchange::of(&ask.what, &answer.reply),
        }
    }

    /// The bay that was asked.
    pub fn bay(&self) -> BayNo
        ensures { result ≡ self.now.bay }
    {
        self.bay
    }

    /// What was asked.
    pub fn ask(&self) -> Ask
        ensures { result ≡ self.now.ask }
    {
        Ask {
            host: self.host,
            clock: self.asked,
            moment: self.moment,
            what: self.exchange.request(),
        }
    }

    /// The bay's clock after it.
    pub fn clock(&self) -> u64
        ensures { result ≡ self.now.answer.clock }
    {
        self.clock
    }

    /// What was answered, with the bay's clock after it.
    pub fn answer(&self) -> Answer
        ensures { result ≡ self.now.answer }
    {
        Answer {
            clock: self.clock,
            reply: self.exchange.reply(),
        }
    }
}

// Journals and transcripts are the greater part of what a play keeps.
const _: () = prove!(size_of::<Entry>() <= 176);

const _: () = prove!(size_of::<Call>() <= 176);

/// One step of a play: this host's next request is handled at this moment.
#[derive(Clone, Copy, Debug, PartialEq, Eq)]
pub struct Turn {
    pub host: HostNo,
    pub moment: u64,
}

/// A request to send, and the bay that it goes to.
#[derive(Clone, Copy, Debug, PartialEq, Eq)]
pub struct Errand {
    pub bay: BayNo,
    pub request: Request,
}

impl Default for Errand {
    fn default() -> Self {
        Errand {
            bay: BayNo(0),
            request: Request::Lose,
        }
    }
}

/// What a grant shows of its slot, less the two numbers.
#[derive(Clone, Copy, Debug, Default, PartialEq, Eq)]
pub struct Grant {
    pub cell: Option<Cell>,
    pub life: u32,
    pub last: Number,
    pub seized: Option<Note>,
}

/// What became of a put: done, no note in this life of the bay, or failed.
#[derive(Clone, Copy, Debug, PartialEq, Eq)]
pub enum PutEnd {
    Made,
    Unnoted { life: u32 },
    Failed,
}

impl Reply {
    ghost use Rattle.raid_base.specs.Replies.{grant_of, held_of, is_missing, is_held, is_done, put_end};
    ghost use Rattle.std.specs.Prelude.{◌≡◌};

    /// What a reply grants.
    pub fn grant(&self) -> Option<Grant>
        ensures { result ≡ grant_of self.now }
    {
        match *self {
            Reply::Granted {
                cell,
                last,
                life,
                seized,
                ..
            } => Some(Grant {
                cell,
                last,
                life,
                seized,
            }),
            _ => None,
        }
    }

    /// What a confirm shows, which may be no cell.
    pub fn held(&self) -> Option<Option<Cell>>
        ensures { result ≡ held_of self.now }
    {
        match *self {
            Reply::Held { cell } => Some(cell),
            _ => None,
        }
    }

    pub fn is_held(&self) -> bool
        ensures { result ≡ is_held self.now }
    {
        matches!(*self, Reply::Held { .. })
    }

    pub fn is_missing(&self) -> bool
        ensures { result ≡ is_missing self.now }
    {
        matches!(*self, Reply::Missing { .. })
    }

    pub fn is_done(&self) -> bool
        ensures { result ≡ is_done self.now }
    {
        matches!(*self, Reply::Done)
    }

    /// What became of a put.
    pub fn put_end(&self) -> PutEnd
        ensures { result ≡ put_end self.now }
    {
        match *self {
            Reply::Done => PutEnd::Made,
            Reply::NoNote { life } => PutEnd::Unnoted { life },
            _ => PutEnd::Failed,
        }
    }
}

#[cfg(test)]
mod tests;
