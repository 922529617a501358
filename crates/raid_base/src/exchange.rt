//! A request with its reply, as journals and transcripts keep them: small, and still exact.
//!
//! Each carries a block at most, and never both of them: a put brings one, and its reply shows none. Fields lie in the
//! order in which they stand here, the small ones first, so that little room is lost between them.
ghost use Rattle.std.specs.Prelude.{◌≡◌, IsTrue};
ghost use Rattle.raid_base.specs.Exchanges.{is_brief, are_kept, request_asked, reply_in_brief, in_brief, answered, exchange_of, request_of, reply_of};

use crate::cells::Cell;
use crate::messages::{How, Note, Reply, Request};
use crate::numbers::{HostNo, Number, RowNo};

/// A request that neither writes nor releases.
#[derive(Clone, Copy, Debug, PartialEq, Eq)]
pub enum Asked {
    Share {
        want: bool,
        row: RowNo,
        id: Number,
    },
    Claim {
        how: How,
        want: bool,
        mask: u16,
        row: RowNo,
        id: Number,
    },
    Confirm {
        want: bool,
        row: RowNo,
        id: Number,
    },
    Lose,
    Fit,
}

/// A reply that shows no cell.
#[derive(Clone, Copy, Debug, PartialEq, Eq)]
pub enum Brief {
    Busy { holder: Note },
    Late { above: Number },
    Young { note: Note },
    Missing { floor: Number },
    NoNote { life: u32 },
    Done,
    Fault,
    Emptied,
    Fitted,
}

/// A request with its reply.
#[derive(Clone, Copy, Debug, PartialEq, Eq)]
pub enum Exchange {
    Put {
        row: RowNo,
        id: Number,
        number: Number,
        reply: Brief,
        cell: Cell,
    },
    Release {
        row: RowNo,
        id: Number,
        number: Option<Number>,
        reply: Brief,
    },
    Granted {
        life: u32,
        asked: Asked,
        read_no: Number,
        write_no: Number,
        last: Number,
        cell: Option<Cell>,
    },
    /// Granted, with the fields of the note that was seized.
    Seized {
        host: HostNo,
        mask: u16,
        life: u32,
        asked: Asked,
        read_no: Number,
        write_no: Number,
        last: Number,
        id: Number,
        origin: Number,
        moment: u64,
        cell: Option<Cell>,
    },
    Held {
        asked: Asked,
        cell: Option<Cell>,
    },
    Other {
        asked: Asked,
        reply: Brief,
    },
}

impl Asked {
    fn request(&self) -> Request
        ensures { result ≡ request_asked self.now }
    {
        match *self {
            Asked::Share { want, row, id } => Request::Share { row, id, want },
            Asked::Claim {
                how,
                want,
                mask,
                row,
                id,
            } => Request::Claim {
                row,
                id,
                how,
                mask,
                want,
            },
            Asked::Confirm { want, row, id } => Request::Confirm { row, id, want },
            Asked::Lose => Request::Lose,
            Asked::Fit => Request::Fit,
        }
    }

    /// With the reply to it.
    fn answered(self, reply: &Reply) -> Exchange
        ensures { result ≡ answered self reply.now }
    {
        match *reply {
            Reply::Granted {
                cell,
                read_no,
                write_no,
                last,
                life,
                seized: None,
            } => Exchange::Granted {
                life,
                asked: self,
                read_no,
                write_no,
                last,
                cell,
            },
            Reply::Granted {
                cell,
                read_no,
                write_no,
                last,
                life,
                seized: Some(note),
            } => Exchange::Seized {
                host: note.host,
                mask: note.mask,
                life,
                asked: self,
                read_no,
                write_no,
                last,
                id: note.id,
                origin: note.origin,
                moment: note.moment,
                cell,
            },
            Reply::Held { cell } => Exchange::Held { asked: self, cell },
            _ => Exchange::Other {
                asked: self,
                reply: Brief::of(reply),
            },
        }
    }
}

impl Brief {
    fn of(reply: &Reply) -> Brief
        requires { IsTrue (is_brief reply.now) }
        ensures { result ≡ in_brief reply.now }
    {
        match *reply {
            Reply::Busy { holder } => Brief::Busy { holder },
            Reply::Late { above } => Brief::Late { above },
            Reply::Young { note } => Brief::Young { note },
            Reply::Missing { floor } => Brief::Missing { floor },
            Reply::NoNote { life } => Brief::NoNote { life },
            Reply::Done => Brief::Done,
            Reply::Fault => Brief::Fault,
            Reply::Emptied => Brief::Emptied,
            Reply::Fitted => Brief::Fitted,
            Reply::Granted { .. } | Reply::Held { .. } => unreachable!(),
        }
    }

    fn reply(&self) -> Reply
        ensures { result ≡ reply_in_brief self.now }
    {
        match *self {
            Brief::Busy { holder } => Reply::Busy { holder },
            Brief::Late { above } => Reply::Late { above },
            Brief::Young { note } => Reply::Young { note },
            Brief::Missing { floor } => Reply::Missing { floor },
            Brief::NoNote { life } => Reply::NoNote { life },
            Brief::Done => Reply::Done,
            Brief::Fault => Reply::Fault,
            Brief::Emptied => Reply::Emptied,
            Brief::Fitted => Reply::Fitted,
        }
    }
}

impl Exchange {
    /// A request with its reply. A put and a release have a reply that shows no cell.
    pub fn of(request: &Request, reply: &Reply) -> Exchange
        requires { IsTrue (are_kept request.now reply.now) }
        ensures { result ≡ exchange_of request.now reply.now }
    {
        match *request {
            Request::Put {
                row,
                id,
                number,
                cell,
            } => Exchange::Put {
                row,
                id,
                number,
                reply: Brief::of(reply),
                cell,
            },
            Request::Release { row, id, number } => Exchange::Release {
                row,
                id,
                number,
                reply: Brief::of(reply),
            },
            Request::Share { row, id, want } => Asked::Share { want, row, id }.answered(reply),
            Request::Claim {
                row,
                id,
                how,
                mask,
                want,
            } => Asked::Claim {
                how,
                want,
                mask,
                row,
                id,
            }
            .answered(reply),
            Request::Confirm { row, id, want } => Asked::Confirm { want, row, id }.answered(reply),
            Request::Lose => Asked::Lose.answered(reply),
            Request::Fit => Asked::Fit.answered(reply),
        }
    }

    pub fn request(&self) -> Request
        ensures { result ≡ request_of self.now }
    {
        match *self {
            Exchange::Put {
                row,
                id,
                number,
                cell,
                ..
            } => Request::Put {
                row,
                id,
                number,
                cell,
            },
            Exchange::Release {
                row,
                id,
                number,
                ..
            } => Request::Release { row, id, number },
            Exchange::Granted { asked, .. } => asked.request(),
            Exchange::Seized { asked, .. } => asked.request(),
            Exchange::Held { asked, .. } => asked.request(),
            Exchange::Other { asked, .. } => asked.request(),
        }
    }

    pub fn reply(&self) -> Reply
        ensures { result ≡ reply_of self.now }
    {
        match *self {
            Exchange::Put { reply, .. } => reply.reply(),
            Exchange::Release { reply, .. } => reply.reply(),
            Exchange::Granted {
                life,
                read_no,
                write_no,
                last,
                cell,
                ..
            } => Reply::Granted {
                cell,
                read_no,
                write_no,
                last,
                life,
                seized: None,
            },
            Exchange::Seized {
                host,
                mask,
                life,
                read_no,
                write_no,
                last,
                id,
                origin,
                moment,
                cell,
                ..
            } => Reply::Granted {
                cell,
                read_no,
                write_no,
                last,
                life,
                seized: Some(Note {
                    host,
                    mask,
                    id,
                    origin,
                    moment,
                }),
            },
            Exchange::Held { cell, .. } => Reply::Held { cell },
            Exchange::Other { reply, .. } => reply.reply(),
        }
    }
}
