//! What hosts do, and how it ends.

use crate::messages::Note;
use crate::names::Name;
use crate::numbers::{BayNo, HostNo, Number, RowNo};
use thiserror::Error;

/// What a job does.
///
/// The blocks of a `Write` are those of the script's list from place `from` on. Blocks of an object count from 0.
#[derive(Clone, Copy, Debug, PartialEq, Eq)]
pub enum Task {
    Read {
        object: Name,
        first: u32,
        count: u8,
    },
    Write {
        object: Name,
        first: u32,
        from: u32,
        count: u8,
    },
    Recover {
        row: RowNo,
    },
    Lose {
        bay: BayNo,
    },
    Fit {
        bay: BayNo,
    },
    Rebuild {
        bay: BayNo,
    },
}

/// A job, and after how many of its requests the host stops, if it does.
#[derive(Clone, Copy, Debug, PartialEq, Eq)]
pub struct Job {
    pub task: Task,
    pub quit: Option<u32>,
}

/// Why an attempt was refused, or a write was done in part.
#[derive(Clone, Copy, Debug, PartialEq, Eq)]
pub enum Cause {
    Busy { holder: Note },
    Late { above: Number },
    Young { note: Note },
    Behind { floor: Number },
    Fault { bay: BayNo },
    Broken { first: BayNo, second: BayNo },
    Gone { bay: BayNo },
    Changed { row: RowNo },
    Released { row: RowNo },
    Seized { row: RowNo },
    Spent { seen: Number },
    Quit,
}

/// How a job ended. Bit i of `made` is block i of the job.
#[derive(Clone, Copy, Debug, PartialEq, Eq)]
pub enum JobEnd {
    Read {
        number: Number,
    },
    Wrote {
        number: Number,
    },
    Part {
        number: Number,
        made: u128,
        cause: Cause,
    },
    Recovered {
        number: Number,
        closed: bool,
        lost: Option<u8>,
    },
    Lost,
    Fitted,
    Rebuilt,
    Gave {
        tries: u8,
        cause: Cause,
    },
    StillMissing {
        bay: BayNo,
    },
    NotLost {
        bay: BayNo,
    },
    NotFitted {
        bay: BayNo,
    },
    NoObject,
    PastEnd {
        blocks: u32,
    },
    TooManyRows {
        rows: u32,
    },
}

/// How a job of a host ended. Jobs count from 0.
#[derive(Clone, Copy, Debug, PartialEq, Eq)]
pub struct JobResult {
    pub host: HostNo,
    pub job: u32,
    pub end: JobEnd,
}

/// How an attempt ended.
#[derive(Clone, Copy, Debug, PartialEq, Eq)]
pub enum Ended {
    Read {
        number: Number,
    },
    Wrote {
        number: Number,
    },
    Part {
        number: Number,
        made: u128,
        cause: Cause,
    },
    Recovered {
        number: Number,
        closed: bool,
        lost: Option<u8>,
    },
    Mended,
    Refused(Cause),
}

/// Some units of one row: the set bits of the mask, and the place of their blocks in the job.
#[derive(Clone, Copy, Debug, Default, PartialEq, Eq)]
pub struct RowPart {
    pub row: RowNo,
    pub mask: u16,
    pub at: u8,
    pub count: u8,
}

/// Why a job has no parts.
#[derive(Clone, Copy, Debug, PartialEq, Eq, Error)]
pub enum PartsFault {
    #[error("no object")]
    NoObject,
    #[error("past the end: {blocks} blocks")]
    PastEnd { blocks: u32 },
    #[error("too many rows: {rows}")]
    TooManyRows { rows: u32 },
}

/// What a write reads of a row, to make its new parity.
#[derive(Clone, Copy, Debug, PartialEq, Eq)]
pub enum Plan {
    Full,
    Small,
    Reconstruct,
}
