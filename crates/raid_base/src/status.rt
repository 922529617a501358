//! How a run ended, and what is wrong with a script.

use crate::numbers::BayNo;
use thiserror::Error;

/// A device, a source or a sink did not do what was asked.
#[derive(Clone, Copy, Debug, PartialEq, Eq, Error)]
#[error("failed")]
pub struct Failed;

/// There was no memory.
#[derive(Clone, Copy, Debug, PartialEq, Eq, Error)]
#[error("memory")]
pub struct NoMemory;

/// What is wrong with a line of a script.
#[derive(Clone, Copy, Debug, PartialEq, Eq, Error)]
pub enum Kind {
    #[error("shape")]
    Shape,
    #[error("range")]
    Range,
    #[error("name")]
    Name,
    #[error("operator")]
    Operator,
    #[error("end")]
    End,
    #[error("tail")]
    Tail,
}

/// How a run ended. Its text is what the program prints of it.
#[derive(Clone, Copy, Debug, PartialEq, Eq, Error)]
pub enum Status {
    #[error("done")]
    Done,
    #[error("words")]
    Words,
    #[error("read fault")]
    ReadFault,
    #[error("too long")]
    TooLong,
    #[error("bad script at line {line}: {kind}")]
    BadScript { line: u32, kind: Kind },
    #[error("too much: {total}")]
    TooMuch { total: u64 },
    #[error("too few stores: have {have}, need {need}")]
    TooFewStores { have: u32, need: u32 },
    #[error("store too small: {}", bay.0)]
    TooSmall { bay: BayNo },
    #[error("store fault: {}", bay.0)]
    StoreFault { bay: BayNo },
    #[error("write fault")]
    WriteFault,
    #[error("memory")]
    Memory,
}
