//! What hosts, bays and scripts say.
#![tactic(auto)]

pub mod cells;
mod exchange;
pub mod fitting;
pub mod jobs;
pub mod messages;
pub mod names;
pub mod numbers;
pub mod status;
pub mod streams;

pub use cells::{Cell, Content, Shown, content_of};
pub use fitting::fits;
pub use jobs::{Cause, Ended, Job, JobEnd, JobResult, PartsFault, Plan, RowPart, Task};
pub use messages::{
    Answer, Ask, Call, Entry, Errand, Grant, How, Mode, Note, PutEnd, Reply, Request, Turn,
};
pub use names::Name;
pub use numbers::{BayNo, HostNo, NUMBERS_END, Number, RowNo, Spent, next_number};
pub use status::{Failed, Kind, NoMemory, Status};
pub use streams::memory::{MemorySink, MemorySource};
pub use streams::standard::{ReaderSource, WriterSink};
pub use streams::{Sink, Source};
