//! What a pass knows, as plain data. No value of a `View`, or of what stands in one alone, is ever made.
use raid_base::{BayNo, Call, Entry, HostNo};
use slot_rules::Slots;
use std::collections::LinkedList;

/// A bay with what its store tells.
pub struct Shadow {
    pub slots: Slots,
    pub blocks: LinkedList<[u8; 64]>,
    pub tells: bool,
    pub size: u64,
    pub faults: u64,
    pub cap: u32,
    pub clock: u64,
    pub journal: LinkedList<Entry>,
}

/// The first pass, one that it made, or none any more.
pub enum Role {
    First,
    Guest,
    Gone,
}

/// The bay whose turn a pass has, and the journal that the bay had as the turn began.
pub struct Held {
    pub bay: u64,
    pub journal: LinkedList<Entry>,
}

/// A bay that was met in the turn of another host.
pub struct Meeting {
    pub bay: BayNo,
    pub holder: HostNo,
}

/// What a pass has to keep: its host, how often it may still ask at each bay, and, of the first pass, what it may still
/// give, how many passes are out and which hosts were given one.
#[derive(Drop)]
pub struct Standing {
    pub host: HostNo,
    pub left: [u32; 16],
    pub room: u32,
    pub out: u32,
    pub given: [bool; 16],
}

/// `openings` are the bays as they were at first. `asked` is all that was asked with the pass, the oldest first. `ended`
/// has what was asked with the passes that were joined, by host, and `meetings` has theirs too.
pub struct View {
    pub role: Role,
    pub standing: Standing,
    pub openings: LinkedList<Shadow>,
    pub asked: LinkedList<Call>,
    pub meetings: LinkedList<Meeting>,
    pub turn: Option<Held>,
    pub ended: LinkedList<LinkedList<Call>>,
}
