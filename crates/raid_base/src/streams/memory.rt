//! A source and a sink in memory, which tell all and fail at the calls that they are told to fail at.
ghost use Rattle.std.specs.Prelude.{◌≡◌, ◌≤◌, ◌<◌, ◌++◌, [], true, IfOk, IsOk, OnOk, OnErr, is_err, length, take, drop};
ghost use Rattle.raid_base.specs.Counts.{HasCause};
ghost use Rattle.raid_base.specs.Streams.{Moves, AppendsPart, is_failing, moved_by, read_gives, read_leaves, write_fails, write_leaves};

use super::{Sink, Source};
use crate::status::{Failed, NoMemory};
use std::alloc::Global;
use std::marker::Model;

/// Whether the call of this number is among those that fail.
fn is_failing(failing: &[u32], call: u64) -> bool
    ensures { result ≡ is_failing failing.now call }
{
    failing.iter().any(|number| *number as u64 == call)
}

/// Bytes in memory to be read.
///
/// Calls of `read` are counted from 0, and those in the list fail. Each failure raises the count of faults by one. None
/// fails after call number 2^32 - 1.
#[derive(Drop)]
pub struct MemorySource {
    bytes: Vec<u8>,
    at: usize,
    failing: Vec<u32>,
    calls: u64,
    faults: u64,
}

impl Model for MemorySource {
    ghost use Rattle.std.specs.Prelude.{◌≤◌, drop, length};
    ghost use Rattle.raid_base.specs.Streams.{Feed};

    ghost Value = { Feed };

    ghost view = { λ s. record { left = drop s.at s.bytes.items; failing = s.failing.items; calls = s.calls; faults = s.faults } };

    ghost invariant = { λ s. s.at ≤ length s.bytes.items };
}

impl MemorySource {
    /// A source of these bytes, whose calls of these numbers fail.
    pub fn make(bytes: Vec<u8>, failing: Vec<u32>) -> Self
        ensures { result ≡ record { left = bytes.items; failing = failing.items; calls = 0; faults = 0 } }
    {
        MemorySource {
            bytes,
            at: 0,
            failing,
            calls: 0,
            faults: 0,
        }
    }

    /// The bytes that are left.
    pub fn left(&self) -> &[u8]
        ensures { result.now ≡ self.now.left }
    {
        &self.bytes.as_slice()[self.at..]
    }

    /// How often it has failed.
    pub fn faults(&self) -> u64
        ensures { result ≡ self.now.faults }
    {
        self.faults
    }
}

impl Source for MemorySource {
    ghost left = { λ s. s.left };

    ghost tells = { λ s. true };

    ghost faults = { λ s. s.faults };

    fn read(&mut self, piece: &mut [u8]) -> Result<usize, Failed>
        ensures bound { IfOk result (λ n. n ≤ length piece.old) }
        ensures moved { IfOk result (λ n. Moves n self.old.left self.new.left piece.new) }
        ensures end { result ≡ Ok 0 → 0 < length piece.old → self.old.left ≡ [] }
        ensures stays { OnErr result (self.new.left ≡ self.old.left) }
        ensures cause { HasCause self.old.faults self.new.faults (is_err result) }
        ensures value { result ≡ read_gives self.old (length piece.old) }
        ensures new { self.new ≡ read_leaves self.old (length piece.old) }
        ensures piece { let n = moved_by self.old (length piece.old) in piece.new ≡ take n self.old.left ++ drop n piece.old }
    {
        let fails = is_failing(self.failing.as_slice(), self.calls);
        self.calls = self.calls.saturating_add(1);
        if fails {
            self.faults = self.faults.saturating_add(1);
            return Err(Failed);
        }
        let left = &self.bytes.as_slice()[self.at..];
        let count = piece.len().min(left.len());
        piece[..count].copy_from_slice(&left[..count]);
        self.at += count;
        Ok(count)
    }
}

/// Room in memory that is written to.
///
/// Calls of `write_all` are counted from 0, and those in the list fail. A piece that doesn't fit is a failure too, and the
/// part that fits is appended. Each failure raises the count of faults by one. No call in the list is after number
/// 2^32 - 1.
#[derive(Drop)]
pub struct MemorySink {
    bytes: Vec<u8>,
    room: u32,
    failing: Vec<u32>,
    calls: u64,
    faults: u64,
}

impl Model for MemorySink {
    ghost use Rattle.std.specs.Prelude.{◌≤◌, vec_len};
    ghost use Rattle.std.specs.Vec.{vec_capacity};
    ghost use Rattle.raid_base.specs.Streams.{Page};

    ghost Value = { Page };

    ghost view = { λ s. record { written = s.bytes.items; room = s.room; failing = s.failing.items; calls = s.calls; faults = s.faults } };

    ghost invariant = { λ s. (s.room ≤ vec_capacity s.bytes) × (vec_len s.bytes ≤ s.room) };
}

impl MemorySink {
    /// A sink with this much room, which it takes here and never adds to, and whose calls of these numbers fail.
    pub fn make(alloc: Global, room: u32, failing: Vec<u32>) -> Result<Self, NoMemory>
        ensures { IfOk result (λ sink. sink ≡ record { written = []; room = room; failing = failing.items; calls = 0; faults = 0 }) }
    {
        let bytes = match Vec::with_capacity(alloc, room as usize) {
            Ok(bytes) => bytes,
            Err(_) => return Err(NoMemory),
        };
        Ok(MemorySink {
            bytes,
            room,
            failing,
            calls: 0,
            faults: 0,
        })
    }

    /// The bytes that were written.
    pub fn written(&self) -> &[u8]
        ensures value { result.now ≡ self.now.written }
        ensures fits { length self.now.written ≤ self.now.room }
    {
        self.bytes.as_slice()
    }

    /// How often it has failed.
    pub fn faults(&self) -> u64
        ensures { result ≡ self.now.faults }
    {
        self.faults
    }
}

impl Sink for MemorySink {
    ghost use Rattle.std.proofs.Common.{sym};
    ghost use Rattle.std.proofs.lemmas.List.{append-nil};

    ghost written = { λ s. s.written };

    ghost held = { λ s. [] };

    ghost tells = { λ s. true };

    ghost faults = { λ s. s.faults };

    ghost last = { λ s tells. (s.written, sym (append-nil s.written)) };

    fn write_all(&mut self, piece: &[u8]) -> Result<(), Failed>
        ensures appended { OnOk result (self.new.written ≡ self.old.written ++ piece.now) }
        ensures part { OnErr result (AppendsPart self.old.written self.new.written piece.now) }
        ensures cause { HasCause self.old.faults self.new.faults (is_err result) }
        ensures fails { is_err result ≡ write_fails self.old (length piece.now) }
        ensures new { self.new ≡ write_leaves self.old piece.now }
    {
        let fails = is_failing(self.failing.as_slice(), self.calls);
        let free = self.room as usize - self.bytes.len();
        let count = if fails { 0 } else { piece.len().min(free) };
        self.calls = self.calls.saturating_add(1);
        match self.bytes.extend_from_slice(&piece[..count]) {
            Ok(()) => {}
            Err(_) => unreachable!(),
        }
        if fails || count < piece.len() {
            self.faults = self.faults.saturating_add(1);
            return Err(Failed);
        }
        Ok(())
    }

    fn flush(&mut self) -> Result<(), Failed>
        ensures ok { IsOk result }
        ensures same { self.new ≡ self.old }
        ensures cause { HasCause self.old.faults self.new.faults (is_err result) }
    {
        Ok(())
    }
}

#[cfg(test)]
mod tests {
    use super::*;
    use std::test::Fail;

    #[test]
    fn a_source_gives_its_bytes_in_order_and_fails_where_told(rt: HostRuntime) -> Result<(), Fail> {
        let alloc = rt.alloc();
        let bytes = vec![in alloc; 10, 20, 30, 40, 50]?;
        let mut source = MemorySource::make(bytes, vec![in alloc; 1, 4]?);
        let cases: [(Result<usize, Failed>, [u8; 2], u64); 6] = [
            (Ok(2), [10, 20], 0),
            (Err(Failed), [0, 0], 1),
            (Ok(2), [30, 40], 1),
            (Ok(1), [50, 0], 1),
            (Err(Failed), [0, 0], 2),
            (Ok(0), [0, 0], 2),
        ];
        for (answer, moved, faults) in &cases {
            let mut piece = [0; 2];
            assert_eq!(rt; source.read(&mut piece), *answer);
            assert_eq!(rt; piece, *moved);
            assert_eq!(rt; source.faults(), *faults);
        }
        assert!(rt; source.left().is_empty());
        Ok(())
    }

    #[test]
    fn a_sink_keeps_what_fits(rt: HostRuntime) -> Result<(), Fail> {
        let alloc = rt.alloc();
        let mut sink = MemorySink::make(alloc, 4, vec![in alloc; 0]?)?;
        let cases: [(&[u8], Result<(), Failed>, &[u8], u64); 5] = [
            (&[1], Err(Failed), &[], 1),
            (&[1, 2, 3], Ok(()), &[1, 2, 3], 1),
            (&[4, 5], Err(Failed), &[1, 2, 3, 4], 2),
            (&[], Ok(()), &[1, 2, 3, 4], 2),
            (&[6], Err(Failed), &[1, 2, 3, 4], 3),
        ];
        for (piece, answer, written, faults) in &cases {
            assert_eq!(rt; sink.write_all(piece), *answer);
            assert_eq!(rt; sink.written(), *written);
            assert_eq!(rt; sink.faults(), *faults);
        }
        Ok(())
    }
}
