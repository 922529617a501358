//! A store in memory some of whose calls fail, for tests and tries.
ghost use Rattle.std.specs.Prelude.{◌≡◌, ◌<◌, ◌==◌, IfOk, replicate};
ghost use Rattle.std.specs.List.{list_any};
ghost use Rattle.raid_base.specs.Cells.{zeros};
ghost use Rattle.block_store.specs.Failing.{Failing, fails, called, written};

use crate::memory::MemoryStore;
use crate::store::Store;
use raid_base::{Failed, NoMemory, RowNo};
use std::alloc::Global;
use std::marker::Model;

/// Blocks in memory, and the numbers of the calls that fail. Reads and writes are counted together, from 0.
#[derive(Drop)]
pub struct FailingStore {
    store: MemoryStore,
    failing: Vec<u32>,
    calls: u64,
    faults: u64,
}

impl Model for FailingStore {
    ghost use Rattle.std.specs.Prelude.{ℕ, ◌≤◌, ◌<◌, ◌^◌, slice_index_or};
    ghost use Rattle.block_store.specs.Failing.{Failing};

    ghost Value = { Failing };

    ghost view = { λ s. record { content = s.store; failing = s.failing.items; calls = s.calls; faults = s.faults } };

    ghost invariant = { λ s. (s.faults ≤ s.calls) × ((k : ℕ) → slice_index_or s.failing.items k 0 < 2 ^ 32) };
}

impl FailingStore {
    /// So many blocks of zeros. The calls of these numbers fail.
    pub fn make(alloc: Global, blocks: u32, failing: Vec<u32>) -> Result<FailingStore, NoMemory>
        ensures { IfOk result (λ store. store ≡ record { content = replicate blocks zeros; failing = failing.items; calls = 0; faults = 0 }) }
    {
        let store = MemoryStore::make(alloc, blocks)?;
        Ok(FailingStore {
            store,
            failing,
            calls: 0,
            faults: 0,
        })
    }

    /// Counts a call, and tells whether it fails.
    fn call(&mut self) -> bool
        ensures fails { result ≡ fails self.old }
        ensures counted { self.new ≡ called self.old }
    {
        let fails = is_among(&self.failing, self.calls);
        self.calls = self.calls.saturating_add(1);
        if fails {
            self.faults += 1;
        }
        fails
    }
}

/// Whether a call's number is among those.
fn is_among(calls: &[u32], call: u64) -> bool
    ensures { result ≡ list_any (λ other. other == call) calls.now }
{
    calls.iter().any(|other| u64::from(*other) == call)
}

impl Store for FailingStore {
    ghost use Rattle.std.specs.Prelude.{◌≡◌, length, true, IfOk, is_ok, not, slice_index_or, refl, ◌<◌};
    ghost use Rattle.raid_base.specs.Cells.{zeros};
    ghost use Rattle.block_store.specs.Failing.{Failing, fails, called, written};

    ghost content = { λ store. store.content };

    ghost tells = { λ store. true };

    ghost size = { λ store. length store.content };

    ghost faults = { λ store. store.faults };

    ghost whole = { λ store told. refl };

    fn blocks(&self) -> u32 {
        self.store.blocks()
    }

    fn read(&mut self, row: RowNo) -> Result<[u8; 64], Failed>
        requires { row.0 < length self.old.content }
        ensures fails { is_ok result ≡ not (fails self.old) }
        ensures block { IfOk result (λ bytes. bytes ≡ slice_index_or self.old.content row.0 zeros) }
        ensures counted { self.new ≡ called self.old }
    {
        if self.call() {
            return Err(Failed);
        }
        self.store.read(row)
    }

    fn write(&mut self, row: RowNo, bytes: &[u8; 64]) -> Result<(), Failed>
        requires { row.0 < length self.old.content }
        ensures fails { is_ok result ≡ not (fails self.old) }
        ensures written { self.new ≡ written self.old row.0 bytes.now }
    {
        if self.call() {
            Err(Failed)
        } else {
            self.store.write(row, bytes)
        }
    }
}

#[cfg(test)]
mod tests {
    use super::*;
    use std::test::Fail;

    #[test]
    fn fails_in_the_calls_told(rt: HostRuntime) -> Result<(), Fail> {
        let mut store = FailingStore::make(rt.alloc(), 2, vec![in rt.alloc(); 2, 5, 1]?)?;
        assert_eq!(rt; store.blocks(), 2);
        assert_eq!(rt; store.write(RowNo(1), &[7; 64]), Ok(()), "call 0");
        assert_eq!(rt; store.write(RowNo(1), &[8; 64]), Err(Failed), "call 1");
        assert_eq!(rt; store.read(RowNo(1)), Err(Failed), "call 2");
        assert_eq!(rt; store.read(RowNo(1)), Ok([7; 64]), "call 3");
        assert_eq!(rt; store.read(RowNo(0)), Ok([0; 64]), "call 4");
        assert_eq!(rt; store.write(RowNo(0), &[9; 64]), Err(Failed), "call 5");
        assert_eq!(rt; store.read(RowNo(0)), Ok([0; 64]), "call 6");
        Ok(())
    }
}
