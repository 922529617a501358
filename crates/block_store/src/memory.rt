//! A store in memory.
ghost use Rattle.std.specs.Prelude.{◌≡◌, ◌≤◌, ◌-◌, ◌++◌, IfOk, IsOk, replicate, length, slice_index_or, slice_set, vec_len};
ghost use Rattle.std.specs.Vec.{vec_capacity};
ghost use Rattle.raid_base.specs.Cells.{zeros};

use crate::store::Store;
use raid_base::{Failed, NoMemory, RowNo};
use std::alloc::Global;
use std::marker::Model;

/// Blocks in memory. No call fails. Contracts see it as the list of its blocks.
///
/// Only the blocks up to the last one that was written are kept, in room that is reserved from the start; the others are zeros.
#[derive(Drop)]
pub struct MemoryStore {
    blocks: Vec<[u8; 64]>,
    size: u32,
}

impl Model for MemoryStore {
    ghost use Rattle.std.specs.Prelude.{ℕ, List, length, replicate, vec_len, ◌++◌, ◌-◌, ◌≤◌};
    ghost use Rattle.std.specs.Vec.{vec_capacity};
    ghost use Rattle.raid_base.specs.Cells.{zeros};

    ghost Value = { List (List ℕ) };

    ghost view = { λ s. s.blocks.items ++ replicate (s.size - length s.blocks.items) zeros };

    ghost invariant = { λ s. (vec_len s.blocks ≤ s.size) × (s.size ≤ vec_capacity s.blocks) };
}

impl MemoryStore {
    /// So many blocks of zeros.
    pub fn make(alloc: Global, blocks: u32) -> Result<MemoryStore, NoMemory>
        ensures { IfOk result (λ store. store ≡ replicate blocks zeros) }
    {
        match Vec::with_capacity(alloc, blocks as usize) {
            Ok(room) => Ok(MemoryStore {
                blocks: room,
                size: blocks,
            }),
            Err(_) => Err(NoMemory),
        }
    }
}

/// Adds blocks of zeros until there are so many.
fn fill(blocks: &mut Vec<[u8; 64]>, count: usize)
    requires few { vec_len blocks.old ≤ count }
    requires room { count ≤ vec_capacity blocks.old }
    ensures items { blocks.new.items ≡ blocks.old.items ++ replicate (count - length blocks.old.items) zeros }
    ensures len { vec_len blocks.new ≡ count }
    ensures capacity { vec_capacity blocks.new ≡ vec_capacity blocks.old }
{
    while blocks.len() < count {
        blocks.push_reserved([0; 64]);
    }
}

impl Store for MemoryStore {
    ghost use Rattle.std.specs.Prelude.{◌≡◌, length, true, IfOk, IsOk, slice_index_or, slice_set, refl, ◌<◌};
    ghost use Rattle.raid_base.specs.Cells.{zeros};

    ghost content = { λ blocks. blocks };

    ghost tells = { λ blocks. true };

    ghost size = { λ blocks. length blocks };

    ghost faults = { λ blocks. 0 };

    ghost whole = { λ blocks told. refl };

    fn blocks(&self) -> u32 {
        self.size
    }

    fn read(&mut self, row: RowNo) -> Result<[u8; 64], Failed>
        requires { row.0 < length self.old }
        ensures ok { IsOk result }
        ensures block { IfOk result (λ bytes. bytes ≡ slice_index_or self.old row.0 zeros) }
        ensures same { self.new ≡ self.old }
    {
        let row = row.0 as usize;
        if row < self.blocks.len() {
            Ok(self.blocks[row])
        } else {
            Ok([0; 64])
        }
    }

    fn write(&mut self, row: RowNo, bytes: &[u8; 64]) -> Result<(), Failed>
        requires { row.0 < length self.old }
        ensures ok { IsOk result }
        ensures block { self.new ≡ slice_set self.old row.0 bytes.now }
    {
        let row = row.0 as usize;
        if row < self.blocks.len() {
            self.blocks[row] = *bytes;
        } else {
            fill(&mut self.blocks, row);
            self.blocks.push_reserved(*bytes);
        }
        Ok(())
    }
}

#[cfg(test)]
mod tests {
    use super::*;
    use std::test::Fail;

    #[test]
    fn keeps_blocks(rt: HostRuntime) -> Result<(), Fail> {
        let mut store = MemoryStore::make(rt.alloc(), 3)?;
        assert_eq!(rt; store.blocks(), 3);
        assert_eq!(rt; store.write(RowNo(2), &[7; 64]), Ok(()));
        assert_eq!(rt; store.read(RowNo(2)), Ok([7; 64]));
        assert_eq!(rt; store.read(RowNo(1)), Ok([0; 64]));
        Ok(())
    }
}
