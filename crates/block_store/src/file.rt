//! A store over a file: the edge to the outside. What the file holds or gives is not known to any proof.
ghost use Rattle.std.specs.Prelude.{◌≡◌, ◌≤◌};
ghost use Rattle.raid_base.specs.Counts.{risen};
ghost use Rattle.block_store.specs.OnFile.{OnFile};

use crate::store::Store;
use raid_base::{Failed, RowNo};
use std::fs::File;
use std::io;
use std::io::{Read, Seek, SeekFrom, Write};
use std::marker::Model;

/// The length of a block, in bytes.
const BLOCK_LENGTH: u64 = 64;

/// Blocks in a file, one behind the other. It tells no content.
#[derive(Drop)]
pub struct FileStore {
    file: File,
    blocks: u32,
    faults: u64,
}

impl Model for FileStore {
    ghost use Rattle.block_store.specs.OnFile.{OnFile};

    ghost Value = { OnFile };

    ghost view = { λ s. record { size = s.blocks; faults = s.faults } };
}

impl FileStore {
    /// The first blocks of a file, which is to be that long.
    pub fn over(file: File, blocks: u32) -> FileStore
        ensures { result ≡ record { size = blocks; faults = 0 } }
    {
        FileStore {
            file,
            blocks,
            faults: 0,
        }
    }

    fn fail(&mut self) -> Failed
        ensures later { self.old.faults ≤ self.new.faults }
        ensures counted { self.new ≡ record self.old { faults = risen self.old.faults } }
    {
        self.faults = self.faults.saturating_add(1);
        Failed
    }
}

/// Reads the block of a row.
fn read_block(file: &mut File, row: RowNo) -> io::Result<[u8; 64]> {
    let mut bytes = [0; 64];
    file.seek(SeekFrom::Start(row.0 as u64 * BLOCK_LENGTH))?;
    file.read_exact(&mut bytes)?;
    Ok(bytes)
}

/// Writes the block of a row.
fn write_block(file: &mut File, row: RowNo, bytes: &[u8; 64]) -> io::Result<()> {
    file.seek(SeekFrom::Start(row.0 as u64 * BLOCK_LENGTH))?;
    file.write_all(bytes)?;
    file.flush()
}

impl Store for FileStore {
    ghost use Rattle.std.specs.Prelude.{[], false, ◌≡◌};
    ghost use Rattle.std.proofs.lemmas.Bool.{false≢true};

    ghost content = { λ store. [] };

    ghost tells = { λ store. false };

    ghost size = { λ store. store.size };

    ghost faults = { λ store. store.faults };

    ghost whole = { λ store told. absurd (false≢true told) };

    fn blocks(&self) -> u32 {
        self.blocks
    }

    fn read(&mut self, row: RowNo) -> Result<[u8; 64], Failed> {
        match read_block(&mut self.file, row) {
            Ok(bytes) => Ok(bytes),
            Err(_) => Err(self.fail()),
        }
    }

    fn write(&mut self, row: RowNo, bytes: &[u8; 64]) -> Result<(), Failed> {
        match write_block(&mut self.file, row, bytes) {
            Ok(()) => Ok(()),
            Err(_) => Err(self.fail()),
        }
    }
}

#[cfg(test)]
mod tests {
    use super::*;
    use std::test::Fail;
    use std::{env, fs, process};

    #[test]
    fn keeps_blocks_in_a_file(rt: HostRuntime) -> Result<(), Fail> {
        let name = format!(in rt.alloc(); "block-store-test-{}", process::id(rt.process()))?;
        let path = env::temp_dir(&rt)?.join(rt.alloc(), name.as_str())?;
        let file = File::options()
            .read(true)
            .write(true)
            .create(true)
            .truncate(true)
            .open(&rt, path.as_path())?;
        file.set_len(3 * 64)?;
        let mut store = FileStore::over(file, 4);
        assert_eq!(rt; store.blocks(), 4);
        assert_eq!(rt; store.write(RowNo(1), &[7; 64]), Ok(()));
        assert_eq!(rt; store.write(RowNo(2), &[9; 64]), Ok(()));
        assert_eq!(rt; store.read(RowNo(1)), Ok([7; 64]));
        assert_eq!(rt; store.read(RowNo(0)), Ok([0; 64]));
        assert_eq!(rt;
            store.read(RowNo(3)),
            Err(Failed),
            "beyond the end of the file"
        );
        assert_eq!(rt; store.read(RowNo(2)), Ok([9; 64]));
        fs::remove_file(&rt, path.as_path())?;
        Ok(())
    }
}
