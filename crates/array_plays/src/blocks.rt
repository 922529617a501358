//! A report that leaves in blocks, through a buffer.

use crate::smallest::{REPORT, SCRIPT};
use array_cli::sim_call;
use block_store::MemoryStore;
use raid_base::streams::standard::WriterSink;
use raid_base::{MemorySource, Status};
use std::alloc::Global;
use std::io::BufWriter;
use std::test::Fail;

/// How many bytes leave at a time.
const BLOCKS: [usize; 3] = [1, 50, 1 << 16];

/// A call on the smallest script, whose report goes into this room in blocks of so many bytes.
fn status(alloc: Global, block: usize, room: &mut [u8]) -> Result<Status, Fail> {
    let mut source = MemorySource::make(SCRIPT.to_vec(alloc)?, Vec::new(alloc));
    let mut sink = WriterSink::over(BufWriter::with_capacity(alloc, block, room)?);
    let mut stores = Vec::new(alloc);
    for _bay in 0..3 {
        stores.push(MemoryStore::make(alloc, 1)?)?;
    }
    Ok(sim_call(alloc, &mut source, &mut sink, stores).status)
}

#[test]
fn a_report_has_left_at_the_end_of_the_call(rt: HostRuntime) -> Result<(), Fail> {
    for block in BLOCKS {
        let mut room = vec![in rt.alloc(); 0; REPORT.len()]?;
        let end = status(rt.alloc(), block, room.as_mut_slice())?;
        assert_eq!(rt; end, Status::Done);
        assert!(rt; room.as_slice() == REPORT);
    }
    Ok(())
}

#[test]
fn a_first_part_has_left_where_the_room_is_too_small(rt: HostRuntime) -> Result<(), Fail> {
    for block in BLOCKS {
        for size in [0, 1, 60, REPORT.len() - 1] {
            let mut room = vec![in rt.alloc(); 0; size]?;
            let end = status(rt.alloc(), block, room.as_mut_slice())?;
            assert_eq!(rt; end, Status::WriteFault);
            assert!(rt; room.as_slice() == &REPORT[..size]);
        }
    }
    Ok(())
}
