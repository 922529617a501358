//! Inputs of a size that is taken, of one byte more, and of a source that fails.

use crate::smallest::SCRIPT;
use array_cli::{InputFault, read_all};
use raid_base::MemorySource;
use std::alloc::Global;
use std::test::Fail;

/// Whether these bytes are given back whole and the source is at its end, where at most so many are taken.
fn is_whole(alloc: Global, bytes: &[u8], most: usize) -> Result<bool, Fail> {
    let mut source = MemorySource::make(bytes.to_vec(alloc)?, vec![in alloc; 9]?);
    let read = read_all(alloc, &mut source, most)?;
    Ok(read.as_slice() == bytes && source.left().is_empty())
}

#[test]
fn a_small_script_is_given_back_whole(rt: HostRuntime) -> Result<(), Fail> {
    for most in [SCRIPT.len(), 16_777_216] {
        assert!(rt; is_whole(rt.alloc(), SCRIPT, most)?);
    }
    Ok(())
}

#[test]
fn an_input_of_several_pieces_is_given_back_whole(rt: HostRuntime) -> Result<(), Fail> {
    let bytes = vec![in rt.alloc(); b'x'; 10_000]?;
    assert!(rt; is_whole(rt.alloc(), bytes.as_slice(), 10_000)?);
    Ok(())
}

/// Why these bytes are not read, where at most so many are taken and this call of the source fails, and the count of faults.
fn fault_of(
    alloc: Global,
    bytes: &[u8],
    most: usize,
    failing: u32,
) -> Result<(Option<InputFault>, u64), Fail> {
    let mut source = MemorySource::make(bytes.to_vec(alloc)?, vec![in alloc; failing]?);
    let fault = read_all(alloc, &mut source, most).err();
    Ok((fault, source.faults()))
}

#[test]
fn one_byte_more_is_too_long(rt: HostRuntime) -> Result<(), Fail> {
    for length in [1, 4_096, 9_000] {
        let bytes = vec![in rt.alloc(); b'x'; length]?;
        let (fault, _) = fault_of(rt.alloc(), bytes.as_slice(), length - 1, 9)?;
        assert_eq!(rt; fault, Some(InputFault::TooLong));
    }
    Ok(())
}

#[test]
fn a_source_that_fails_is_a_read_fault(rt: HostRuntime) -> Result<(), Fail> {
    for failing in [0, 1] {
        let fault = fault_of(rt.alloc(), SCRIPT, 1_000, failing)?;
        assert_eq!(rt; fault, (Some(InputFault::Read), 1));
    }
    Ok(())
}
