//! Calls that end before a play: too few stores or too small ones, and texts that are no script.

use crate::smallest::SCRIPT;
use array_cli::sim_call;
use block_store::MemoryStore;
use raid_base::{BayNo, Kind, MemorySink, MemorySource, NoMemory, Status};
use std::alloc::Global;
use std::test::Fail;

/// A call on a text over so many stores of so many blocks.
fn status(alloc: Global, text: &[u8], blocks: &[u32]) -> Result<Status, NoMemory> {
    let bytes = text.to_vec(alloc).map_err(|_| NoMemory)?;
    let mut source = MemorySource::make(bytes, Vec::new(alloc));
    let mut sink = MemorySink::make(alloc, 4_096, Vec::new(alloc))?;
    let mut stores = Vec::new(alloc);
    for count in blocks {
        let store = MemoryStore::make(alloc, *count)?;
        stores.push(store).map_err(|_| NoMemory)?;
    }
    Ok(sim_call(alloc, &mut source, &mut sink, stores).status)
}

#[test]
fn stores_that_are_too_few_or_too_small_are_refused(rt: HostRuntime) -> Result<(), Fail> {
    let small = Status::TooSmall { bay: BayNo(1) };
    let table: [(&[u32], Status); 5] = [
        (&[], Status::TooFewStores { have: 0, need: 3 }),
        (&[1, 0], Status::TooFewStores { have: 2, need: 3 }),
        (&[1, 0, 0], small),
        (&[1, 0, 1, 1], small),
        (&[1, 1, 1, 0], Status::Done),
    ];
    for (blocks, end) in table {
        assert_eq!(rt; status(rt.alloc(), SCRIPT, blocks)?, end);
    }
    Ok(())
}

#[test]
fn a_text_that_is_no_script_is_told_by_its_line(rt: HostRuntime) -> Result<(), Fail> {
    let table: [(&[u8], u32, Kind); 6] = [
        (b"", 1, Kind::End),
        (&SCRIPT[1..], 1, Kind::Shape),
        (b"raid 1\ndevices 17\n", 2, Kind::Range),
        (&SCRIPT[..SCRIPT.len() - 4], 11, Kind::End),
        (
            b"raid 1\ndevices 3\nrows 1\nmode order\npatience 3\ntries 2\nobject a 0 0\n",
            7,
            Kind::Name,
        ),
        (
            b"raid 1\ndevices 3\nrows 1\nmode order\npatience 3\ntries 2\nend\n\n",
            8,
            Kind::Tail,
        ),
    ];
    for (text, line, kind) in table {
        let bad = Status::BadScript { line, kind };
        assert_eq!(rt; status(rt.alloc(), text, &[1, 1, 1])?, bad);
    }
    Ok(())
}

/// The lines of the smallest script.
const LINES: [&str; 11] = [
    "raid 1",
    "devices 3",
    "rows 1",
    "mode order",
    "patience 3",
    "tries 2",
    "object a 0",
    "host 1",
    "write a 0 41",
    "read a 0 1",
    "end",
];

/// That script with another line in the place of this one.
fn with_line(alloc: Global, number: u32, line: &str) -> Result<String, Fail> {
    let mut text = String::new(alloc);
    for (at, old) in (1..12).zip(&LINES) {
        if at == number {
            writeln!(text, "{line}")?;
        } else {
            writeln!(text, "{old}")?;
        }
    }
    Ok(text)
}

#[test]
fn a_line_that_may_not_stand_is_told_with_its_kind(rt: HostRuntime) -> Result<(), Fail> {
    let equal = format!(in rt.alloc(); "write a 0 {}", hex_of(rt.alloc())?)?;
    let table = [
        (2, "devices 17", Kind::Range),
        (2, "devices 2", Kind::Range),
        (2, "devices 03", Kind::Shape),
        (5, "patience 1099511627776", Kind::Range),
        (7, "object a 0 0", Kind::Name),
        (9, "write a 0", Kind::Shape),
        (9, "write a  0 41", Kind::Shape),
        (9, "write a 0 41\r", Kind::Shape),
        (9, equal.as_str(), Kind::Shape),
        (9, "lose 0", Kind::Operator),
        (10, "read a 0 121", Kind::Range),
        (10, "host 1", Kind::Range),
        (10, "turn 2 1", Kind::Name),
    ];
    for (line, text, kind) in table {
        let script = with_line(rt.alloc(), line, text)?;
        let bad = Status::BadScript { line, kind };
        assert_eq!(rt; status(rt.alloc(), script.as_bytes(), &[1, 1, 1])?, bad);
    }
    let same = with_line(rt.alloc(), 9, "write a 0 41")?;
    assert_eq!(rt; same.as_bytes(), SCRIPT);
    Ok(())
}

/// 64 equal bytes in as many digits as 64 bytes have that are not all equal.
fn hex_of(alloc: Global) -> Result<String, Fail> {
    let mut digits = String::new(alloc);
    for _byte in 0..64 {
        digits.push_str("41")?;
    }
    Ok(digits)
}
