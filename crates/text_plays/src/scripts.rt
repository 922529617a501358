//! Scripts from their text.

use raid_base::{Kind, MemorySink};
use script_text::{ScriptFault, read_script, write_script};
use std::alloc::Global;
use std::test::Fail;
use text_lines::number_text;

const SMALLEST: &[u8] =
    b"raid 1\ndevices 3\nrows 1\nmode order\npatience 3\ntries 2\nobject a 0\nhost 1\nwrite a 0 41\nread a 0 1\nend\n";

/// The devices, the patience, the tries and the hosts of the smallest script, and whether it has this block alone.
fn smallest(alloc: Global, block: [u8; 64]) -> Result<(u8, u64, u8, usize, bool), Fail> {
    let script = read_script(alloc, SMALLEST)?;
    let has_block = script.blocks.as_slice() == [block].as_slice();
    Ok((
        script.n,
        script.patience,
        script.tries,
        script.hosts.len(),
        has_block,
    ))
}

#[test]
fn reads_the_smallest_array(rt: HostRuntime) -> Result<(), Fail> {
    assert_eq!(rt; smallest(rt.alloc(), [0x41; 64])?, (3, 3, 2, 1, true));
    Ok(())
}

const LINES: [&[u8]; 11] = [
    b"raid 1\n",
    b"devices 3\n",
    b"rows 1\n",
    b"mode order\n",
    b"patience 3\n",
    b"tries 2\n",
    b"object a 0\n",
    b"host 1\n",
    b"write a 0 41\n",
    b"read a 0 1\n",
    b"end\n",
];

/// A line of the smallest script, by its number; what stands in its place; and what is wrong with that.
const FAULTS: [(usize, &[u8], u32, Kind); 29] = [
    (2, b"devices 17\n", 2, Kind::Range),
    (7, b"object a 0 0\n", 7, Kind::Name),
    (9, b"write a 0\n", 9, Kind::Shape),
    (11, b"", 11, Kind::End),
    (11, b"end\nx", 12, Kind::Tail),
    (9, b"lose 0\n", 9, Kind::Operator),
    (2, b"devices 2\n", 2, Kind::Range),
    (2, b"devices 03\n", 2, Kind::Shape),
    (5, b"patience 1099511627776\n", 5, Kind::Range),
    (5, b"patience 99999999999999999999999\n", 5, Kind::Range),
    (9, b"write a  0 41\n", 9, Kind::Shape),
    (9, b"write a 0 41\r\n", 9, Kind::Shape),
    (9, b"write a 0 41 \n", 9, Kind::Shape),
    (
        9,
        b"write a 0 41414141414141414141414141414141414141414141414141414141414141414141414141414141414141414141414141414141414141414141414141414141\n",
        9,
        Kind::Shape,
    ),
    (10, b"read a 0 121\n", 10, Kind::Range),
    (10, b"host 1\n", 10, Kind::Range),
    (10, b"turn 2 1\n", 10, Kind::Name),
    (1, b"raid 2\n", 1, Kind::Shape),
    (4, b"mode both\n", 4, Kind::Shape),
    (9, b"lose 99\n", 9, Kind::Range),
    (9, b"read A 0 1\n", 9, Kind::Shape),
    (9, b"quit 0 read a 0 1\n", 9, Kind::Range),
    (10, b"object b 1\n", 10, Kind::Shape),
    (10, b"turn 1 0\nread a 0 1\n", 11, Kind::Shape),
    (7, b"object a 0\nobject a 1\n", 8, Kind::Range),
    (7, b"object a 0\nobject a 0\n", 8, Kind::Name),
    (7, b"object a 0\nobject b 0\n", 8, Kind::Name),
    (11, b"end", 11, Kind::End),
    (11, b"end\n\n", 12, Kind::Tail),
];

/// The smallest script with this text in place of a line, which is counted from 1.
fn with_line(alloc: Global, number: usize, text: &[u8]) -> Result<Vec<u8>, Fail> {
    let mut bytes = Vec::new(alloc);
    for (i, line) in LINES.iter().enumerate() {
        if i + 1 == number {
            bytes.extend_from_slice(text)?;
        } else {
            bytes.extend_from_slice(*line)?;
        }
    }
    Ok(bytes)
}

/// What is wrong with a text of less than 10,000 bytes.
fn fault(alloc: Global, bytes: &[u8]) -> Option<ScriptFault> {
    if bytes.len() >= 10_000 {
        return None;
    }
    read_script(alloc, bytes).err()
}

#[test]
fn tells_the_first_line_that_no_script_has(rt: HostRuntime) -> Result<(), Fail> {
    for (number, text, line, kind) in FAULTS {
        let bytes = with_line(rt.alloc(), number, text)?;
        assert_eq!(rt;
            fault(rt.alloc(), bytes.as_slice()),
            Some(ScriptFault::Bad { line, kind })
        );
    }
    let end = ScriptFault::Bad {
        line: 1,
        kind: Kind::End,
    };
    assert_eq!(rt; fault(rt.alloc(), b""), Some(end));
    Ok(())
}

/// Appends the line of an object with a name and a row of this number.
fn push_object(text: &mut Vec<u8>, row: u64) -> Result<(), Fail> {
    let number = number_text(row);
    text.extend_from_slice(b"object a")?;
    text.extend_from_slice(number.as_slice())?;
    text.extend_from_slice(b" ")?;
    text.extend_from_slice(number.as_slice())?;
    text.extend_from_slice(b"\n")?;
    Ok(())
}

/// A text of 65 objects, without an end.
fn many_objects(alloc: Global) -> Result<Vec<u8>, Fail> {
    let mut text = Vec::new(alloc);
    text.extend_from_slice(b"raid 1\ndevices 3\nrows 65\nmode order\npatience 3\ntries 2\n")?;
    for row in 0..64u64 {
        push_object(&mut text, row)?;
    }
    text.extend_from_slice(b"object b 64\n")?;
    Ok(text)
}

#[test]
fn has_64_objects_at_most(rt: HostRuntime) -> Result<(), Fail> {
    let text = many_objects(rt.alloc())?;
    let range = ScriptFault::Bad {
        line: 71,
        kind: Kind::Range,
    };
    assert_eq!(rt; fault(rt.alloc(), text.as_slice()), Some(range));
    Ok(())
}

/// A script of every kind of line.
const EVERY: &[u8] =
    b"raid 1\ndevices 16\nrows 4096\nmode lock\npatience 1099511627775\ntries 64\nobject a 0 4095 7\nobject b2 1\nhost 0\nlose 15\nfit 15\nquit 1048576 rebuild 0\nhost 3\nhost 15\nwrite a 1048575 00 000102030405060708090a0b0c0d0e0f101112131415161718191a1b1c1d1e1f202122232425262728292a2b2c2d2e2f303132333435363738393a3b3c3d3e3f ff\nquit 1 read nowhere 0 120\nrecover 4095\nwrite b2 0 41\nturn 0 0\nturn 15 1099511627775\nturn 3 5\nend\n";

/// Whether the script that is read from a text is written as that text.
fn is_written_back(alloc: Global, text: &[u8]) -> Result<bool, Fail> {
    if text.len() >= 10_000 {
        return Ok(false);
    }
    let script = read_script(alloc, text)?;
    let mut sink = MemorySink::make(alloc, 1000, Vec::new(alloc))?;
    write_script(&mut sink, &script)?;
    Ok(sink.written() == text)
}

#[test]
fn reads_what_it_writes(rt: HostRuntime) -> Result<(), Fail> {
    assert!(rt; is_written_back(rt.alloc(), SMALLEST)?);
    assert!(rt; is_written_back(rt.alloc(), EVERY)?);
    let least = b"raid 1\ndevices 3\nrows 1\nmode lock\npatience 0\ntries 1\nend\n";
    assert!(rt; is_written_back(rt.alloc(), least)?);
    Ok(())
}
