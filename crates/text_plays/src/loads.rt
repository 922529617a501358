//! Loads against texts that were worked out apart.

use load_maker::{loads_are_scripts, make_load};
use raid_base::MemorySink;
use script_text::{read_script, total, write_script};
use std::alloc::Global;
use std::test::Fail;
use text_lines::number_text;

const LOAD_1: &[u8] = b"host 0
lose 3
fit 3
rebuild 3
host 1
write b 556 5a f3 9a f6 29 ba fb
host 2
host 3
host 4
host 5
host 6
host 7
host 8
end
";

const LOAD_2: &[u8] = b"host 0
lose 3
fit 3
rebuild 3
host 1
read a 1480 1
host 2
write b 348 71 da a7 12 f2 02 40
host 3
host 4
host 5
host 6
host 7
host 8
end
";

const LOAD_10: &[u8] = b"host 0
lose 3
fit 3
rebuild 3
host 1
read a 947 7
write b 1654 e3 9e d9 19 55 c8 f9
host 2
read b 367 4
read b 1439 1
host 3
read a 1599 4
host 4
write b 1247 6f 9d d8 d4 8f aa
host 5
write a 605 72 76
host 6
write a 1492 6b ae 65 ef
host 7
read b 288 6
host 8
read b 1026 8
end
";

/// Appends the line of an object of 256 rows.
fn push_object(text: &mut Vec<u8>, label: &[u8], first: u32) -> Result<(), Fail> {
    text.extend_from_slice(label)?;
    for row in 0..256u64 {
        text.extend_from_slice(b" ")?;
        text.extend_from_slice(number_text(u64::from(first) + row).as_slice())?;
    }
    text.extend_from_slice(b"\n")?;
    Ok(())
}

/// The text of a load's script of this mode, with these lines of hosts.
fn text_with(alloc: Global, mode: &[u8], hosts: &[u8]) -> Result<Vec<u8>, Fail> {
    let mut text = Vec::new(alloc);
    text.extend_from_slice(b"raid 1\ndevices 8\nrows 512\nmode ")?;
    text.extend_from_slice(mode)?;
    text.extend_from_slice(b"\npatience 64\ntries 8\n")?;
    push_object(&mut text, b"object a", 0)?;
    push_object(&mut text, b"object b", 256)?;
    text.extend_from_slice(hosts)?;
    Ok(text)
}

/// The text of a load's script.
fn text_of(alloc: Global, n: u32) -> Result<MemorySink, Fail> {
    let mut sink = MemorySink::make(alloc, 1_000_000, Vec::new(alloc))?;
    if n >= 1 && n <= 1500 {
        let script = make_load(alloc, n)?;
        write_script(&mut sink, &script)?;
    }
    Ok(sink)
}

/// Whether a load has the script of this mode, with these lines of hosts.
fn is_load(alloc: Global, n: u32, mode: &[u8], hosts: &[u8]) -> Result<bool, Fail> {
    let text = text_with(alloc, mode, hosts)?;
    let sink = text_of(alloc, n)?;
    Ok(sink.written() == text.as_slice())
}

#[test]
fn loads_are_these_scripts(rt: HostRuntime) -> Result<(), Fail> {
    assert!(rt; is_load(rt.alloc(), 1, b"lock", LOAD_1)?);
    assert!(rt; is_load(rt.alloc(), 2, b"order", LOAD_2)?);
    assert!(rt; is_load(rt.alloc(), 10, b"order", LOAD_10)?);
    Ok(())
}

/// Whether the script that is read from a load's text is written as that text.
fn is_read_back(alloc: Global, text: &[u8]) -> Result<bool, Fail> {
    if text.len() >= 1_000_000 {
        return Ok(false);
    }
    let script = read_script(alloc, text)?;
    let mut again = MemorySink::make(alloc, 1_000_000, Vec::new(alloc))?;
    write_script(&mut again, &script)?;
    Ok(again.written() == text)
}

#[test]
fn a_load_is_read_back_from_its_text(rt: HostRuntime) -> Result<(), Fail> {
    let sink = text_of(rt.alloc(), 1500)?;
    assert!(rt; is_read_back(rt.alloc(), sink.written())?);
    Ok(())
}

/// The total weight of a load's script, and 0 where there is no such load.
fn total_weight(alloc: Global, n: u32) -> Result<u64, Fail> {
    if n < 1 || n > 1500 {
        return Ok(0);
    }
    let script = make_load(alloc, n)?;
    loads_are_scripts();
    Ok(total(&script))
}

#[test]
fn loads_weigh_so_much(rt: HostRuntime) -> Result<(), Fail> {
    for (n, weight) in [
        (1, 131_600),
        (2, 131_856),
        (10, 134_416),
        (1000, 514_064),
        (1500, 698_640),
    ] {
        assert_eq!(rt; total_weight(rt.alloc(), n)?, weight);
    }
    Ok(())
}
