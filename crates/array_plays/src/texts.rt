//! The texts of scripts and of the reports that are to come of them.

use std::alloc::Global;
use std::test::Fail;

/// Five devices and one row under stamps: the units are on bays 0 to 3 and the parity on bay 4.
pub const STAMPS: &[&str] = &[
    "raid 1",
    "devices 5",
    "rows 1",
    "mode order",
    "patience 3",
    "tries 2",
    "object a 0",
];

/// The same under locks.
pub const LOCKS: &[&str] = &[
    "raid 1",
    "devices 5",
    "rows 1",
    "mode lock",
    "patience 3",
    "tries 2",
    "object a 0",
];

/// Three devices and one row: the units are on bays 0 and 1 and the parity on bay 2.
pub const THREE: &[&str] = &[
    "raid 1",
    "devices 3",
    "rows 1",
    "mode order",
    "patience 3",
    "tries 2",
    "object a 0",
];

/// Turns of a host, one at each moment from the first to the last.
pub type Spell = (u8, u64, u64);

pub fn push_lines(text: &mut String, lines: &[&str]) -> Result<(), Fail> {
    for line in lines {
        writeln!(text, "{line}")?;
    }
    Ok(())
}

pub fn push_turns(text: &mut String, spells: &[Spell]) -> Result<(), Fail> {
    for (host, first, last) in spells {
        for moment in *first..=*last {
            writeln!(text, "turn {host} {moment}")?;
        }
    }
    Ok(())
}

/// The lines of a script up to its turns.
pub fn lines_of(alloc: Global, head: &[&str], hosts: &[&str]) -> Result<String, Fail> {
    let mut text = String::new(alloc);
    push_lines(&mut text, head)?;
    push_lines(&mut text, hosts)?;
    Ok(text)
}

pub fn script_of(
    alloc: Global,
    head: &[&str],
    hosts: &[&str],
    turns: &[Spell],
) -> Result<String, Fail> {
    let mut text = lines_of(alloc, head, hosts)?;
    push_turns(&mut text, turns)?;
    push_lines(&mut text, &["end"])?;
    Ok(text)
}

/// Appends a line for each of these, with its number behind the first words.
fn push_numbered(text: &mut String, words: &str, items: &[&str]) -> Result<(), Fail> {
    for (number, item) in items.iter().enumerate() {
        writeln!(text, "{words} {number} {item}")?;
    }
    Ok(())
}

/// The first part of a report: how the jobs have ended, and the turns.
pub fn report_of(
    alloc: Global,
    results: &[&str],
    count: u32,
    turns: &[Spell],
    rounds: &[Spell],
) -> Result<String, Fail> {
    let mut text = String::new(alloc);
    push_lines(&mut text, &["report 1"])?;
    for end in results {
        writeln!(text, "job {end}")?;
    }
    writeln!(text, "turns {count}")?;
    push_turns(&mut text, turns)?;
    push_turns(&mut text, rounds)?;
    Ok(text)
}

/// The rest of it: what the blocks show, and which rows are closed.
pub fn push_state(text: &mut String, blocks: &[&str], rows: &[&str]) -> Result<(), Fail> {
    push_numbered(text, "block a", blocks)?;
    push_numbered(text, "row", rows)?;
    push_lines(text, &["end"])
}
