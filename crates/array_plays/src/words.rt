//! The words that are commands, what they do, and the numbers that the program exits with.

use crate::smallest::{REPORT, SCRIPT, part_of_report};
use crate::thread_runs::Counting;
use array_cli::{Command, array, exit_number, read_command};
use block_store::MemoryStore;
use rack_turns::NoGate;
use raid_base::{BayNo, Kind, MemorySink, MemorySource, Status};
use std::alloc::Global;
use std::sync::Wait;
use std::test::Fail;
use std::thread::Threads;

/// Whether these words ask for this command.
fn asks(alloc: Global, texts: &[&str], command: Option<Command>) -> Result<bool, Fail> {
    let mut words = Vec::new(alloc);
    for text in texts {
        words.push(String::from_str(alloc, *text)?)?;
    }
    Ok(read_command(alloc, words.as_slice())? == command)
}

#[test]
fn sim_run_and_a_load_are_commands(rt: HostRuntime) -> Result<(), Fail> {
    let table: [(&[&str], Command); 4] = [
        (&["sim"], Command::Sim),
        (&["run"], Command::Run),
        (&["load", "1"], Command::Load { jobs: 1 }),
        (&["load", "1500"], Command::Load { jobs: 1_500 }),
    ];
    for (texts, command) in &table {
        assert!(rt; asks(rt.alloc(), texts, Some(*command))?);
    }
    Ok(())
}

#[test]
fn other_words_are_no_command(rt: HostRuntime) -> Result<(), Fail> {
    let table: [&[&str]; 28] = [
        &[],
        &[""],
        &["", ""],
        &["si"],
        &["simm"],
        &["Sim"],
        &["sim", "--"],
        &["sim", ""],
        &["--", "sim"],
        &["sim", "sim"],
        &["run", "x"],
        &["-"],
        &["-h"],
        &["--help"],
        &["help"],
        &["help", "sim"],
        &["x", "load"],
        &["load"],
        &["load", ""],
        &["load", "0"],
        &["load", "01"],
        &["load", "+5"],
        &["load", "-5"],
        &["load", "1501"],
        &["load", "18446744073709551617"],
        &["load", "5", "5"],
        &["load", "5", "--"],
        &["load", "--", "5"],
    ];
    for texts in &table {
        assert!(rt; asks(rt.alloc(), texts, None)?);
    }
    Ok(())
}

#[test]
fn each_status_has_its_exit_number(rt: HostRuntime) {
    let shape = Status::BadScript {
        line: 1,
        kind: Kind::Shape,
    };
    let table = [
        (Status::Done, 0),
        (Status::Words, 2),
        (Status::ReadFault, 3),
        (Status::TooLong, 4),
        (shape, 5),
        (Status::TooMuch { total: 1_048_577 }, 6),
        (Status::TooFewStores { have: 2, need: 3 }, 7),
        (Status::TooSmall { bay: BayNo(1) }, 8),
        (Status::StoreFault { bay: BayNo(1) }, 9),
        (Status::WriteFault, 10),
        (Status::Memory, 11),
    ];
    for (status, number) in table {
        assert_eq!(rt; exit_number(status), number);
    }
}

/// How a call has ended, and what it leaves.
#[derive(Clone, Copy)]
struct Left {
    status: Status,
    stores: usize,
    turns: usize,
    /// How many bytes of the report were printed, and none where something else was.
    printed: Option<usize>,
    /// How many bytes of the script were not read.
    unread: usize,
}

/// A call with one word on the smallest script over three stores.
fn call_with<R: Threads + Wait + Sync>(rt: &R, alloc: Global, word: &str) -> Result<Left, Fail> {
    let words = vec![in alloc; String::from_str(alloc, word)?]?;
    let mut source = MemorySource::make(SCRIPT.to_vec(alloc)?, Vec::new(alloc));
    let mut sink = MemorySink::make(alloc, 4_096, Vec::new(alloc))?;
    let mut stores = Vec::new(alloc);
    for _store in 0..3 {
        stores.push(MemoryStore::make(alloc, 1)?)?;
    }
    let clock = Counting::new();
    let outcome = array(
        rt,
        alloc,
        words.as_slice(),
        &mut source,
        &mut sink,
        stores,
        &clock,
        &NoGate,
    );
    Ok(Left {
        status: outcome.status,
        stores: outcome.stores.len(),
        turns: outcome.turns.len(),
        printed: part_of_report(sink.written()),
        unread: source.left().len(),
    })
}

#[test]
fn the_word_sim_plays_the_script(rt: HostRuntime) -> Result<(), Fail> {
    let left = call_with(&rt, rt.alloc(), "sim")?;
    assert_eq!(rt; left.status, Status::Done);
    assert_eq!(rt; left.printed, Some(REPORT.len()));
    assert_eq!(rt; left.unread, 0);
    Ok(())
}

#[test]
fn other_words_touch_nothing(rt: HostRuntime) -> Result<(), Fail> {
    let left = call_with(&rt, rt.alloc(), "load")?;
    assert_eq!(rt; left.status, Status::Words);
    assert!(rt; left.stores == 3 && left.turns == 0);
    assert_eq!(rt; left.printed, Some(0));
    assert_eq!(rt; left.unread, SCRIPT.len());
    Ok(())
}
