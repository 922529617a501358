//! Small journals merged, against turns that were worked out by hand.
ghost use Rattle.std.specs.Prelude.{◌≡◌, ◌+◌, ◌<◌, ◌^◌, length, IfOk};
ghost use Rattle.clock_merge.specs.Merge.{ClocksRise};

use crate::laws::{
    journals_rise, merged_calls_are_tied, merged_plays_are_tied, merges_are_unique, ticks_rise,
};
use crate::merging::{Turns, merge};
use raid_base::{Ask, Entry, HostNo, Reply, Request, Turn};
use std::alloc::Global;
use std::test::Fail;

/// A request of a host that was handled at a moment, with the clock of its reply.
#[derive(Clone, Copy)]
struct Told {
    host: u8,
    moment: u64,
    clock: u64,
}

fn handled(host: u8, moment: u64, clock: u64) -> Told {
    Told {
        host,
        moment,
        clock,
    }
}

fn turn(host: u8, moment: u64) -> Turn {
    Turn {
        host: HostNo(host),
        moment,
    }
}

fn entry(told: Told) -> Entry
    ensures { result.clock ≡ told.clock }
{
    let ask = Ask {
        host: HostNo(told.host),
        clock: 0,
        moment: told.moment,
        what: Request::Lose,
    };
    Entry::of(&ask, told.clock, &Reply::Done)
}

/// A journal of these, whose clocks are to rise from 1.
fn journal(alloc: Global, entries: &[Told]) -> Result<Vec<Entry>, Fail>
    ensures rises { IfOk result (λ journal. ClocksRise journal.items) }
    ensures length { IfOk result (λ journal. length journal.items ≡ length entries.now) }
{
    let mut journal = Vec::new(alloc);
    let mut last = 0;
    for next in entries {
        if next.clock <= last {
            return Err(Fail::from("clocks that rise"));
        }
        last = next.clock;
        journal.push(entry(*next))?;
    }
    Ok(journal)
}

/// The turns of the merge of three journals, in room for exactly all.
fn merged(alloc: Global, first: &[Told], second: &[Told], third: &[Told]) -> Result<Turns, Fail>
    requires { length first.now + length second.now + length third.now < 2 ^ 32 }
{
    let journals = [
        journal(alloc, first)?,
        journal(alloc, second)?,
        journal(alloc, third)?,
    ];
    let count = first.len() + second.len() + third.len();
    let mut turns = Turns::make(alloc, count as u32)?;
    merge(&mut turns, &journals);
    Ok(turns)
}

#[test]
fn turns_go_by_clocks(rt: HostRuntime) -> Result<(), Fail> {
    let turns = merged(
        rt.alloc(),
        &[handled(1, 10, 1), handled(2, 12, 4)],
        &[handled(2, 11, 2), handled(1, 13, 5)],
        &[handled(1, 14, 3)],
    )?;
    let by_clock = [
        turn(1, 10),
        turn(2, 11),
        turn(1, 14),
        turn(2, 12),
        turn(1, 13),
    ];
    assert!(rt; turns.as_slice() == by_clock.as_slice());
    Ok(())
}

#[test]
fn turns_of_one_clock_go_by_bays(rt: HostRuntime) -> Result<(), Fail> {
    let turns = merged(
        rt.alloc(),
        &[handled(1, 30, 7)],
        &[handled(2, 20, 6), handled(3, 25, 7)],
        &[handled(4, 21, 6), handled(5, 22, 7), handled(5, 23, 8)],
    )?;
    let by_bay = [
        turn(2, 20),
        turn(4, 21),
        turn(1, 30),
        turn(3, 25),
        turn(5, 22),
        turn(5, 23),
    ];
    assert!(rt; turns.as_slice() == by_bay.as_slice());
    Ok(())
}

#[test]
fn empty_journals_have_no_turns(rt: HostRuntime) -> Result<(), Fail> {
    let alone = merged(rt.alloc(), &[], &[handled(5, 7, 9), handled(6, 7, 10)], &[])?;
    assert!(rt; alone.as_slice() == [turn(5, 7), turn(6, 7)].as_slice());
    assert!(rt; merged(rt.alloc(), &[], &[], &[])?.as_slice().is_empty());
    Ok(())
}

#[test]
fn laws_are_called() {
    journals_rise();
    ticks_rise();
    merged_calls_are_tied();
    merged_plays_are_tied();
    merges_are_unique();
}
