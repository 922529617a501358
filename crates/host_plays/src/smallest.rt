//! A host of the smallest array.
ghost use Rattle.std.specs.Prelude.{◌<◌, IfOk};
ghost use Rattle.script_text.specs.Ranges.{IsScript};

use crate::hosts::make_host;
use crate::steps::shown;
use host_engine::attempt::Attempt;
use host_engine::lookup;
use host_engine::room::{contents_in, requests_in, task_parts};
use place_numbers::Numbers;
use raid_base::{
    Ask, BayNo, Content, Ended, HostNo, How, Name, Number, PartsFault, Reply, Request, RowNo, Task,
    fits,
};
use script_text::{Script, read_script};
use std::alloc::Global;
use std::test::Fail;

const TEXT: &[u8] =
    b"raid 1\ndevices 3\nrows 1\nmode order\npatience 3\ntries 2\nobject a 0\nhost 1\nwrite a 0 41\nread a 0 1\nend\n";

fn smallest(alloc: Global) -> Result<Script, Fail>
    ensures { IfOk result IsScript }
{
    Ok(read_script(alloc, TEXT)?)
}

/// What a host asks first, and whether nothing is recorded before.
fn first_ask(alloc: Global, no: HostNo) -> Result<(Option<(BayNo, Ask)>, bool), Fail>
    requires { no.0 < 16 }
{
    let script = smallest(alloc)?;
    let host = make_host(alloc, no, &script)?;
    let is_fresh = host.results().is_empty()
        && host.read_contents().is_empty()
        && host.transcript().is_empty();
    Ok((host.next(1), is_fresh))
}

#[test]
fn first_claims_the_parity(rt: HostRuntime) -> Result<(), Fail> {
    let claim = Ask {
        host: HostNo(1),
        clock: 0,
        moment: 1,
        what: Request::Claim {
            row: RowNo(0),
            id: Number(1),
            how: How::Plain,
            mask: 1,
            want: false,
        },
    };
    let (asked, is_fresh) = first_ask(rt.alloc(), HostNo(1))?;
    assert_eq!(rt; asked, Some((BayNo(2), claim)));
    assert!(rt; is_fresh);
    let (none, _) = first_ask(rt.alloc(), HostNo(2))?;
    assert!(rt; none.is_none());
    Ok(())
}

/// The greatest numbers of requests and contents of a host.
fn most_of(script: &Script, no: HostNo) -> Result<(usize, usize), Fail>
    requires { IsScript script.now }
{
    let jobs = lookup::jobs_of(script, no);
    if jobs.len() > 100 {
        return Err("too many jobs")?;
    }
    Ok((requests_in(script, jobs), contents_in(jobs)))
}

/// The greatest numbers of requests and contents of a host of the smallest array.
fn room_of(alloc: Global, no: HostNo) -> Result<(usize, usize), Fail> {
    let script = smallest(alloc)?;
    most_of(&script, no)
}

/// The tries of a job, whether one block is written first, and whether none is behind it.
fn looked_up(alloc: Global) -> Result<(u8, bool, bool), Fail> {
    let script = smallest(alloc)?;
    let first = lookup::blocks_of(&script, 0, 1) == [[0x41; 64]].as_slice();
    let is_last = lookup::blocks_of(&script, 1, 1).is_empty();
    Ok((lookup::tries(&script), first, is_last))
}

#[test]
fn has_room_for_each_try(rt: HostRuntime) -> Result<(), Fail> {
    assert_eq!(rt; room_of(rt.alloc(), HostNo(1))?, (2 * 2 * 4 * 3, 1));
    assert_eq!(rt; room_of(rt.alloc(), HostNo(2))?, (0, 0));
    assert_eq!(rt; looked_up(rt.alloc())?, (2, true, true));
    Ok(())
}

/// Whether a read of the last block and of one behind it is past the end of two blocks.
fn is_past_end(alloc: Global) -> Result<bool, Fail> {
    let script = smallest(alloc)?;
    let past = Task::Read {
        object: Name::new(b"a").ok_or("no name")?,
        first: 1,
        count: 2,
    };
    Ok(matches!(
        task_parts(&script, &past),
        Err(PartsFault::PastEnd { blocks: 2 })
    ))
}

/// What is asked to read the first block; how the read ends with this reply; and whether it has read this content alone.
fn read_first(
    alloc: Global,
    reply: &Reply,
    content: Content,
) -> Result<((BayNo, Request), Option<Ended>, bool), Fail> {
    let script = smallest(alloc)?;
    let task = Task::Read {
        object: Name::new(b"a").ok_or("no name")?,
        first: 0,
        count: 1,
    };
    let mut read = Attempt::new(alloc)?;
    match task_parts(&script, &task) {
        Ok(_) => read.begin(&script, HostNo(1), Number(17), RowNo(0), &task),
        Err(_) => return Err("no parts")?,
    }
    let next = read.next(&[]).ok_or("no request")?;
    if fits(&next.request, reply) {
        read.take(&[], reply, &mut Numbers::new(HostNo(1)));
    }
    let has_read = read.next(&[]).is_none() && read.contents() == [content].as_slice();
    Ok(((next.bay, next.request), read.end(), has_read))
}

#[test]
fn reads_the_first_block(rt: HostRuntime) -> Result<(), Fail> {
    assert!(rt; is_past_end(rt.alloc())?);
    let share = Request::Share {
        row: RowNo(0),
        id: Number(17),
        want: true,
    };
    let content = Content::Bytes([7; 64]);
    let (asked, ended, has_read) = read_first(rt.alloc(), &shown(7), content)?;
    assert_eq!(rt; asked, (BayNo(0), share));
    assert_eq!(rt; ended, Some(Ended::Read { number: Number(17) }));
    assert!(rt; has_read);
    Ok(())
}
