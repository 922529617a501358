//! Hosts that stop after so many requests of a job.

use crate::hosts::{HOST, OPERATOR, Step, has_read, plays};
use crate::steps::{BUSY, NOTE, attempt_on, cell, fitted, granted, lost, shown};
use raid_base::{Cause, Content, How, JobEnd, Number};
use std::test::Fail;

/// The requests of a write of the first block, with the replies that let it be done.
fn write_steps() -> [Step; 6] {
    let write = attempt_on(0, 1);
    [
        write.claim(2, How::Plain, 1, granted(None)),
        write.share(1, shown(3)),
        write.claim(0, How::Plain, 0, granted(None)),
        write.confirm(2),
        write.put(0, 1, cell(0x41, 0)),
        write.put(2, 1, cell(0x42, 0)),
    ]
}

#[test]
fn a_write_that_stops_before_its_first_put_leaves_nothing(rt: HostRuntime) -> Result<(), Fail> {
    let jobs: [&[u8]; 4] = [
        b"host 1\nquit 1 write a 0 41\nread a 0 1\n",
        b"host 1\nquit 2 write a 0 41\nread a 0 1\n",
        b"host 1\nquit 3 write a 0 41\nread a 0 1\n",
        b"host 1\nquit 4 write a 0 41\nread a 0 1\n",
    ];
    let steps = write_steps();
    let gave = JobEnd::Gave {
        tries: 1,
        cause: Cause::Quit,
    };
    plays(&rt, rt.alloc(), HOST, jobs[0], &steps[..1], &[gave])?;
    plays(&rt, rt.alloc(), HOST, jobs[1], &steps[..2], &[gave])?;
    plays(&rt, rt.alloc(), HOST, jobs[2], &steps[..3], &[gave])?;
    plays(&rt, rt.alloc(), HOST, jobs[3], &steps[..4], &[gave])
}

#[test]
fn a_write_that_stops_after_a_put_is_done_in_part(rt: HostRuntime) -> Result<(), Fail> {
    let number = Number(1);
    let steps = write_steps();
    let part = JobEnd::Part {
        number,
        made: 1,
        cause: Cause::Quit,
    };
    let jobs = b"host 1\nquit 5 write a 0 41\nread a 0 1\n";
    plays(&rt, rt.alloc(), HOST, jobs, &steps[..5], &[part])?;
    let wrote = JobEnd::Wrote { number };
    let last = b"host 1\nquit 6 write a 0 41\nread a 0 1\n";
    plays(&rt, rt.alloc(), HOST, last, &steps, &[wrote])
}

#[test]
fn a_host_goes_on_where_it_does_not_stop(rt: HostRuntime) -> Result<(), Fail> {
    let [claim, share, second, confirm, put, parity] = write_steps();
    let read = attempt_on(0, 17).share(0, shown(0x41));
    let steps = [claim, share, second, confirm, put, parity, read];
    let ends = [
        JobEnd::Wrote { number: Number(1) },
        JobEnd::Read { number: Number(17) },
    ];
    let jobs = b"host 1\nquit 7 write a 0 41\nread a 0 1\n";
    plays(&rt, rt.alloc(), HOST, jobs, &steps, &ends)?;
    let contents = [Content::Bytes([0x41; 64])];
    assert!(rt; has_read(rt.alloc(), HOST, jobs, &steps, &contents)?);
    Ok(())
}

#[test]
fn a_refused_attempt_may_be_the_last_where_the_host_stops(rt: HostRuntime) -> Result<(), Fail> {
    let first = attempt_on(0, 1).claim(2, How::Plain, 1, BUSY);
    let again = attempt_on(0, 17).claim(2, How::Plain, 1, BUSY);
    let quit = JobEnd::Gave {
        tries: 1,
        cause: Cause::Quit,
    };
    let jobs = b"host 1\nquit 1 write a 0 41\nread a 0 1\n";
    plays(&rt, rt.alloc(), HOST, jobs, &[first], &[quit])?;
    let busy = JobEnd::Gave {
        tries: 2,
        cause: Cause::Busy { holder: NOTE },
    };
    let later = b"host 1\nquit 2 write a 0 41\nread a 0 1\n";
    plays(&rt, rt.alloc(), HOST, later, &[first, again], &[busy])
}

#[test]
fn the_operator_may_stop_too(rt: HostRuntime) -> Result<(), Fail> {
    let jobs = b"host 0\nquit 1 lose 1\nfit 1\n";
    plays(&rt, rt.alloc(), OPERATOR, jobs, &[lost(1)], &[JobEnd::Lost])?;
    let rebuild = b"host 0\nlose 0\nfit 0\nquit 7 rebuild 0\nlose 1\n";
    let mend = attempt_on(0, 16);
    let steps = [
        lost(0),
        fitted(0),
        mend.mend(2, shown(7)),
        mend.mend(0, granted(None)),
        mend.mend(1, shown(1)),
        mend.confirm(2),
        mend.put(0, 32, cell(6, 0)),
        mend.release(1),
        mend.release(2),
    ];
    let gave = JobEnd::Gave {
        tries: 1,
        cause: Cause::Quit,
    };
    let ends = [JobEnd::Lost, JobEnd::Fitted, gave];
    plays(&rt, rt.alloc(), OPERATOR, rebuild, &steps, &ends)
}
