//! Writes that stop before one of their requests, and writes in the room of another.
ghost use Rattle.std.specs.Prelude.{◌≡◌, length};
ghost use Rattle.host_write.specs.Tries.{block_count};

use crate::parts::{two_rows, two_units};
use crate::rows::{HELD, ID, ROW, Step, granted};
use crate::write_steps::{
    BLOCKS, MISSING, RENEWED, ROBBED, bare, claim, confirm, follows, lock_steps, part, put, put_at,
    puts, release, share, shown, wrote,
};
use host_write::WriteTry;
use place_numbers::Numbers;
use raid_base::{BayNo, Cause, Ended, HostNo, Mode, Number, Reply};
use std::process::Abort;

/// Writes with these replies, and tells how it ends where the host stops before each request.
fn stops(rt: &impl Abort, steps: &[(Step, Ended)]) {
    let blocks = &BLOCKS[..2];
    let mut numbers = Numbers::new(HostNo(1));
    let mut write = WriteTry::begin(Mode::Lock, 4, ID, two_units());
    for (step, ended) in steps {
        let Some((bay, request, reply)) = *step else {
            continue;
        };
        let next = write.next(blocks);
        assert_eq!(rt; next, Some((BayNo(bay), request)));
        if next.is_some() {
            assert_eq!(rt; write.quit(), *ended);
            write.take(blocks, &reply, &mut numbers);
        }
    }
}

#[test]
fn a_stopped_write_is_a_part_once_a_put_was_answered(rt: HostRuntime) {
    let quit = Ended::Refused(Cause::Quit);
    let after = |made| Ended::Part {
        number: Number(49),
        made,
        cause: Cause::Quit,
    };
    let begun = [
        (claim(2, 3, false, granted(None, 40)), quit),
        (share(1, shown(4)), quit),
        (claim(3, 0, false, bare()), quit),
        (claim(0, 0, false, bare()), quit),
        (confirm(false, HELD), quit),
        (put_at(49, 3, 8, RENEWED), quit),
        (put_at(49, 0, 9, Reply::Done), after(0)),
        (put_at(49, 2, 5, Reply::Done), after(2)),
        (release(1), after(3)),
    ];
    stops(&rt, &begun);
}

#[test]
fn a_refused_write_that_is_stopped_stays_refused(rt: HostRuntime) {
    let quit = Ended::Refused(Cause::Quit);
    let refused = [
        (claim(2, 3, false, bare()), quit),
        (share(1, Reply::Fault), quit),
        (release(2), quit),
    ];
    stops(&rt, &refused);
}

/// Takes these replies to whatever is asked.
fn takes(write: &mut WriteTry, blocks: &[[u8; 64]], replies: &[Reply])
    requires { length blocks.now ≡ block_count write.old }
{
    let mut numbers = Numbers::new(HostNo(1));
    for reply in replies {
        if write.next(blocks).is_some() {
            write.take(blocks, reply, &mut numbers);
        }
    }
}

/// Begins writes anew in the room of one of two rows that is left after these replies, and then of one that ended in
/// part.
fn begins_anew(rt: &impl Abort, replies: &[Reply]) {
    let blocks = &BLOCKS[..2];
    let mut write = WriteTry::begin(Mode::Order, 4, Number(33), two_rows());
    takes(&mut write, blocks, replies);
    assert!(rt; write.next(blocks).is_some());
    write.renew(Mode::Order, 4, ID, two_units());
    let steps = puts(Reply::Done, put(0, 9, ROBBED), None);
    let seized = Cause::Seized { row: ROW };
    follows(rt, &mut write, blocks, &steps, part(1, seized));
    write.renew(Mode::Lock, 4, ID, two_units());
    follows(rt, &mut write, blocks, &lock_steps(), wrote(49));
}

#[test]
fn a_write_in_the_room_of_another_goes_as_a_fresh_one(rt: HostRuntime) {
    let unconfirmed = [shown(7), shown(4), shown(7), shown(1), HELD, ROBBED];
    begins_anew(&rt, &unconfirmed);
    let refused = [shown(7), MISSING, shown(9), Reply::Fault];
    begins_anew(&rt, &refused);
    let putting = [
        shown(7),
        shown(4),
        shown(7),
        shown(1),
        HELD,
        HELD,
        RENEWED,
        Reply::Done,
    ];
    begins_anew(&rt, &putting);
}
