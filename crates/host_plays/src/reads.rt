//! Hosts that show what each of their jobs has read.

use crate::hosts::{HOST, have_read};
use crate::steps::{attempt_on, shown};
use raid_base::Content;
use std::test::Fail;

#[test]
fn each_read_shows_its_own_contents(rt: HostRuntime) -> Result<(), Fail> {
    let jobs = b"host 1\nread a 0 1\nread b 0 1\nread a 1 1\nread a 0 1\n";
    let steps = [
        attempt_on(0, 1).share(0, shown(7)),
        attempt_on(0, 17).share(1, shown(9)),
    ];
    let first = [Content::Bytes([7; 64])];
    let second = [Content::Bytes([9; 64])];
    let cases: [(u32, &[Content]); 5] = [
        (0, &first),
        (1, &[]),
        (2, &second),
        (3, &[]),
        (u32::MAX, &[]),
    ];
    assert!(rt; have_read(rt.alloc(), HOST, jobs, &steps, &cases)?);
    Ok(())
}
