//! Loads played whole, against summaries that another program has worked out.

use crate::thread_runs::Counting;
use array_cli::array;
use block_store::MemoryStore;
use rack_turns::NoGate;
use raid_base::{MemorySink, MemorySource, Status};
use std::alloc::Global;
use std::sync::Wait;
use std::test::Fail;
use std::thread::Threads;

/// A load under locks, a small one under stamps, and a large one.
const LOADS: [(&str, &str); 3] = [
    (
        "7",
        "load 7
read 3 wrote 4 part 0 gave 0 other 3
requests 8793
greatest 23
closed 512
lost 0 hidden 0
sum 1b
end
",
    ),
    (
        "10",
        "load 10
read 6 wrote 4 part 0 gave 0 other 3
requests 8803
greatest 18
closed 512
lost 0 hidden 0
sum 49
end
",
    ),
    (
        "1000",
        "load 1000
read 458 wrote 535 part 0 gave 7 other 3
requests 19787
greatest 2737
closed 512
lost 0 hidden 0
sum c1
end
",
    ),
];

/// Eight devices of 512 blocks.
fn devices(alloc: Global) -> Result<Vec<MemoryStore>, Fail> {
    let mut stores = Vec::new(alloc);
    for _device in 0..8 {
        stores.push(MemoryStore::make(alloc, 512)?)?;
    }
    Ok(stores)
}

/// What a load of so many jobs prints that is done, and whether nothing was read.
fn summary_of<R: Threads + Wait + Sync>(
    rt: &R,
    alloc: Global,
    jobs: &str,
) -> Result<(String, bool), Fail> {
    let mut words = Vec::new(alloc);
    words.push(String::from_str(alloc, "load")?)?;
    words.push(String::from_str(alloc, jobs)?)?;
    let mut source = MemorySource::make(b"raid 1".to_vec(alloc)?, Vec::new(alloc));
    let mut sink = MemorySink::make(alloc, 1 << 10, Vec::new(alloc))?;
    let stores = devices(alloc)?;
    let clock = Counting::new();
    let outcome = array(
        rt,
        alloc,
        words.as_slice(),
        &mut source,
        &mut sink,
        stores,
        &clock,
        &NoGate,
    );
    if outcome.status != Status::Done {
        return Err("not done")?;
    }
    let printed = String::from_utf8_lossy(alloc, sink.written())?;
    Ok((printed, source.left() == b"raid 1".as_slice()))
}

#[test]
fn a_load_prints_the_same_summary_each_time(rt: HostRuntime) -> Result<(), Fail> {
    for (jobs, summary) in &LOADS {
        for _time in 0..2 {
            let (printed, is_unread) = summary_of(&rt, rt.alloc(), jobs)?;
            assert!(rt; printed.as_str() == *summary, "{printed}");
            assert!(rt; is_unread);
        }
    }
    Ok(())
}
