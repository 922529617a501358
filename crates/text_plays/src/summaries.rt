//! Summaries against texts that were worked out apart.

use crate::report_sections::cell;
use load_maker::write_summary;
use raid_base::{BayNo, Cause, HostNo, JobEnd, JobResult, MemorySink, Number, RowNo, Turn};
use report_text::Final;
use script_text::read_script;
use std::alloc::Global;
use std::test::Fail;

const SCRIPT: &[u8] =
    b"raid 1\ndevices 3\nrows 3\nmode order\npatience 3\ntries 2\nobject a 0 1 2\nend\n";

const SUMMARY: &[u8] = b"load 7
read 2 wrote 1 part 1 gave 1 other 3
requests 3
greatest 95
closed 2
lost 1 hidden 1
sum 78
end
";

fn result(end: JobEnd) -> JobResult {
    JobResult {
        host: HostNo(1),
        job: 0,
        end,
    }
}

fn results() -> [JobResult; 8] {
    let cause = Cause::Changed { row: RowNo(200) };
    [
        result(JobEnd::Read { number: Number(17) }),
        result(JobEnd::Recovered {
            number: Number(95),
            closed: true,
            lost: None,
        }),
        result(JobEnd::Read { number: Number(20) }),
        result(JobEnd::Wrote { number: Number(33) }),
        result(JobEnd::Part {
            number: Number(50),
            made: 1,
            cause,
        }),
        result(JobEnd::Gave { tries: 99, cause }),
        result(JobEnd::NotLost { bay: BayNo(2) }),
        result(JobEnd::PastEnd { blocks: 100 }),
    ]
}

/// Whether the summary is done in a sink with this much room, how often the sink has failed, and whether this text was written.
///
/// It is of six blocks: 41, one that is lost, 33 which is made of 0f and 3c, 0f, 05, and one that is hidden.
fn summary(alloc: Global, room: u32, text: &[u8]) -> Result<(bool, u64, bool), Fail> {
    let script = read_script(alloc, SCRIPT)?;
    let turn = Turn {
        host: HostNo(1),
        moment: 99,
    };
    let view = Final {
        script: &script,
        results: &results(),
        contents: &[],
        turns: &[turn; 3],
        cells: &[
            cell(0x41, 0),
            cell(0, 2),
            cell(0x41, 2),
            cell(0x0f, 0),
            cell(0x3c, 0),
            None,
            cell(0x77, 0),
            cell(0x05, 0),
            None,
        ],
        opened: &[false, false, true],
    };
    let mut sink = MemorySink::make(alloc, room, Vec::new(alloc))?;
    let is_done = write_summary(&mut sink, 7, &view).is_ok();
    Ok((is_done, sink.faults(), sink.written() == text))
}

#[test]
fn a_world_is_summed_up(rt: HostRuntime) -> Result<(), Fail> {
    assert_eq!(rt; summary(rt.alloc(), 1000, SUMMARY)?, (true, 0, true));
    Ok(())
}

#[test]
fn a_full_sink_has_a_first_part_of_the_summary(rt: HostRuntime) -> Result<(), Fail> {
    assert_eq!(rt; summary(rt.alloc(), 10, b"load 7\nrea")?, (false, 1, true));
    Ok(())
}
