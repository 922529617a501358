//! The report of the smallest array, each way, and texts that are no report.

use crate::report_sections::cell;
use raid_base::{Content, HostNo, JobEnd, JobResult, MemorySink, Name, Number, Shown, Turn};
use report_text::{Final, Report, ReportFault, read_report, write_report};
use script_text::read_script;
use std::alloc::Global;
use std::test::Fail;

const SCRIPT: &[u8] = b"raid 1
devices 3
rows 1
mode order
patience 3
tries 2
object a 0
host 1
write a 0 41
read a 0 1
end
";

const REPORT: &[u8] = b"report 1
job 1 0 wrote 1
job 1 1 read 17 41
turns 7
turn 1 1
turn 1 2
turn 1 3
turn 1 4
turn 1 5
turn 1 6
turn 1 7
block a 0 41
block a 1 00
row 0 closed
end
";

fn turn(moment: u64) -> Turn {
    Turn {
        host: HostNo(1),
        moment,
    }
}

/// How the jobs of the smallest array end.
fn results() -> [JobResult; 2] {
    let host = HostNo(1);
    [
        JobResult {
            host,
            job: 0,
            end: JobEnd::Wrote { number: Number(1) },
        },
        JobResult {
            host,
            job: 1,
            end: JobEnd::Read { number: Number(17) },
        },
    ]
}

/// The turns of the smallest array.
fn turns() -> [Turn; 7] {
    [
        turn(1),
        turn(2),
        turn(3),
        turn(4),
        turn(5),
        turn(6),
        turn(7),
    ]
}

/// Whether the report of the smallest array is done in a sink with this much room, how often the sink has failed, and whether
/// this text was written.
fn written(alloc: Global, room: u32, text: &[u8]) -> Result<(bool, u64, bool), Fail> {
    let script = read_script(alloc, SCRIPT)?;
    let view = Final {
        script: &script,
        results: &results(),
        contents: &[Content::Bytes([0x41; 64])],
        turns: &turns(),
        cells: &[cell(0x41, 0), cell(0, 0), cell(0x41, 0)],
        opened: &[false],
    };
    let mut sink = MemorySink::make(alloc, room, Vec::new(alloc))?;
    let is_done = write_report(&mut sink, &view).is_ok();
    Ok((is_done, sink.faults(), sink.written() == text))
}

#[test]
fn the_smallest_array_is_reported(rt: HostRuntime) -> Result<(), Fail> {
    assert_eq!(rt; written(rt.alloc(), 1000, REPORT)?, (true, 0, true));
    Ok(())
}

#[test]
fn a_full_sink_has_a_first_part_of_the_report(rt: HostRuntime) -> Result<(), Fail> {
    let part = b"report 1\njob 1 0 wrote 1\njob 1 1 re";
    assert_eq!(rt; written(rt.alloc(), 35, part)?, (false, 1, true));
    Ok(())
}

/// Whether a report has the results of the smallest array, with what was read and no flags.
fn has_results(report: &Report) -> bool {
    let [wrote, read] = report.contents.as_slice() else {
        return false;
    };
    wrote.is_empty()
        && read.as_slice() == [Content::Bytes([0x41; 64])].as_slice()
        && report.results.as_slice() == results().as_slice()
        && report.flags.as_slice() == [0, 0].as_slice()
}

/// Whether a block of the object is shown with equal bytes.
fn shows(shown: &(Name, u32, Shown), block: u32, byte: u8) -> bool {
    Name::new(b"a") == Some(shown.0)
        && shown.1 == block
        && shown.2 == Shown::Seen(Content::Bytes([byte; 64]))
}

/// Whether a report has the turns, the blocks and the row of the smallest array.
fn has_state(report: &Report) -> bool {
    let [first, second] = report.blocks.as_slice() else {
        return false;
    };
    shows(first, 0, 0x41)
        && shows(second, 1, 0)
        && report.turns.as_slice() == turns().as_slice()
        && report.rows.as_slice() == [true].as_slice()
}

/// What is read of the report of the smallest array: whether it has the results, and the state.
fn read(alloc: Global) -> Result<(bool, bool), Fail> {
    let report = read_report(alloc, REPORT)?;
    Ok((has_results(&report), has_state(&report)))
}

#[test]
fn the_smallest_report_is_read(rt: HostRuntime) -> Result<(), Fail> {
    assert_eq!(rt; read(rt.alloc())?, (true, true));
    Ok(())
}

#[test]
fn the_first_bad_line_is_named(rt: HostRuntime) {
    let table: [(&[u8], u32); 16] = [
        (b"", 1),
        (b"report 2\n", 1),
        (b"report 1\njob 1 0 lost\njob 1 0 lost\n", 3),
        (b"report 1\njob 2 0 lost\njob 1 0 lost\n", 3),
        (b"report 1\njob 01 0 lost\n", 2),
        (b"report 1\njob 1 0 wrote 0\n", 2),
        (b"report 1\nturns 0\nrow 0 open\nend", 4),
        (b"report 1\nturns 0\nrow 0 open\nend\n\n", 5),
        (b"report 1\nturns 0\nrow 0 open\nend\nx", 5),
        (b"report 1\nturns 0\nrow 0 open\n", 4),
        (b"report 1\nturns 1\nrow 0 open\n", 3),
        (b"report 1\nturns 0\nrow 1 open\n", 3),
        (b"report 1\nturns 0\nend\n", 3),
        (b"report 1\nturns 0\nblock a 1 00\n", 3),
        (b"report 1\nturns 0\nblock a 0 00\nblock a 2 00\n", 4),
        (
            b"report 1\nturns 0\nblock a 0 00\nblock b 0 lost\nblock a 0 00\n",
            5,
        ),
    ];
    for (text, line) in table {
        let fault = read_report(rt.alloc(), text).err();
        assert_eq!(rt; fault, Some(ReportFault::Bad { line }));
    }
}
