//! The lines of results, each way.

use raid_base::{
    BayNo, Cause, Content, HostNo, JobEnd, JobResult, MemorySink, Note, Number, RowNo,
};
use report_text::{Final, Report, read_report, write_report};
use script_text::read_script;
use std::alloc::Global;
use std::test::Fail;

/// A script in which host 3 reads three blocks, writes one and then three.
const JOBS: &[u8] =
    b"raid 1\ndevices 3\nrows 1\nmode order\npatience 3\ntries 2\nhost 3\nread a 0 3\nwrite a 0 00\nwrite a 0 00 00 00\nend\n";

fn note(host: u8, id: u64) -> Note {
    Note {
        host: HostNo(host),
        id: Number(id),
        origin: Number(7),
        mask: 3,
        moment: 9,
    }
}

const ENDS: &[u8] = b"job 3 0 read 17 41 lost 00
job 3 1 wrote 33
job 3 2 part 1 011 quit
job 3 3 recovered 18 closed none
job 3 4 recovered 18 open unit 14
job 3 5 lost
job 3 6 fitted
job 3 7 rebuilt
job 3 8 gave 64 quit
job 3 9 still 2
job 3 10 notlost 15
job 3 11 notfitted 0
job 3 12 noobject
job 3 13 pastend 1792
job 3 14 toomanyrows 9
";

/// An end of each kind.
fn ends() -> [JobEnd; 15] {
    let number = Number(18);
    let bay = BayNo(2);
    let cause = Cause::Quit;
    [
        JobEnd::Read { number: Number(17) },
        JobEnd::Wrote { number: Number(33) },
        JobEnd::Part {
            number: Number(1),
            made: 6,
            cause,
        },
        JobEnd::Recovered {
            number,
            closed: true,
            lost: None,
        },
        JobEnd::Recovered {
            number,
            closed: false,
            lost: Some(14),
        },
        JobEnd::Lost,
        JobEnd::Fitted,
        JobEnd::Rebuilt,
        JobEnd::Gave { tries: 64, cause },
        JobEnd::StillMissing { bay },
        JobEnd::NotLost { bay: BayNo(15) },
        JobEnd::NotFitted { bay: BayNo(0) },
        JobEnd::NoObject,
        JobEnd::PastEnd { blocks: 1792 },
        JobEnd::TooManyRows { rows: 9 },
    ]
}

/// What the read of `ends` has read.
const CONTENTS: [Content; 3] = [
    Content::Bytes([0x41; 64]),
    Content::Lost,
    Content::Bytes([0; 64]),
];

/// The report of a small array with these results and contents, whose only row is open.
fn written(alloc: Global, results: &[JobResult], contents: &[Content]) -> Result<MemorySink, Fail> {
    let script = read_script(alloc, JOBS)?;
    let view = Final {
        script: &script,
        results,
        contents,
        turns: &[],
        cells: &[],
        opened: &[true],
    };
    let mut sink = MemorySink::make(alloc, 1000, Vec::new(alloc))?;
    write_report(&mut sink, &view)?;
    Ok(sink)
}

/// A report with these job lines, and little else.
fn text_with(alloc: Global, lines: &[u8]) -> Result<Vec<u8>, Fail> {
    let mut text = Vec::new(alloc);
    text.extend_from_slice(b"report 1\n")?;
    text.extend_from_slice(lines)?;
    text.extend_from_slice(b"turns 0\nrow 0 open\nend\n")?;
    Ok(text)
}

/// What is read of a report with these job lines.
fn read_with(alloc: Global, lines: &[u8]) -> Result<Report, Fail> {
    let text = text_with(alloc, lines)?;
    if text.len() > 2000 {
        return Err(Fail::from("a long text"));
    }
    Ok(read_report(alloc, text.as_slice())?)
}

/// The results of a host's jobs, one after another.
fn results_of(alloc: Global, host: HostNo, ends: &[JobEnd]) -> Result<Vec<JobResult>, Fail> {
    let mut results = Vec::new(alloc);
    for (job, end) in ends.iter().enumerate() {
        results.push(JobResult {
            host,
            job: u32::try_from(job)?,
            end: *end,
        })?;
    }
    Ok(results)
}

/// Whether these ends of a host's jobs, with what was read, are written as these lines.
fn are_written(
    alloc: Global,
    host: HostNo,
    ends: &[JobEnd],
    contents: &[Content],
    lines: &[u8],
) -> Result<bool, Fail> {
    let results = results_of(alloc, host, ends)?;
    let sink = written(alloc, results.as_slice(), contents)?;
    let text = text_with(alloc, lines)?;
    Ok(sink.written() == text.as_slice())
}

/// Whether these ends of a host's jobs are read from these lines.
fn are_read(alloc: Global, host: HostNo, ends: &[JobEnd], lines: &[u8]) -> Result<bool, Fail> {
    let results = results_of(alloc, host, ends)?;
    let report = read_with(alloc, lines)?;
    Ok(report.results.as_slice() == results.as_slice())
}

#[test]
fn each_end_has_its_line(rt: HostRuntime) -> Result<(), Fail> {
    assert!(rt; are_written(rt.alloc(), HostNo(3), &ends(), &CONTENTS, ENDS)?);
    Ok(())
}

/// Whether the first of fifteen results has read these contents, and the others nothing.
fn has_contents(report: &Report, contents: &[Content]) -> bool {
    for (job, read) in report.contents.iter().enumerate() {
        let expected: &[Content] = if job == 0 { contents } else { &[] };
        if read.as_slice() != expected {
            return false;
        }
    }
    report.contents.len() == 15
}

/// Whether a report with these lines has these contents, and these flags.
fn is_read(
    alloc: Global,
    lines: &[u8],
    contents: &[Content],
    flags: &[u8],
) -> Result<(bool, bool), Fail> {
    let report = read_with(alloc, lines)?;
    Ok((
        has_contents(&report, contents),
        report.flags.as_slice() == flags,
    ))
}

#[test]
fn each_end_is_read_back(rt: HostRuntime) -> Result<(), Fail> {
    assert!(rt; are_read(rt.alloc(), HostNo(3), &ends(), ENDS)?);
    let flags = [0, 0, 3, 0, 0, 0, 0, 0, 0, 0, 0, 0, 0, 0, 0];
    let is = is_read(rt.alloc(), ENDS, &CONTENTS, &flags)?;
    assert_eq!(rt; is, (true, true));
    Ok(())
}

const CAUSES: &[u8] = b"job 15 0 gave 1 busy 1 17
job 15 1 gave 1 late 2
job 15 2 gave 1 young 0 16
job 15 3 gave 1 behind 3
job 15 4 gave 1 fault 0
job 15 5 gave 1 broken 4 2
job 15 6 gave 1 gone 4
job 15 7 gave 1 changed 4095
job 15 8 gave 1 released 0
job 15 9 gave 1 seized 10
job 15 10 gave 1 spent 4611686018427387889
job 15 11 gave 1 quit
";

/// A cause of each kind, with these two notes.
fn causes(holder: Note, note: Note) -> [Cause; 12] {
    [
        Cause::Busy { holder },
        Cause::Late { above: Number(2) },
        Cause::Young { note },
        Cause::Behind { floor: Number(3) },
        Cause::Fault { bay: BayNo(0) },
        Cause::Broken {
            first: BayNo(4),
            second: BayNo(2),
        },
        Cause::Gone { bay: BayNo(4) },
        Cause::Changed { row: RowNo(4095) },
        Cause::Released { row: RowNo(0) },
        Cause::Seized { row: RowNo(10) },
        Cause::Spent {
            seen: Number(4611686018427387889),
        },
        Cause::Quit,
    ]
}

/// A job that was given up for each of these causes.
fn gave(causes: &[Cause; 12]) -> [JobEnd; 12] {
    causes.map(|cause| JobEnd::Gave { tries: 1, cause })
}

#[test]
fn each_cause_has_its_words(rt: HostRuntime) -> Result<(), Fail> {
    let ends = gave(&causes(note(1, 17), note(0, 16)));
    assert!(rt; are_written(rt.alloc(), HostNo(15), &ends, &[], CAUSES)?);
    Ok(())
}

/// A note of which no more is known than its host and id.
fn holder(host: u8, id: u64) -> Note {
    Note {
        host: HostNo(host),
        id: Number(id),
        origin: Number(id),
        mask: 0,
        moment: 0,
    }
}

#[test]
fn each_cause_is_read_back(rt: HostRuntime) -> Result<(), Fail> {
    let ends = gave(&causes(holder(1, 17), holder(0, 16)));
    assert!(rt; are_read(rt.alloc(), HostNo(15), &ends, CAUSES)?);
    Ok(())
}
