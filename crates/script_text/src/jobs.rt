//! Lines of jobs, read into the script's last host.
ghost use Rattle.std.specs.Prelude.{◌≡◌, ◌<◌, ◌≤◌, ◌^◌, List, ◌++◌, ◌∷◌, [], true, length, IfOk, IfSome, option_map};
ghost use Rattle.raid_base.specs.declared.jobs.Job.{Job};
ghost use Rattle.script_text.specs.Forms.{JobLine, job_form, quit_form, read_work, words, words_behind, work_of, write_work};
ghost use Rattle.script_text.specs.Faults.{blocks_in, fault_of, is_operators, quit_in_range, task_of, work_in_range};
ghost use Rattle.script_text.specs.Steps.{HasBlocks, Steps, job_found, with_host, work_value};

use crate::lines::{LineFault, Stage};
use crate::script::{HostJobs, Script};
use crate::words::{
    are_blocks, count_words, is_text, only_number, push_blocks, split_word, two_numbers,
};
use raid_base::{BayNo, HostNo, Job, Kind, Name, NoMemory, RowNo, Task};
use text_lines::read_number;

/// Blocks of an object are below this, as far as a line may name them.
const BLOCKS_END: u64 = 1 << 20;

/// The greatest number of blocks of a job.
const MAX_COUNT: u64 = 120;

/// The greatest number of requests after which a host stops.
const MAX_QUIT: u64 = 1 << 20;

/// What a job does, its numbers being of any size. The blocks of a write are words still.
#[derive(Clone, Copy)]
pub(crate) enum Work<'a> {
    Reads {
        name: Name,
        first: u64,
        count: u64,
    },
    Writes {
        name: Name,
        first: u64,
        blocks: &'a [u8],
    },
    Recovers {
        row: u64,
    },
    Loses {
        bay: u64,
    },
    Fits {
        bay: u64,
    },
    Rebuilds {
        bay: u64,
    },
}

fn read_work(rest: Option<&[u8]>) -> Option<Work<'_>>
    ensures value { option_map work_value result ≡ read_work (words_behind rest.entry) }
    ensures blocks { IfSome result HasBlocks }
{
    let (text, rest) = split_word(rest?);
    let name = Name::new(text)?;
    let (first, count) = two_numbers(rest)?;
    Some(Work::Reads { name, first, count })
}

fn write_work(rest: Option<&[u8]>) -> Option<Work<'_>>
    ensures value { option_map work_value result ≡ write_work (words_behind rest.entry) }
    ensures blocks { IfSome result HasBlocks }
{
    let (text, rest) = split_word(rest?);
    let name = Name::new(text)?;
    let (text, rest) = split_word(rest?);
    let first = read_number(text)?;
    let blocks = rest?;
    if are_blocks(blocks) {
        Some(Work::Writes {
            name,
            first,
            blocks,
        })
    } else {
        None
    }
}

/// The work that a word names, with what stands behind the word.
fn work_of<'a>(word: &[u8], rest: Option<&'a [u8]>) -> Option<Work<'a>>
    ensures value { option_map work_value result ≡ work_of word.now (words_behind rest.entry) }
    ensures blocks { IfSome result HasBlocks }
{
    if is_text(word, b"read") {
        return read_work(rest);
    }
    if is_text(word, b"write") {
        return write_work(rest);
    }
    if is_text(word, b"recover") {
        let row = only_number(rest)?;
        return Some(Work::Recovers { row });
    }
    if is_text(word, b"lose") {
        let bay = only_number(rest)?;
        return Some(Work::Loses { bay });
    }
    if is_text(word, b"fit") {
        let bay = only_number(rest)?;
        return Some(Work::Fits { bay });
    }
    if is_text(word, b"rebuild") {
        let bay = only_number(rest)?;
        return Some(Work::Rebuilds { bay });
    }
    None
}

/// A job's line: after how many requests the host stops, if it does, and the work.
#[derive(Clone, Copy)]
struct LineJob<'a> {
    quit: Option<u64>,
    work: Work<'a>,
}

/// The job of a number of requests after which the host stops, and of the work behind it.
fn quit_line(rest: Option<&[u8]>) -> Option<LineJob<'_>>
    ensures form { quit_form (words_behind rest.entry) ≡ job_found result }
    ensures blocks { IfSome result (λ found. HasBlocks found.work) }
{
    let (text, rest) = split_word(rest?);
    let (word, rest) = split_word(rest?);
    let requests = read_number(text)?;
    match work_of(word, rest) {
        Some(work) => Some(LineJob {
            quit: Some(requests),
            work,
        }),
        None => None,
    }
}

fn job_line(line: &[u8]) -> Option<LineJob<'_>>
    ensures form { job_form (words line.now) ≡ job_found result }
    ensures blocks { IfSome result (λ found. HasBlocks found.work) }
{
    let (word, rest) = split_word(line);
    if is_text(word, b"quit") {
        return quit_line(rest);
    }
    match work_of(word, rest) {
        Some(work) => Some(LineJob { quit: None, work }),
        None => None,
    }
}

fn is_quit_in_range(quit: Option<u64>) -> bool
    ensures { result ≡ quit_in_range quit }
{
    match quit {
        Some(requests) => requests >= 1 && requests <= MAX_QUIT,
        None => true,
    }
}

fn is_in_range(script: &Script, work: &Work<'_>) -> bool
    ensures { result ≡ work_in_range script.now (work_value work.now) }
{
    match *work {
        Work::Reads { first, count, .. } => first < BLOCKS_END
            && (count >= 1 && count <= MAX_COUNT),
        Work::Writes { first, blocks, .. } => {
            first < BLOCKS_END && count_words(blocks) <= MAX_COUNT
        }
        Work::Recovers { row } => row < u64::from(script.rows),
        Work::Loses { bay } => bay < u64::from(script.n),
        Work::Fits { bay } => bay < u64::from(script.n),
        Work::Rebuilds { bay } => bay < u64::from(script.n),
    }
}

/// After how many requests the host stops, if it does.
fn quit_of(quit: Option<u64>) -> Option<u32>
    requires { quit_in_range quit ≡ true }
    ensures { result ≡ quit }
{
    match quit {
        Some(requests) => Some(requests as u32),
        None => None,
    }
}

/// Whether only the operator may do it.
fn is_operators(work: &Work<'_>) -> bool
    ensures { result ≡ is_operators (work_value work.now) }
{
    match *work {
        Work::Loses { .. } => true,
        Work::Fits { .. } => true,
        Work::Rebuilds { .. } => true,
        _ => false,
    }
}

/// The task, the blocks of a write beginning behind those of the script.
fn task_of(script: &Script, work: &Work<'_>) -> Task
    requires few { length script.now.blocks < 2 ^ 32 }
    requires devices { script.now.n ≤ 16 }
    requires rows { script.now.rows ≤ 4096 }
    requires range { work_in_range script.now (work_value work.now) ≡ true }
    ensures { result ≡ task_of (length script.now.blocks) (work_value work.now) }
{
    match *work {
        Work::Reads { name, first, count } => Task::Read {
            object: name,
            first: first as u32,
            count: count as u8,
        },
        Work::Writes {
            name,
            first,
            blocks,
        } => Task::Write {
            object: name,
            first: first as u32,
            from: script.blocks.len() as u32,
            count: count_words(blocks) as u8,
        },
        Work::Recovers { row } => Task::Recover {
            row: RowNo(row as u16),
        },
        Work::Loses { bay } => Task::Lose {
            bay: BayNo(bay as u8),
        },
        Work::Fits { bay } => Task::Fit {
            bay: BayNo(bay as u8),
        },
        Work::Rebuilds { bay } => Task::Rebuild {
            bay: BayNo(bay as u8),
        },
    }
}

/// Appends the blocks of a write.
fn add_blocks(blocks: &mut Vec<[u8; 64]>, work: &Work<'_>) -> Result<(), NoMemory>
    requires { HasBlocks work.now }
    ensures { IfOk result (λ _. blocks.new.items ≡ blocks.old.items ++ blocks_in (work_value work.now)) }
{
    match *work {
        Work::Writes { blocks: text, .. } => push_blocks(blocks, text),
        _ => Ok(()),
    }
}

fn push_job(jobs: &mut Vec<Job>, task: Task, quit: Option<u32>) -> Result<(), NoMemory>
    ensures { IfOk result (λ _. jobs.new.items ≡ jobs.old.items ++ record { task = task; quit = quit } ∷ []) }
{
    match jobs.push(Job { task, quit }) {
        Ok(()) => Ok(()),
        Err(_) => Err(NoMemory),
    }
}

/// The host with one job more.
fn with_job(mut host: HostJobs, task: Task, quit: Option<u32>) -> Result<HostJobs, NoMemory>
    ensures { IfOk result (λ more. more ≡ record { host = host.host; jobs = host.jobs ++ record { task = task; quit = quit } ∷ [] }) }
{
    match push_job(&mut host.jobs, task, quit) {
        Ok(()) => Ok(host),
        Err(NoMemory) => Err(NoMemory),
    }
}

/// What is wrong with a job of this host, which was taken off the script.
fn job_fault(script: &Script, host: HostNo, quit: Option<u64>, work: &Work<'_>) -> Option<Kind>
    ensures { (jobs : List Job) → result ≡ fault_of (with_host script.now (record { host = host; jobs = jobs })) (JobLine quit (work_value work.now)) }
{
    if !is_quit_in_range(quit) || !is_in_range(script, work) {
        return Some(Kind::Range);
    }
    if is_operators(work) && host.0 != 0 {
        return Some(Kind::Operator);
    }
    None
}

/// Adds a job to the host that was taken off the script, and puts the host back.
fn add_job(
    script: &mut Script,
    host: HostJobs,
    quit: Option<u64>,
    work: &Work<'_>,
) -> Result<Stage, LineFault>
    requires room { length script.old.hosts < 16 }
    requires few { length script.old.blocks < 2 ^ 32 }
    requires devices { script.old.n ≤ 16 }
    requires rows { script.old.rows ≤ 4096 }
    requires blocks { HasBlocks work.now }
    ensures { Steps (with_host script.old host) script.new result (JobLine quit (work_value work.now)) }
{
    if let Some(kind) = job_fault(script, host.host, quit, work) {
        return Err(LineFault::Bad(kind));
    }
    let task = task_of(script, work);
    let host = match with_job(host, task, quit_of(quit)) {
        Ok(host) => host,
        Err(NoMemory) => return Err(LineFault::NoMemory),
    };
    match add_blocks(&mut script.blocks, work) {
        Ok(()) => {
            script.hosts.push(host);
            Ok(Stage::Body)
        }
        Err(NoMemory) => Err(LineFault::NoMemory),
    }
}

/// Reads the line of a job into a script whose last host was taken off, and puts the host back.
pub(crate) fn read_job(script: &mut Script, host: HostJobs, line: &[u8]) -> Result<Stage, LineFault>
    requires room { length script.old.hosts < 16 }
    requires few { length script.old.blocks < 2 ^ 32 }
    requires devices { script.old.n ≤ 16 }
    requires rows { script.old.rows ≤ 4096 }
    ensures { Steps (with_host script.old host) script.new result (job_form (words line.now)) }
{
    match job_line(line) {
        Some(job) => add_job(script, host, job.quit, &job.work),
        None => Err(LineFault::Bad(Kind::Shape)),
    }
}
