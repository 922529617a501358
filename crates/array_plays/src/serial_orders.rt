//! What is wrong with a report beside a serial array, if anything.
//!
//! The results take effect on the array in the order of their numbers. Each read agrees with it when its turn comes, and each
//! block that is seen at the end. The blocks of a closed row of which no bay lacks its cell add up to zeros.

use array_cli::Outcome;
use arrayvec::ArrayVec;
use block_store::{FailingStore, Store};
use raid_base::{
    Cell, Content, Entry, JobEnd, JobResult, Number, Reply, Request, RowNo, Shown, Task,
};
use raid_xor::sum_of;
use report_text::{Report, read_report};
use script_text::{Script, read_script};
use serial_array::SerialArray;
use std::alloc::Global;
use std::test::Fail;

/// The number of a result that has one.
fn number_of(end: &JobEnd) -> Option<Number> {
    match end {
        JobEnd::Read { number } => Some(*number),
        JobEnd::Wrote { number } => Some(*number),
        JobEnd::Part { number, .. } => Some(*number),
        JobEnd::Recovered { number, .. } => Some(*number),
        _ => None,
    }
}

/// The numbers of all results that have one, each with the result's place, by rising number.
fn in_order(alloc: Global, results: &[JobResult]) -> Result<Vec<(u64, usize)>, Fail> {
    let mut order = Vec::new(alloc);
    for (place, result) in results.iter().enumerate() {
        if let Some(number) = number_of(&result.end) {
            order.push((number.0, place))?;
        }
    }
    order.sort()?;
    Ok(order)
}

/// The task of a result.
fn task_of(script: &Script, ended: &JobResult) -> Option<Task> {
    for jobs in script.hosts() {
        if jobs.host == ended.host {
            let job = jobs.jobs.as_slice().get(ended.job as usize)?;
            return Some(job.task);
        }
    }
    None
}

/// Puts these blocks of a write. False where it is none.
fn put(script: &Script, array: &mut SerialArray, task: Task, made: u128) -> bool {
    let Task::Write {
        object,
        first,
        from,
        count,
    } = task
    else {
        return false;
    };
    for at in 0..count.min(120) {
        let place = from.saturating_add(u32::from(at)) as usize;
        let block = first.saturating_add(u32::from(at));
        if let Some(bytes) = script.blocks.as_slice().get(place) {
            if (made >> at) & 1 == 1 {
                array.set(&object, block, Content::Bytes(*bytes));
            }
        }
    }
    true
}

/// Loses the block of a unit.
fn lose(script: &Script, report: &Report, array: &mut SerialArray, row: RowNo, unit: u8) {
    for (name, block, _) in &report.blocks {
        if script.objects.place(name, *block) == Some((row, unit)) {
            array.set(name, *block, Content::Lost);
        }
    }
}

/// Whether a read has read what the array has.
fn agrees(array: &SerialArray, task: Task, contents: &[Content]) -> bool {
    let Task::Read { object, first, .. } = task else {
        return false;
    };
    for (block, content) in (first..u32::MAX).zip(contents) {
        if array.get(&object, block) != Some(*content) {
            return false;
        }
    }
    true
}

/// The result at this place takes effect. False where it does not agree.
fn take_effect(script: &Script, report: &Report, array: &mut SerialArray, place: usize) -> bool {
    let Some(result) = report.results.as_slice().get(place) else {
        return false;
    };
    let Some(contents) = report.contents.as_slice().get(place) else {
        return false;
    };
    let Some(task) = task_of(script, result) else {
        return false;
    };
    match result.end {
        JobEnd::Read { .. } => agrees(array, task, contents.as_slice()),
        JobEnd::Wrote { .. } => put(script, array, task, u128::MAX),
        JobEnd::Part { made, .. } => put(script, array, task, made),
        JobEnd::Recovered { lost, .. } => match (task, lost) {
            (Task::Recover { row }, Some(unit)) => {
                lose(script, report, array, row, unit);
                true
            }
            (Task::Recover { .. }, None) => true,
            _ => false,
        },
        _ => false,
    }
}

/// Whether all numbers differ, and each host's rise with its jobs.
fn rise(results: &[JobResult], order: &[(u64, usize)]) -> bool {
    let mut before = 0;
    let mut jobs = [0; 16];
    for (number, place) in order {
        let Some(result) = results.get(*place) else {
            return false;
        };
        let Some(next) = jobs.get_mut(usize::from(result.host.0)) else {
            return false;
        };
        if *number <= before || result.job < *next {
            return false;
        }
        before = *number;
        *next = result.job;
    }
    true
}

/// Whether a bay has a cell of this row at the end: its device was not lost, or the row was put since.
fn has_cell(journal: &[Entry], row: RowNo) -> bool {
    let mut has = true;
    for entry in journal {
        let is_done = entry.reply() == Reply::Done;
        match entry.ask().what {
            Request::Lose => has = false,
            Request::Put { row: put, .. } if put == row && is_done => has = true,
            _ => {}
        }
    }
    has
}

/// Whether all bays have a cell of this row.
fn is_whole(journals: &[Vec<Entry>], row: RowNo) -> bool {
    for journal in journals {
        if !has_cell(journal.as_slice(), row) {
            return false;
        }
    }
    true
}

/// The sum of a row's blocks of all stores. No two calls after one another fail.
fn row_sum(stores: &mut [FailingStore], row: RowNo) -> Result<[u8; 64], Fail> {
    let mut cells = ArrayVec::<Cell, 16>::new();
    for store in stores.iter_mut() {
        if u32::from(row.0) < store.blocks() && !cells.is_full() {
            let bytes = match store.read(row) {
                Ok(bytes) => bytes,
                Err(_) => store.read(row)?,
            };
            cells.push(Cell { bytes, lost: 0 });
        }
    }
    Ok(sum_of(cells.as_slice()))
}

/// Whether the results take effect in the order of their numbers, and each agrees with the array.
fn are_serial(
    script: &Script,
    report: &Report,
    array: &mut SerialArray,
    order: &[(u64, usize)],
) -> bool {
    for (_, place) in order {
        if !take_effect(script, report, array, *place) {
            return false;
        }
    }
    rise(report.results.as_slice(), order)
}

/// Whether each block that is seen at the end is what the array has.
fn shows(report: &Report, array: &SerialArray) -> bool {
    for (name, block, shown) in &report.blocks {
        if let Shown::Seen(content) = shown {
            if array.get(name, *block) != Some(*content) {
                return false;
            }
        }
    }
    true
}

/// Whether the blocks of each of these rows that is closed and whole add up to zeros.
fn add_up(outcome: &mut Outcome<FailingStore>, closed: &[bool]) -> Result<bool, Fail> {
    for (row, closed) in (0..u16::MAX).zip(closed) {
        if *closed
            && is_whole(outcome.journals.as_slice(), RowNo(row))
            && row_sum(outcome.stores.as_mut_slice(), RowNo(row))? != [0; 64]
        {
            return Ok(false);
        }
    }
    Ok(true)
}

/// What is wrong with a report, if anything: its results have no serial order, or its blocks are not what they leave.
fn fault_of(alloc: Global, script: &Script, report: &Report) -> Result<Option<&'static str>, Fail> {
    let mut array = SerialArray::make(alloc, script)?;
    let order = in_order(alloc, report.results.as_slice())?;
    if !are_serial(script, report, &mut array, order.as_slice()) {
        return Ok(Some("no serial order"));
    }
    if !shows(report, &array) {
        return Ok(Some("another block"));
    }
    Ok(None)
}

/// What is wrong with what was printed of a play, or with the rows that it leaves.
pub fn fault_in(
    alloc: Global,
    text: &str,
    printed: &str,
    outcome: &mut Outcome<FailingStore>,
) -> Result<Option<&'static str>, Fail> {
    if text.len() >= 1 << 20 || printed.len() >= 1 << 20 {
        return Ok(Some("too long"));
    }
    let script = read_script(alloc, text.as_bytes())?;
    let report = read_report(alloc, printed.as_bytes())?;
    if add_up(outcome, report.rows.as_slice())? {
        fault_of(alloc, &script, &report)
    } else {
        Ok(Some("a closed row that does not add up"))
    }
}
