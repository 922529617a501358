//! The lines of a report, and their parts.
ghost use Rattle.std.specs.Prelude.{◌≡◌, ◌≤◌, ◌∷◌, [], List, ℕ, map, codes, decimal, not};
ghost use Rattle.std.specs.List.{flat_map};
ghost use Rattle.text_lines.specs.Lines.{spaced, joined, line};
ghost use Rattle.report_text.specs.Appends.{Appends};
ghost use Rattle.report_text.specs.Report.{holder_words, cause_words, content_text, lost_words, end_words, row_word, job_line, turn_line, block_line, row_line, flags_text};

use crate::texts::{content_text, flags, row_word, shown_text};
use crate::words::{put, put_joined, put_line, put_word, put_words};
use raid_base::{Cause, Content, Failed, JobEnd, JobResult, Name, Note, Number, Shown, Sink, Turn};
use text_lines::number_text;

/// Appends a word and a number.
fn put_number<K: Sink>(sink: &mut K, word: &[u8], number: u64) -> Result<(), Failed>
    ensures { Appends K.tells K.written K.faults sink.old (flat_map spaced (word.now ∷ decimal number ∷ [])) result sink.new }
{
    let number = number_text(number);
    put_words(sink, &[word, number.as_slice()])
}

/// Appends a word and two numbers.
fn put_numbers<K: Sink>(sink: &mut K, word: &[u8], first: u64, second: u64) -> Result<(), Failed>
    ensures { Appends K.tells K.written K.faults sink.old (flat_map spaced (word.now ∷ decimal first ∷ decimal second ∷ [])) result sink.new }
{
    let first = number_text(first);
    let second = number_text(second);
    put_words(sink, &[word, first.as_slice(), second.as_slice()])
}

/// Appends a word and the holder of a note.
fn put_holder<K: Sink>(sink: &mut K, word: &[u8], holder: &Note) -> Result<(), Failed>
    ensures { Appends K.tells K.written K.faults sink.old (flat_map spaced (word.now ∷ holder_words holder.now)) result sink.new }
{
    put_numbers(sink, word, u64::from(holder.host.0), holder.id.0)
}

/// Appends a cause.
fn put_cause<K: Sink>(sink: &mut K, cause: &Cause) -> Result<(), Failed>
    ensures { Appends K.tells K.written K.faults sink.old (flat_map spaced (cause_words cause.now)) result sink.new }
{
    match *cause {
        Cause::Busy { holder } => put_holder(sink, b"busy", &holder),
        Cause::Late { above } => put_number(sink, b"late", above.0),
        Cause::Young { note } => put_holder(sink, b"young", &note),
        Cause::Behind { floor } => put_number(sink, b"behind", floor.0),
        Cause::Fault { bay } => put_number(sink, b"fault", u64::from(bay.0)),
        Cause::Broken { first, second } => put_numbers(
            sink,
            b"broken",
            u64::from(first.0),
            u64::from(second.0),
        ),
        Cause::Gone { bay } => put_number(sink, b"gone", u64::from(bay.0)),
        Cause::Changed { row } => put_number(sink, b"changed", u64::from(row.0)),
        Cause::Released { row } => put_number(sink, b"released", u64::from(row.0)),
        Cause::Seized { row } => put_number(sink, b"seized", u64::from(row.0)),
        Cause::Spent { seen } => put_number(sink, b"spent", seen.0),
        Cause::Quit => put_word(sink, b"quit"),
    }
}

/// Appends a content.
fn put_content<K: Sink>(sink: &mut K, content: &Content) -> Result<(), Failed>
    ensures { Appends K.tells K.written K.faults sink.old (spaced (content_text content.now)) result sink.new }
{
    put_word(sink, content_text(content).as_slice())
}

/// Appends contents.
fn put_contents<K: Sink>(sink: &mut K, contents: &[Content]) -> Result<(), Failed>
    ensures { Appends K.tells K.written K.faults sink.old (flat_map spaced (map content_text contents.now)) result sink.new }
{
    for content in contents {
        put_content(sink, content)?;
    }
    Ok(())
}

/// Appends how a read ended, with its contents.
fn put_read<K: Sink>(sink: &mut K, number: Number, contents: &[Content]) -> Result<(), Failed>
    ensures { Appends K.tells K.written K.faults sink.old (flat_map spaced (codes "read" ∷ decimal number.0 ∷ map content_text contents.now)) result sink.new }
{
    put_number(sink, b"read", number.0)?;
    put_contents(sink, contents)
}

/// Appends which of so many blocks are made.
fn put_flags<K: Sink>(sink: &mut K, made: u128, blocks: u8) -> Result<(), Failed>
    ensures { Appends K.tells K.written K.faults sink.old (spaced (flags_text made blocks)) result sink.new }
{
    let flags = flags(made);
    put_word(sink, &flags[..usize::from(blocks)])
}

/// Appends how a write ended of which so many blocks were to be made.
fn put_part<K: Sink>(
    sink: &mut K,
    number: Number,
    made: u128,
    blocks: u8,
    cause: &Cause,
) -> Result<(), Failed>
    ensures { Appends K.tells K.written K.faults sink.old (flat_map spaced (codes "part" ∷ decimal number.0 ∷ flags_text made blocks ∷ cause_words cause.now)) result sink.new }
{
    put_number(sink, b"part", number.0)?;
    put_flags(sink, made, blocks)?;
    put_cause(sink, cause)
}

/// Appends which unit was named lost.
fn put_lost<K: Sink>(sink: &mut K, lost: Option<u8>) -> Result<(), Failed>
    ensures { Appends K.tells K.written K.faults sink.old (flat_map spaced (lost_words lost)) result sink.new }
{
    match lost {
        None => put_word(sink, b"none"),
        Some(unit) => put_number(sink, b"unit", u64::from(unit)),
    }
}

/// Appends how a recovery ended.
fn put_recovered<K: Sink>(
    sink: &mut K,
    number: Number,
    closed: bool,
    lost: Option<u8>,
) -> Result<(), Failed>
    ensures { Appends K.tells K.written K.faults sink.old (flat_map spaced (codes "recovered" ∷ decimal number.0 ∷ row_word closed ∷ lost_words lost)) result sink.new }
{
    put_number(sink, b"recovered", number.0)?;
    put_word(sink, row_word(closed))?;
    put_lost(sink, lost)
}

/// Appends how a job was given up.
fn put_gave<K: Sink>(sink: &mut K, tries: u8, cause: &Cause) -> Result<(), Failed>
    ensures { Appends K.tells K.written K.faults sink.old (flat_map spaced (codes "gave" ∷ decimal tries ∷ cause_words cause.now)) result sink.new }
{
    put_number(sink, b"gave", u64::from(tries))?;
    put_cause(sink, cause)
}

/// Appends how a job of so many blocks ended, with what it has read.
fn put_end<K: Sink>(
    sink: &mut K,
    end: &JobEnd,
    contents: &[Content],
    blocks: u8,
) -> Result<(), Failed>
    ensures { Appends K.tells K.written K.faults sink.old (flat_map spaced (end_words end.now contents.now blocks)) result sink.new }
{
    match *end {
        JobEnd::Read { number } => put_read(sink, number, contents),
        JobEnd::Wrote { number } => put_number(sink, b"wrote", number.0),
        JobEnd::Part {
            number,
            made,
            cause,
        } => put_part(sink, number, made, blocks, &cause),
        JobEnd::Recovered {
            number,
            closed,
            lost,
        } => put_recovered(sink, number, closed, lost),
        JobEnd::Lost => put_word(sink, b"lost"),
        JobEnd::Fitted => put_word(sink, b"fitted"),
        JobEnd::Rebuilt => put_word(sink, b"rebuilt"),
        JobEnd::Gave { tries, cause } => put_gave(sink, tries, &cause),
        JobEnd::StillMissing { bay } => put_number(sink, b"still", u64::from(bay.0)),
        JobEnd::NotLost { bay } => put_number(sink, b"notlost", u64::from(bay.0)),
        JobEnd::NotFitted { bay } => put_number(sink, b"notfitted", u64::from(bay.0)),
        JobEnd::NoObject => put_word(sink, b"noobject"),
        JobEnd::PastEnd { blocks } => put_number(sink, b"pastend", u64::from(blocks)),
        JobEnd::TooManyRows { rows } => put_number(sink, b"toomanyrows", u64::from(rows)),
    }
}

/// Appends which job of which host has ended.
fn put_job_name<K: Sink>(sink: &mut K, ended: &JobResult) -> Result<(), Failed>
    ensures { Appends K.tells K.written K.faults sink.old (joined (codes "job" ∷ decimal ended.now.host.0 ∷ decimal ended.now.job ∷ [])) result sink.new }
{
    let host = number_text(u64::from(ended.host.0));
    let job = number_text(u64::from(ended.job));
    put_joined(sink, b"job", &[host.as_slice(), job.as_slice()])
}

/// Appends the line of a result, of a job of so many blocks, with what it has read.
pub fn put_job<K: Sink>(
    sink: &mut K,
    ended: &JobResult,
    contents: &[Content],
    blocks: u8,
) -> Result<(), Failed>
    ensures { Appends K.tells K.written K.faults sink.old (job_line ended.now contents.now blocks) result sink.new }
{
    put_job_name(sink, ended)?;
    put_end(sink, &ended.end, contents, blocks)?;
    put(sink, b"\n")
}

/// Appends the line of a turn.
pub fn put_turn<K: Sink>(sink: &mut K, turn: &Turn) -> Result<(), Failed>
    ensures { Appends K.tells K.written K.faults sink.old (turn_line turn.now) result sink.new }
{
    let host = number_text(u64::from(turn.host.0));
    let moment = number_text(turn.moment);
    put_line(sink, b"turn", &[host.as_slice(), moment.as_slice()])
}

/// Appends the line of a block of an object.
pub fn put_block<K: Sink>(
    sink: &mut K,
    object: &Name,
    block: u32,
    shown: &Shown,
) -> Result<(), Failed>
    ensures { Appends K.tells K.written K.faults sink.old (block_line (record { object = object.now; block = block }, shown.now)) result sink.new }
{
    let number = number_text(u64::from(block));
    let content = shown_text(shown);
    put_line(
        sink,
        b"block",
        &[object.as_bytes(), number.as_slice(), content.as_slice()],
    )
}

/// Appends the line of a row.
pub fn put_row<K: Sink>(sink: &mut K, row: u64, closed: bool) -> Result<(), Failed>
    ensures { Appends K.tells K.written K.faults sink.old (row_line row closed) result sink.new }
{
    let number = number_text(row);
    put_line(sink, b"row", &[number.as_slice(), row_word(closed)])
}
