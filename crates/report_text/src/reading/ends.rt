//! How jobs ended, read from the end of a line.
ghost use Rattle.std.specs.Prelude.{◌≡◌, IfOk};
ghost use Rattle.report_text.specs.Reading.{Begins, row_word_of, lost_of, recovered_of, gave_of, word_end, number_end, plain_end, part_of, read_head, read_of, end_of};

use crate::reading::causes::{bay_behind, read_cause};
use crate::reading::contents::{read_contents, read_flags};
use crate::reading::words::{
    MOST_COUNT, MOST_NUMBER, behind, number_before, number_behind, take_word,
};
use raid_base::{Content, JobEnd, NoMemory, Number};
use std::alloc::Global;
use std::marker::Model;

/// The greatest number of tries.
const MOST_TRIES: u64 = 64;

/// The greatest unit.
const MOST_UNIT: u64 = 14;

/// How a job ended, with the contents of a read and the number of flags of a part.
#[derive(Drop)]
pub struct Ending {
    pub end: JobEnd,
    pub contents: Vec<Content>,
    pub flags: u8,
}

impl Model for Ending {
    ghost use Rattle.report_text.specs.Endings.{EndingOf};

    ghost Value = { EndingOf };

    ghost view = { λ ending. record { end = ending.end; contents = ending.contents.items; flags = ending.flags } };
}

/// Whether a row is closed.
#[tactic(auto, unfolding(crate::specs::Reading::row_word_of))]
pub fn read_row_word(word: &[u8]) -> Option<bool>
    ensures { result ≡ row_word_of word.now }
{
    if word == b"closed".as_slice() {
        return Some(true);
    }
    if word == b"open".as_slice() {
        return Some(false);
    }
    None
}

/// The unit that a recovery has named lost.
#[tactic(auto, unfolding(crate::specs::Reading::lost_of))]
fn read_lost(text: &[u8]) -> Option<Option<u8>>
    ensures { result ≡ lost_of text.now }
{
    if text == b"none".as_slice() {
        return Some(None);
    }
    let unit = number_behind(text, b"unit ", 0, MOST_UNIT)?;
    Some(Some(unit as u8))
}

#[tactic(auto, unfolding(crate::specs::Reading::recovered_of))]
fn read_recovered(text: &[u8]) -> Option<JobEnd>
    ensures { result ≡ recovered_of text.now }
{
    let words = behind(text, b"recovered ")?;
    let (number, words) = number_before(words, 1, MOST_NUMBER)?;
    let (word, words) = take_word(words)?;
    let closed = read_row_word(word)?;
    let lost = read_lost(words)?;
    Some(JobEnd::Recovered {
        number: Number(number),
        closed,
        lost,
    })
}

#[tactic(auto, unfolding(crate::specs::Reading::gave_of))]
fn read_gave(text: &[u8]) -> Option<JobEnd>
    ensures { result ≡ gave_of text.now }
{
    let words = behind(text, b"gave ")?;
    let (tries, words) = number_before(words, 1, MOST_TRIES)?;
    let cause = read_cause(words)?;
    Some(JobEnd::Gave {
        tries: tries as u8,
        cause,
    })
}

/// An end of one word.
#[tactic(auto, unfolding(crate::specs::Reading::word_end))]
fn word_end(text: &[u8]) -> Option<JobEnd>
    ensures { result ≡ word_end text.now }
{
    if text == b"lost".as_slice() {
        return Some(JobEnd::Lost);
    }
    if text == b"fitted".as_slice() {
        return Some(JobEnd::Fitted);
    }
    if text == b"rebuilt".as_slice() {
        return Some(JobEnd::Rebuilt);
    }
    if text == b"noobject".as_slice() {
        return Some(JobEnd::NoObject);
    }
    None
}

/// An end of a word and a number.
#[tactic(auto, unfolding(crate::specs::Reading::number_end))]
fn number_end(text: &[u8]) -> Option<JobEnd>
    ensures { result ≡ number_end text.now }
{
    if let Some(number) = number_behind(text, b"wrote ", 1, MOST_NUMBER) {
        return Some(JobEnd::Wrote {
            number: Number(number),
        });
    }
    if let Some(bay) = bay_behind(text, b"still ") {
        return Some(JobEnd::StillMissing { bay });
    }
    if let Some(bay) = bay_behind(text, b"notlost ") {
        return Some(JobEnd::NotLost { bay });
    }
    if let Some(bay) = bay_behind(text, b"notfitted ") {
        return Some(JobEnd::NotFitted { bay });
    }
    if let Some(blocks) = number_behind(text, b"pastend ", 0, MOST_COUNT) {
        return Some(JobEnd::PastEnd {
            blocks: blocks as u32,
        });
    }
    let rows = number_behind(text, b"toomanyrows ", 0, MOST_COUNT)?;
    Some(JobEnd::TooManyRows { rows: rows as u32 })
}

/// An end with neither contents nor flags.
#[tactic(auto, unfolding(crate::specs::Reading::plain_end))]
fn plain_end(text: &[u8]) -> Option<JobEnd>
    ensures { result ≡ plain_end text.now }
{
    word_end(text)
        .or(number_end(text))
        .or(read_recovered(text))
        .or(read_gave(text))
}

/// The end of a part, and how many flags it has.
#[tactic(auto, unfolding(crate::specs::Reading::part_of))]
fn read_part(text: &[u8]) -> Option<(JobEnd, u8)>
    ensures { result ≡ part_of text.now }
{
    let words = behind(text, b"part ")?;
    let (number, words) = number_before(words, 1, MOST_NUMBER)?;
    let (digits, words) = take_word(words)?;
    let made = read_flags(digits)?;
    let cause = read_cause(words)?;
    let end = JobEnd::Part {
        number: Number(number),
        made,
        cause,
    };
    Some((end, digits.len() as u8))
}

/// The number of a read, and the text of its contents.
#[tactic(auto, unfolding(crate::specs::Reading::read_head))]
fn read_head(text: &[u8]) -> Option<(u64, &[u8])>
    ensures { Begins result (read_head text.now) }
{
    let words = behind(text, b"read ")?;
    number_before(words, 1, MOST_NUMBER)
}

#[tactic(auto, unfolding(crate::specs::Reading::read_of))]
fn read_read(alloc: Global, text: &[u8]) -> Result<Option<Ending>, NoMemory>
    ensures { IfOk result (λ found. found ≡ read_of text.now) }
{
    let Some((number, words)) = read_head(text) else {
        return Ok(None);
    };
    match read_contents(alloc, words)? {
        Some(contents) => Ok(Some(Ending {
            end: JobEnd::Read {
                number: Number(number),
            },
            contents,
            flags: 0,
        })),
        None => Ok(None),
    }
}

/// The end that the text is.
#[tactic(auto, unfolding(crate::specs::Reading::end_of))]
pub fn read_end(alloc: Global, text: &[u8]) -> Result<Option<Ending>, NoMemory>
    ensures { IfOk result (λ found. found ≡ end_of text.now) }
{
    if let Some(end) = plain_end(text) {
        return Ok(Some(Ending {
            end,
            contents: Vec::new(alloc),
            flags: 0,
        }));
    }
    if let Some((end, flags)) = read_part(text) {
        return Ok(Some(Ending {
            end,
            contents: Vec::new(alloc),
            flags,
        }));
    }
    read_read(alloc, text)
}
