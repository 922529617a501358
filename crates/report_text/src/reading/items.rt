//! The lines of a report, one by one.
ghost use Rattle.std.specs.Prelude.{◌≡◌, IfOk};
ghost use Rattle.report_text.specs.Items.{Heads, name_of, turn_of, block_of_line, row_of, short_line, job_head, job_of, line_of};

use crate::reading::contents::read_shown;
use crate::reading::ends::{Ending, read_end, read_row_word};
use crate::reading::words::{
    MOST_COUNT, MOST_HOST, MOST_MOMENT, MOST_ROW, behind, number_before, number_behind,
    pair_behind, take_word,
};
use raid_base::{HostNo, Name, NoMemory, Shown, Turn};
use std::alloc::Global;

/// What a line of a report says.
#[derive(Drop)]
pub enum Line {
    Head,
    Job {
        host: HostNo,
        job: u32,
        ending: Ending,
    },
    Turns {
        count: u32,
    },
    Turn {
        turn: Turn,
    },
    Block {
        object: Name,
        block: u32,
        shown: Shown,
    },
    Row {
        row: u16,
        closed: bool,
    },
    End,
}

#[tactic(auto, unfolding(crate::specs::Items::name_of))]
fn read_name(word: &[u8]) -> Option<Name>
    ensures { result ≡ name_of word.now }
{
    Name::new(word)
}

#[tactic(auto, unfolding(crate::specs::Items::turn_of))]
fn read_turn(text: &[u8]) -> Option<Line>
    ensures { result ≡ turn_of text.now }
{
    let (host, moment) = pair_behind(text, b"turn ", 0, MOST_MOMENT)?;
    let turn = Turn {
        host: HostNo(host as u8),
        moment,
    };
    Some(Line::Turn { turn })
}

#[tactic(auto, unfolding(crate::specs::Items::block_of_line))]
fn read_block_line(text: &[u8]) -> Option<Line>
    ensures { result ≡ block_of_line text.now }
{
    let words = behind(text, b"block ")?;
    let (word, words) = take_word(words)?;
    let object = read_name(word)?;
    let (block, word) = number_before(words, 0, MOST_COUNT)?;
    let shown = read_shown(word)?;
    Some(Line::Block {
        object,
        block: block as u32,
        shown,
    })
}

#[tactic(auto, unfolding(crate::specs::Items::row_of))]
fn read_row(text: &[u8]) -> Option<Line>
    ensures { result ≡ row_of text.now }
{
    let words = behind(text, b"row ")?;
    let (row, word) = number_before(words, 0, MOST_ROW)?;
    let closed = read_row_word(word)?;
    Some(Line::Row {
        row: row as u16,
        closed,
    })
}

/// A line of any kind but a result's.
#[tactic(auto, unfolding(crate::specs::Items::short_line))]
fn short_line(text: &[u8]) -> Option<Line>
    ensures { result ≡ short_line text.now }
{
    if text == b"report 1".as_slice() {
        return Some(Line::Head);
    }
    if text == b"end".as_slice() {
        return Some(Line::End);
    }
    if let Some(count) = number_behind(text, b"turns ", 0, MOST_COUNT) {
        return Some(Line::Turns {
            count: count as u32,
        });
    }
    read_turn(text).or(read_block_line(text)).or(read_row(text))
}

/// The host and the job of a result, and the text of its end.
#[tactic(auto, unfolding(crate::specs::Items::job_head))]
fn job_head(text: &[u8]) -> Option<(u8, u32, &[u8])>
    ensures { Heads result (job_head text.now) }
{
    let words = behind(text, b"job ")?;
    let (host, words) = number_before(words, 0, MOST_HOST)?;
    let (job, words) = number_before(words, 0, MOST_COUNT)?;
    Some((host as u8, job as u32, words))
}

#[tactic(auto, unfolding(crate::specs::Items::job_of))]
fn read_job(alloc: Global, text: &[u8]) -> Result<Option<Line>, NoMemory>
    ensures { IfOk result (λ found. found ≡ job_of text.now) }
{
    let Some((host, job, words)) = job_head(text) else {
        return Ok(None);
    };
    match read_end(alloc, words)? {
        Some(ending) => Ok(Some(Line::Job {
            host: HostNo(host),
            job,
            ending,
        })),
        None => Ok(None),
    }
}

/// What a line says, without the byte that ends it.
#[tactic(auto, unfolding(crate::specs::Items::line_of))]
pub fn read_line(alloc: Global, text: &[u8]) -> Result<Option<Line>, NoMemory>
    ensures { IfOk result (λ found. found ≡ line_of text.now) }
{
    if let Some(line) = short_line(text) {
        return Ok(Some(line));
    }
    read_job(alloc, text)
}
