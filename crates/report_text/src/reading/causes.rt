//! Causes, read from the end of a line.
ghost use Rattle.std.specs.Prelude.{◌≡◌};
ghost use Rattle.report_text.specs.Reading.{holder_behind, bay_behind, row_behind, floor_behind, number_cause, bay_cause, row_cause, cause_of};

use crate::reading::words::{MOST_HOST, MOST_NUMBER, MOST_ROW, number_behind, pair_behind};
use raid_base::{BayNo, Cause, HostNo, Note, Number, RowNo};

/// The holder behind a piece, as a note of which no more is known than its host and id.
#[tactic(auto, unfolding(crate::specs::Reading::holder_behind))]
fn holder_behind(text: &[u8], piece: &[u8]) -> Option<Note>
    ensures { result ≡ holder_behind piece.now text.now }
{
    let (host, id) = pair_behind(text, piece, 1, MOST_NUMBER)?;
    Some(Note {
        host: HostNo(host as u8),
        id: Number(id),
        origin: Number(id),
        mask: 0,
        moment: 0,
    })
}

/// The bay behind a piece.
#[tactic(auto, unfolding(crate::specs::Reading::bay_behind))]
pub fn bay_behind(text: &[u8], piece: &[u8]) -> Option<BayNo>
    ensures { result ≡ bay_behind piece.now text.now }
{
    let bay = number_behind(text, piece, 0, MOST_HOST)?;
    Some(BayNo(bay as u8))
}

/// The row behind a piece.
#[tactic(auto, unfolding(crate::specs::Reading::row_behind))]
fn row_behind(text: &[u8], piece: &[u8]) -> Option<RowNo>
    ensures { result ≡ row_behind piece.now text.now }
{
    let row = number_behind(text, piece, 0, MOST_ROW)?;
    Some(RowNo(row as u16))
}

/// A number that may be 0, behind a piece.
#[tactic(auto, unfolding(crate::specs::Reading::floor_behind))]
fn floor_behind(text: &[u8], piece: &[u8]) -> Option<Number>
    ensures { result ≡ floor_behind piece.now text.now }
{
    let number = number_behind(text, piece, 0, MOST_NUMBER)?;
    Some(Number(number))
}

/// A cause that names numbers.
#[tactic(auto, unfolding(crate::specs::Reading::number_cause))]
fn number_cause(text: &[u8]) -> Option<Cause>
    ensures { result ≡ number_cause text.now }
{
    if let Some(holder) = holder_behind(text, b"busy ") {
        return Some(Cause::Busy { holder });
    }
    if let Some(note) = holder_behind(text, b"young ") {
        return Some(Cause::Young { note });
    }
    if let Some(above) = floor_behind(text, b"late ") {
        return Some(Cause::Late { above });
    }
    if let Some(floor) = floor_behind(text, b"behind ") {
        return Some(Cause::Behind { floor });
    }
    let seen = floor_behind(text, b"spent ")?;
    Some(Cause::Spent { seen })
}

/// A cause that names bays.
#[tactic(auto, unfolding(crate::specs::Reading::bay_cause))]
fn bay_cause(text: &[u8]) -> Option<Cause>
    ensures { result ≡ bay_cause text.now }
{
    if let Some(bay) = bay_behind(text, b"fault ") {
        return Some(Cause::Fault { bay });
    }
    if let Some(bay) = bay_behind(text, b"gone ") {
        return Some(Cause::Gone { bay });
    }
    let (first, second) = pair_behind(text, b"broken ", 0, MOST_HOST)?;
    Some(Cause::Broken {
        first: BayNo(first as u8),
        second: BayNo(second as u8),
    })
}

/// A cause that names a row.
#[tactic(auto, unfolding(crate::specs::Reading::row_cause))]
fn row_cause(text: &[u8]) -> Option<Cause>
    ensures { result ≡ row_cause text.now }
{
    if let Some(row) = row_behind(text, b"changed ") {
        return Some(Cause::Changed { row });
    }
    if let Some(row) = row_behind(text, b"released ") {
        return Some(Cause::Released { row });
    }
    let row = row_behind(text, b"seized ")?;
    Some(Cause::Seized { row })
}

/// The cause that the text is.
#[tactic(auto, unfolding(crate::specs::Reading::cause_of))]
pub fn read_cause(text: &[u8]) -> Option<Cause>
    ensures { result ≡ cause_of text.now }
{
    if text == b"quit".as_slice() {
        return Some(Cause::Quit);
    }
    number_cause(text).or(bay_cause(text)).or(row_cause(text))
}
