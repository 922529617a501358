//! The sections of a report: turns and rows.
ghost use Rattle.std.specs.Prelude.{◌∷◌, [], map, not, length, codes, decimal};
ghost use Rattle.std.specs.List.{flat_map};
ghost use Rattle.text_lines.specs.Lines.{line};
ghost use Rattle.report_text.specs.Appends.{Appends};
ghost use Rattle.report_text.specs.Report.{turn_line, turn_lines, row_lines};

use crate::lines::{put_row, put_turn};
use crate::words::put_line;
use raid_base::{Failed, Sink, Turn};
use text_lines::number_text;

/// Appends how many turns there are.
fn put_turn_count<K: Sink>(sink: &mut K, turns: &[Turn]) -> Result<(), Failed>
    ensures { Appends K.tells K.written K.faults sink.old (line (codes "turns" ∷ decimal (length turns.now) ∷ [])) result sink.new }
{
    let count = number_text(turns.len() as u64);
    put_line(sink, b"turns", &[count.as_slice()])
}

/// Appends each turn.
fn put_each_turn<K: Sink>(sink: &mut K, turns: &[Turn]) -> Result<(), Failed>
    ensures { Appends K.tells K.written K.faults sink.old (flat_map turn_line turns.now) result sink.new }
{
    for turn in turns {
        put_turn(sink, turn)?;
    }
    Ok(())
}

/// Appends how many turns there are, and each of them.
pub fn put_turns<K: Sink>(sink: &mut K, turns: &[Turn]) -> Result<(), Failed>
    ensures { Appends K.tells K.written K.faults sink.old (turn_lines turns.now) result sink.new }
{
    put_turn_count(sink, turns)?;
    put_each_turn(sink, turns)
}

/// Appends of each row whether it is closed.
pub fn put_rows<K: Sink>(sink: &mut K, opened: &[bool]) -> Result<(), Failed>
    ensures { Appends K.tells K.written K.faults sink.old (row_lines 0 (map not opened.now)) result sink.new }
{
    for (row, is_open) in opened.iter().enumerate() {
        put_row(sink, row as u64, !*is_open)?;
    }
    Ok(())
}
