//! The summary of a load.
ghost use Rattle.std.specs.Prelude.{◌≡◌, count_by, map, not};
ghost use Rattle.std.specs.List.{flat_map};
ghost use Rattle.text_lines.specs.Lines.{line};
ghost use Rattle.text_lines.specs.Writing.{Writes};
ghost use Rattle.report_text.specs.Appends.{Appends};
ghost use Rattle.report_text.specs.Views.{object_blocks, report_in, shown_block};
ghost use Rattle.load_maker.specs.Summary.{course_lines, end_lines, shown_lines, summary_text};

use crate::ends::{count_ends, greatest};
use crate::tally::tally_blocks;
use raid_base::{Failed, JobResult, Sink};
use report_text::Final;
use text_lines::{block_text, number_text, write_pieces};

/// Writes the load's number, and how its jobs ended.
fn write_ends<K: Sink>(sink: &mut K, n: u32, results: &[JobResult]) -> Result<(), Failed>
    ensures { Writes K.written K.tells K.faults sink.old sink.new result (flat_map line (end_lines n results.now)) }
{
    let ends = count_ends(results);
    let load = number_text(u64::from(n));
    let read = number_text(ends.read);
    let wrote = number_text(ends.wrote);
    let part = number_text(ends.part);
    let gave = number_text(ends.gave);
    let other = number_text(ends.other);
    write_pieces(
        sink,
        &[
            b"load ",
            load.as_slice(),
            b"\nread ",
            read.as_slice(),
            b" wrote ",
            wrote.as_slice(),
            b" part ",
            part.as_slice(),
            b" gave ",
            gave.as_slice(),
            b" other ",
            other.as_slice(),
            b"\n",
        ],
    )
}

/// How many rows are closed.
fn count_closed(opened: &[bool]) -> u64
    ensures { result ≡ count_by not opened.now }
{
    opened.iter().filter(|is_open| !**is_open).count() as u64
}

/// Writes the number of requests, the greatest number and the number of closed rows.
fn write_course<K: Sink>(sink: &mut K, view: &Final<'_>) -> Result<(), Failed>
    ensures { Writes K.written K.tells K.faults sink.old sink.new result (flat_map line (course_lines view.now.results.now view.now.turns.now (map not view.now.opened.now))) }
{
    let requests = number_text(view.turns.len() as u64);
    let greatest = number_text(greatest(view.results));
    let closed = number_text(count_closed(view.opened));
    write_pieces(
        sink,
        &[
            b"requests ",
            requests.as_slice(),
            b"\ngreatest ",
            greatest.as_slice(),
            b"\nclosed ",
            closed.as_slice(),
            b"\n",
        ],
    )
}

/// Writes what is shown of the blocks, and the end.
fn write_shown<K: Sink>(sink: &mut K, view: &Final<'_>) -> Result<(), Failed>
    ensures { let script = view.now.script.now in Writes K.written K.tells K.faults sink.old sink.new result (flat_map line (shown_lines (map (shown_block script.n script.objects view.now.cells.now view.now.opened.now) (flat_map (object_blocks script.n) script.objects)))) }
{
    let tally = tally_blocks(view);
    let lost = number_text(tally.lost);
    let hidden = number_text(tally.hidden);
    let sum = block_text(&tally.sum);
    write_pieces(
        sink,
        &[
            b"lost ",
            lost.as_slice(),
            b" hidden ",
            hidden.as_slice(),
            b"\nsum ",
            sum.as_slice(),
            b"\nend\n",
        ],
    )
}

/// Appends the summary of the load of `n` jobs that has ended so. Where that fails, the sink has failed, and a first part
/// of the summary was appended.
pub fn write_summary<K: Sink>(sink: &mut K, n: u32, view: &Final<'_>) -> Result<(), Failed>
    ensures { let report = report_in view.now.script.now view.now.results.now view.now.contents.now view.now.turns.now view.now.cells.now view.now.opened.now in Appends K.tells K.written K.faults sink.old (summary_text n report) result sink.new }
{
    write_ends(sink, n, view.results)?;
    write_course(sink, view)?;
    write_shown(sink, view)
}
