//! The cells and the open rows that the bays of a world have.
ghost use Rattle.std.specs.Prelude.{◌≡◌, ◌<◌, ◌≤◌, ◌+◌, ◌-◌, ◌*◌, ◌++◌, ◌==◌, ◌&&◌, nat_le, false, replicate, List, IfOk, IfErr, length, vec_len};
ghost use Rattle.std.specs.Vec.{vec_capacity};
ghost use Rattle.raid_base.specs.declared.messages.Call.{Call};
ghost use Rattle.script_text.specs.Script.{Script};
ghost use Rattle.schedule_play.specs.World.{EachAt, BayShows, AllTell};
ghost use Rattle.schedule_play.specs.Rows.{HaveRows, IsMarked, row_no, has_note, row_now, cells_now, opened_now, cells_after, opened_after, AreLookedAt, HasFailed, ShowRows};

use bay_device::Bay;
use block_store::Store;
use raid_base::{BayNo, Cell, RowNo};

/// Appends so many rows that aren't open.
fn push_closed(rows: u16, opened: &mut Vec<bool>)
    requires { vec_len opened.old + rows ≤ vec_capacity opened.old }
    ensures items { opened.new.items ≡ opened.old.items ++ replicate rows false }
    ensures capacity { vec_capacity opened.new ≡ vec_capacity opened.old }
{
    for _row in 0..rows {
        opened.push_reserved(false);
    }
}

/// Marks the row at this place as open, if it is there and has a note.
fn mark_row(opened: &mut Vec<bool>, place: usize, noted: bool)
    ensures len { vec_len opened.new ≡ vec_len opened.old }
    ensures capacity { vec_capacity opened.new ≡ vec_capacity opened.old }
    ensures marked { IsMarked opened.old.items opened.new.items (λ j. noted && (j == place)) }
{
    if noted && place < opened.len() {
        opened[place] = true;
    }
}

/// Marks the rows on which a bay has an open note. They stand from `first` on.
fn mark_noted<D: Store>(bay: &Bay<D>, first: usize, opened: &mut Vec<bool>)
    requires { first ≤ vec_len opened.old }
    ensures len { vec_len opened.new ≡ vec_len opened.old }
    ensures capacity { vec_capacity opened.new ≡ vec_capacity opened.old }
    ensures marked { IsMarked opened.old.items opened.new.items (λ j. nat_le first j && has_note (row_no (j - first)) bay.now) }
{
    for k in 0..bay.open_rows() {
        let row = bay.open_row(k);
        let noted = bay.note(row).is_some();
        mark_row(opened, first + usize::from(row.0), noted);
    }
}

/// Appends for each of the first rows whether it is open. Only rows that are open on some bay are looked at.
fn read_open<D: Store>(bays: &[Bay<D>], rows: u16, opened: &mut Vec<bool>)
    requires { vec_len opened.old + rows ≤ vec_capacity opened.old }
    ensures opened { opened.new.items ≡ opened.old.items ++ opened_now rows bays.now }
    ensures capacity { vec_capacity opened.new ≡ vec_capacity opened.old }
{
    let first = opened.len();
    push_closed(rows, opened);
    for at in 0..bays.len() {
        mark_noted(&bays[at], first, opened);
    }
}

/// Appends the cells of a row, bay by bay. A store that fails ends the reading, and its bay is named.
fn read_row<D: Store>(
    bays: &mut [Bay<D>],
    row: RowNo,
    cells: &mut Vec<Option<Cell>>,
) -> Result<(), BayNo>
    requires rows { HaveRows (row.0 + 1) bays.old }
    requires few { length bays.old < 256 }
    requires room { vec_len cells.old + length bays.old ≤ vec_capacity cells.old }
    ensures looked { AreLookedAt bays.old bays.new }
    ensures cells { AllTell bays.old → IfOk result (λ _. cells.new.items ≡ cells.old.items ++ row_now bays.old row) }
    ensures count { IfOk result (λ _. vec_len cells.new ≡ vec_len cells.old + length bays.old) }
    ensures capacity { vec_capacity cells.new ≡ vec_capacity cells.old }
    ensures failed { IfErr result (λ bay. HasFailed bay.0 bays.old bays.new) }
{
    for at in 0..bays.len() {
        match bays[at].look(row) {
            Ok(cell) => cells.push_reserved(cell),
            Err(_) => return Err(BayNo(at as u8)),
        }
    }
    Ok(())
}

/// Appends the cells of the first rows, row by row, and of each whether it is open. A store that fails ends the reading, and
/// its bay is named.
///
/// The bays answer as before: only the counts of their stores' faults may have risen.
pub fn read_rows<D: Store>(
    bays: &mut [Bay<D>],
    rows: u16,
    cells: &mut Vec<Option<Cell>>,
    opened: &mut Vec<bool>,
) -> Result<(), BayNo>
    requires rows { HaveRows rows bays.old }
    requires few { length bays.old < 256 }
    requires cells { vec_len cells.old + rows * length bays.old ≤ vec_capacity cells.old }
    requires opened { vec_len opened.old + rows ≤ vec_capacity opened.old }
    ensures looked { AreLookedAt bays.old bays.new }
    ensures cells { AllTell bays.old → IfOk result (λ _. cells.new.items ≡ cells.old.items ++ cells_now rows bays.old) }
    ensures opened { IfOk result (λ _. opened.new.items ≡ opened.old.items ++ opened_now rows bays.old) }
    ensures after { (script : Script) (history : List Call) → ShowRows script history bays.old → rows ≡ script.rows → IfOk result (λ _. (cells.new.items ≡ cells.old.items ++ cells_after script history) × (opened.new.items ≡ opened.old.items ++ opened_after script history)) }
    ensures shows { (script : Script) (history : List Call) → EachAt (BayShows script history) bays.old → EachAt (BayShows script history) bays.new }
    ensures tells { AllTell bays.old → AllTell bays.new }
    ensures capacities { (vec_capacity cells.new ≡ vec_capacity cells.old) × (vec_capacity opened.new ≡ vec_capacity opened.old) }
    ensures failed { IfErr result (λ bay. HasFailed bay.0 bays.old bays.new) }
{
    read_open(bays, rows, opened);
    for row in 0..rows {
        match read_row(bays, RowNo(row), cells) {
            Ok(()) => {}
            Err(bay) => return Err(bay),
        }
    }
    Ok(())
}
