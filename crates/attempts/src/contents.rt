//! What a read makes of the cells that it was granted.
ghost use Rattle.std.specs.Prelude.{◌≡◌, [], ◌∷◌, ◌++◌, ◌+◌, ◌<◌, ◌≤◌, length};
ghost use Rattle.arrayvec.specs.ArrayVec.{array_vec_len};
ghost use Rattle.degraded_plans.specs.Missing.{missing_of};
ghost use Rattle.attempts.specs.Reading.{cell_in, cells_in, parity_in, unit_content, row_contents};

use crate::rows::Row;
use crate::units::units_in;
use arrayvec::ArrayVec;
use degraded_plans::missing_of;
use raid_base::{Cell, Content, Grant, content_of};

/// The contents of the blocks of a job, at most 15 of each of 8 rows.
pub type Contents = ArrayVec<Content, 120>;

/// Room for each unit of a row twice.
pub type Cells = ArrayVec<Cell, 32>;

/// The cell of a grant, zeros where it shows none.
pub fn cell_in(grant: Grant) -> Cell
    ensures { result ≡ cell_in grant }
{
    match grant.cell {
        Some(cell) => cell,
        None => Cell {
            bytes: [0; 64],
            lost: 0,
        },
    }
}

/// The parity's cell, zeros where it was not granted.
pub fn parity_in(row: &Row) -> Cell
    ensures { result ≡ parity_in row.now }
{
    match row.parity() {
        Some(grant) => cell_in(grant),
        None => Cell {
            bytes: [0; 64],
            lost: 0,
        },
    }
}

/// Adds the cell of a slot that was granted.
fn push_cell(cells: &mut Cells, grant: Option<Grant>)
    requires { array_vec_len cells.old < 32 }
    ensures items { cells.new.items ≡ cells.old.items ++ cells_in (grant ∷ []) }
    ensures len { array_vec_len cells.new ≤ array_vec_len cells.old + 1 }
{
    match grant {
        Some(grant) => cells.push(cell_in(grant)),
        None => {}
    }
}

/// Adds the cells of those of these slots that were granted.
pub fn push_cells(cells: &mut Cells, grants: &[Option<Grant>])
    requires { array_vec_len cells.old + length grants.now ≤ 32 }
    ensures items { cells.new.items ≡ cells.old.items ++ cells_in grants.now }
    ensures len { array_vec_len cells.new ≤ array_vec_len cells.old + length grants.now }
{
    for grant in grants {
        push_cell(cells, *grant);
    }
}

/// What the other slots of a row make of a unit.
fn rebuilt(row: &Row, unit: u8) -> Cell
    requires few_wanted { length row.now.wanted ≤ 16 }
    requires few_others { length row.now.others ≤ 16 }
    requires unit { unit < 15 }
    ensures { result ≡ missing_of (parity_in row.now) (cells_in row.now.wanted ++ cells_in row.now.others) unit }
{
    let mut cells = ArrayVec::new();
    push_cells(&mut cells, row.wanted());
    push_cells(&mut cells, row.others());
    missing_of(&parity_in(row), cells.as_slice(), unit)
}

/// The content of a unit: its cell's, or what is rebuilt of it.
fn unit_content(row: &Row, unit: u8, grant: Option<Grant>) -> Content
    requires few_wanted { length row.now.wanted ≤ 16 }
    requires few_others { length row.now.others ≤ 16 }
    requires unit { unit < 15 }
    ensures { result ≡ unit_content row.now (unit, grant) }
{
    match grant {
        Some(grant) => content_of(&cell_in(grant)),
        None => content_of(&rebuilt(row, unit)),
    }
}

/// Adds the contents of the wanted units of a row.
#[tactic(auto, using(crate::proofs::ContentLemmas::contents))]
pub fn push_row_contents(contents: &mut Contents, n: u8, row: &Row)
    requires few { 3 ≤ n × (n ≤ 16) }
    requires few_wanted { length row.now.wanted ≤ 16 }
    requires few_others { length row.now.others ≤ 16 }
    requires room { array_vec_len contents.old + 15 ≤ 120 }
    ensures items { contents.new.items ≡ contents.old.items ++ row_contents n row.now }
    ensures len { array_vec_len contents.new ≤ array_vec_len contents.old + 15 }
{
    let units = units_in(n, row.part().mask);
    let wanted = row.wanted();
    for i in 0..units.len().min(wanted.len()) {
        contents.push(unit_content(row, units[i], wanted[i]));
    }
}
