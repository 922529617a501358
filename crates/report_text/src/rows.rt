//! What the rows of a finished array show.
ghost use Rattle.std.specs.Prelude.{◌≡◌, ◌<◌, ◌≤◌, ◌-◌, false, slice_index_or};
ghost use Rattle.degraded_plans.specs.Rows.{all_present, others_of, rebuilt, shown_missing};
ghost use Rattle.report_text.specs.Rows.{cell_in, unit_in, row_in, shown_in};

use crate::present::PresentCells;
use degraded_plans::missing_of;
use raid_base::{BayNo, Cell, RowNo, Shown, content_of};
use stripe_layout::{bay_of, parity_bay};

/// The cell of a row on a bay, of cells that stand row by row, `n` of each.
fn cell_in(n: u8, cells: &[Option<Cell>], row: RowNo, bay: BayNo) -> Option<Cell>
    ensures { result ≡ cell_in n cells.now row bay }
{
    let place = usize::from(row.0) * usize::from(n) + usize::from(bay.0);
    match cells.get(place) {
        Some(cell) => *cell,
        None => None,
    }
}

/// The cell of a unit of a row.
fn unit_in(n: u8, cells: &[Option<Cell>], row: RowNo, unit: u8) -> Option<Cell>
    requires least { 3 ≤ n }
    requires most { n ≤ 16 }
    requires unit_below { unit < n - 1 }
    ensures { result ≡ unit_in n cells.now row unit }
{
    cell_in(n, cells, row, bay_of(n, row, unit))
}

/// The cells of all units of a row but one, where all are present.
fn others_present(n: u8, cells: &[Option<Cell>], row: RowNo, unit: u8) -> Option<PresentCells>
    requires least { 3 ≤ n }
    requires most { n ≤ 16 }
    ensures { result ≡ all_present (others_of unit (row_in n cells.now row).units) }
{
    let mut others = PresentCells::new();
    for other in 0..n - 1 {
        if other != unit {
            others.push(unit_in(n, cells, row, other)?);
        }
    }
    Some(others)
}

/// What the other cells of a row make of a missing unit.
fn rebuilt(n: u8, cells: &[Option<Cell>], row: RowNo, unit: u8) -> Shown
    requires least { 3 ≤ n }
    requires most { n ≤ 16 }
    requires unit_below { unit < n - 1 }
    ensures { let cells = row_in n cells.now row in result ≡ rebuilt unit cells.parity (all_present (others_of unit cells.units)) }
{
    let Some(parity) = cell_in(n, cells, row, parity_bay(n, row)) else {
        return Shown::Hidden;
    };
    match others_present(n, cells, row, unit) {
        Some(others) => Shown::Seen(content_of(&missing_of(&parity, others.as_slice(), unit))),
        None => Shown::Hidden,
    }
}

/// Whether a row is open.
fn is_open(opened: &[bool], row: RowNo) -> bool
    ensures { result ≡ slice_index_or opened.now row.0 false }
{
    match opened.get(usize::from(row.0)) {
        Some(is_open) => *is_open,
        None => false,
    }
}

/// What is shown of a missing unit: what the others make of it, unless the row is open.
fn shown_missing(n: u8, cells: &[Option<Cell>], opened: &[bool], row: RowNo, unit: u8) -> Shown
    requires least { 3 ≤ n }
    requires most { n ≤ 16 }
    requires unit_below { unit < n - 1 }
    ensures { result ≡ shown_missing (slice_index_or opened.now row.0 false) (row_in n cells.now row) unit }
{
    if is_open(opened, row) {
        Shown::Hidden
    } else {
        rebuilt(n, cells, row, unit)
    }
}

/// What is shown of a unit of a row, by the cells that stand row by row, `n` of each, and the rows that are open.
pub fn shown_in(n: u8, cells: &[Option<Cell>], opened: &[bool], row: RowNo, unit: u8) -> Shown
    requires least { 3 ≤ n }
    requires most { n ≤ 16 }
    requires unit_below { unit < n - 1 }
    ensures { result ≡ shown_in n cells.now opened.now row unit }
{
    match unit_in(n, cells, row, unit) {
        Some(cell) => Shown::Seen(content_of(&cell)),
        None => shown_missing(n, cells, opened, row, unit),
    }
}
