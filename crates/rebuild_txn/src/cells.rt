//! What a rebuild makes of the cells that it was shown.
ghost use Rattle.std.specs.Prelude.{◌≡◌, ◌<◌, ◌≤◌, [], ◌∷◌, length};
ghost use Rattle.arrayvec.specs.ArrayVec.{array_vec_len};
ghost use Rattle.attempts.specs.Mending.{cell_at, is_shown, cells_of, mended_cell};
ghost use Rattle.attempts.specs.Puts.{put};

use crate::slots::holds_but;
use arrayvec::ArrayVec;
use attempts::contents::{Cells, cell_in};
use attempts::errands::put;
use attempts::queue::Queue;
use attempts::whole_rows::parity_of;
use attempts::{Hold, Repair};
use degraded_plans::missing_of;
use raid_base::{BayNo, Cell, Number};
use stripe_layout::{parity_bay, unit_at};

/// The cells of these slots.
fn cells_of(holds: &[Hold]) -> Cells
    requires { length holds.now ≤ 16 }
    ensures { result.items ≡ cells_of holds.now }
{
    let mut cells = ArrayVec::new();
    for hold in holds {
        cells.push(cell_in(hold.grant));
    }
    cells
}

/// The cell on a bay, zeros where none is held there.
fn cell_at(bay: BayNo, holds: &[Hold]) -> Cell
    ensures { result ≡ cell_at bay holds.now }
{
    for hold in holds {
        if hold.bay.0 == bay.0 {
            return cell_in(hold.grant);
        }
    }
    Cell {
        bytes: [0; 64],
        lost: 0,
    }
}

/// Whether the slot on a bay showed a cell.
pub fn is_shown(bay: BayNo, holds: &[Hold]) -> bool
    ensures { result ≡ is_shown bay holds.now }
{
    for hold in holds {
        if hold.bay.0 == bay.0 {
            return hold.grant.cell.is_some();
        }
    }
    false
}

/// The cell of the target: a unit from the parity and the other units, the parity from all units.
fn mended_cell(job: Repair, holds: &[Hold]) -> Cell
    requires bays { 3 ≤ job.n × (job.n ≤ 16) }
    requires target { job.target.0 < job.n }
    requires few { length holds.now ≤ 16 }
    ensures { result ≡ mended_cell job holds.now }
{
    let parity = parity_bay(job.n, job.row);
    let data = holds_but(parity, holds);
    match unit_at(job.n, job.row, job.target) {
        None => parity_of(cells_of(data.as_slice()).as_slice()),
        Some(unit) => {
            let others = holds_but(job.target, data.as_slice());
            let cells = cells_of(others.as_slice());
            missing_of(&cell_at(parity, holds), cells.as_slice(), unit)
        }
    }
}

/// The put of the target's cell.
pub fn put_queue(job: Repair, holds: &[Hold], number: Number) -> Queue
    requires bays { 3 ≤ job.n × (job.n ≤ 16) }
    requires target { job.target.0 < job.n }
    requires few { length holds.now ≤ 16 }
    ensures { result ≡ put job.id job.row number (mended_cell job holds.now) job.target ∷ [] }
{
    let cell = mended_cell(job, holds);
    Queue::one(put(job.id, job.row, number, cell, job.target))
}
