//! The blocks that a write puts.
ghost use Rattle.std.specs.Prelude.{◌≡◌, ◌+◌, ◌*◌, ◌<◌, ◌≤◌, length, take, drop, map, slice_index_or, unwrap_or, All};
ghost use Rattle.arrayvec.specs.ArrayVec.{array_vec_len};
ghost use Rattle.raid_base.specs.Cells.{zeros, plain_cell};
ghost use Rattle.stripe_layout.specs.Placement.{bay_of, unit_at, units_in};
ghost use Rattle.virtual_objects.specs.Objects.{rank};
ghost use Rattle.attempts.specs.Accesses.{access_of};
ghost use Rattle.attempts.specs.Puts.{block_at, data_puts};

use attempts::assignment::Assignment;
use attempts::holds::wanted_granted;
use attempts::queue::{CellPuts, Queue};
use attempts::rows::Row;
use attempts::units::units_in;
use raid_base::{BayNo, Cell, Number, RowNo, RowPart};
use stripe_layout::{bay_of, parity_bay};

/// A unit's place among some units, and their number where it is none of them.
pub fn rank(units: &[u8], unit: u8) -> usize
    ensures value { result ≡ rank unit units.now }
    ensures within { result ≤ length units.now }
{
    for i in 0..units.len() {
        if units[i] == unit {
            return i;
        }
    }
    units.len()
}

/// The place of a unit's block among the blocks of the job.
pub fn block_no(n: u8, part: RowPart, unit: u8) -> usize
    requires { 3 ≤ n × (n ≤ 16) }
    ensures value { result ≡ part.at + rank unit (units_in n part.mask) }
    ensures within { result ≤ part.at + length (units_in n part.mask) }
{
    let units = units_in(n, part.mask);
    part.at as usize + rank(units.as_slice(), unit)
}

/// A unit's block.
pub fn block_at(job: &Assignment, blocks: &[[u8; 64]], part: RowPart, unit: u8) -> [u8; 64]
    ensures { result ≡ block_at (access_of job.now blocks.now) part unit }
{
    let place = block_no(job.n, part, unit);
    if place < blocks.len() {
        blocks[place]
    } else {
        [0; 64]
    }
}

/// The blocks of a part.
pub fn new_blocks(blocks: &[[u8; 64]], part: RowPart) -> &[[u8; 64]]
    requires { part.at + part.count ≤ length blocks.now }
    ensures { result.now ≡ take part.count (drop part.at blocks.now) }
{
    let at = part.at as usize;
    &blocks[at..at + part.count as usize]
}

/// The cell that a unit is to have.
fn new_cell(job: &Assignment, blocks: &[[u8; 64]], part: RowPart, unit: u8) -> Cell
    ensures { result ≡ plain_cell (block_at (access_of job.now blocks.now) part unit) }
{
    Cell {
        bytes: block_at(job, blocks, part, unit),
        lost: 0,
    }
}

/// The puts of the wanted units of a row that are there.
pub fn data_puts(job: &Assignment, blocks: &[[u8; 64]], number: Number, row: &Row) -> Queue
    ensures value { result ≡ data_puts (access_of job.now blocks.now) number row.now }
    ensures few { length result ≤ 15 }
{
    let part = row.part();
    let units = wanted_granted(job.n, row);
    let mut puts = CellPuts::new(job.id, part.row, number);
    for unit in units.as_slice() {
        let cell = new_cell(job, blocks, part, *unit);
        puts.push(cell, bay_of(job.n, part.row, *unit));
    }
    Queue::puts(puts)
}

/// The unit on a bay, and 0 where the parity is there.
pub fn unit_on(n: u8, row: RowNo, bay: BayNo) -> u8
    requires { 3 ≤ n × (n ≤ 16) }
    ensures { result ≡ unwrap_or (unit_at n row bay) 0 }
{
    let parity = parity_bay(n, row);
    if bay.0 == parity.0 {
        return 0;
    }
    let place = u16::from(bay.0) + u16::from(n) - u16::from(parity.0) - 1;
    (place % u16::from(n)) as u8
}
