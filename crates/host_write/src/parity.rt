//! The new parity of a row.
ghost use Rattle.std.specs.Prelude.{◌≡◌, ℕ, List, [], ◌∷◌, ◌++◌, ◌+◌, ◌-◌, ◌<◌, ◌≤◌, length, take, map, All, fold};
ghost use Rattle.arrayvec.specs.ArrayVec.{array_vec_len};
ghost use Rattle.raid_base.specs.Cells.{plain_cell};
ghost use Rattle.stripe_layout.specs.Placement.{parity_bay, units_in};
ghost use Rattle.raid_xor.specs.Parities.{parity_of};
ghost use Rattle.row_plans.specs.Plans.{choose};
ghost use Rattle.attempts.specs.Accesses.{access_of};
ghost use Rattle.attempts.specs.Reading.{cells_in, parity_in};
ghost use Rattle.attempts.specs.Puts.{folded, goes_small, is_small_plan, new_parity, parity_put};
ghost use Rattle.host_write.specs.Rows.{changed_parity};

use crate::blocks::new_blocks;
use arrayvec::ArrayVec;
use attempts::assignment::Assignment;
use attempts::contents::{Cells, cell_in, parity_in, push_cells};
use attempts::errands;
use attempts::rows::{Row, lacks};
use attempts::units::units_in;
use raid_base::{Cell, Errand, Grant, Number, Plan, RowPart};
use row_plans::{choose, fold_small, fold_whole};
use stripe_layout::parity_bay;

/// Puts the change of one unit into the parity, where the unit was granted.
fn fold_change(acc: &mut Cell, unit: u8, grant: Option<Grant>, block: &[u8; 64])
    requires { unit < 15 }
    ensures { acc.new ≡ folded acc.old (unit ∷ []) (grant ∷ []) (block.now ∷ []) }
{
    match grant {
        Some(grant) => fold_small(acc, &cell_in(grant), block, unit),
        None => {}
    }
}

/// The parity with the changes of these units.
#[tactic(auto, using(crate::proofs::ParityLemmas::folds))]
fn fold_changes(parity: Cell, units: &[u8], grants: &[Option<Grant>], blocks: &[[u8; 64]]) -> Cell
    requires { All (λ unit. unit < 15) units.now }
    ensures { result ≡ folded parity units.now grants.now blocks.now }
{
    let mut acc = parity;
    for i in 0..units.len().min(grants.len()).min(blocks.len()) {
        fold_change(&mut acc, units[i], grants[i], &blocks[i]);
    }
    acc
}

/// The parity of these data cells.
fn parity_of(cells: &[Cell]) -> Cell
    ensures { result ≡ parity_of cells.now }
{
    let mut acc = Cell {
        bytes: [0; 64],
        lost: 0,
    };
    for cell in cells {
        fold_whole(&mut acc, cell);
    }
    acc
}

/// Adds cells of these blocks.
fn push_plain(cells: &mut Cells, blocks: &[[u8; 64]])
    requires { array_vec_len cells.old + length blocks.now ≤ 32 }
    ensures items { cells.new.items ≡ cells.old.items ++ map plain_cell blocks.now }
    ensures len { array_vec_len cells.new ≡ array_vec_len cells.old + length blocks.now }
{
    for block in blocks {
        cells.push(Cell {
            bytes: *block,
            lost: 0,
        });
    }
}

/// The plan of a write of a part's units.
pub fn plan_of(job: &Assignment, part: RowPart) -> Plan
    requires some { 1 ≤ part.count }
    requires most { part.count ≤ job.now.n - 1 }
    ensures { result ≡ choose (job.now.n - 1) part.count }
{
    choose(job.n - 1, part.count)
}

/// Whether the plan reads the old cells.
pub fn is_small(plan: Plan) -> bool
    ensures { result ≡ is_small_plan plan }
{
    match plan {
        Plan::Small => true,
        Plan::Full => false,
        Plan::Reconstruct => false,
    }
}

/// Whether the new parity is made from the old one: where the plan is so and no wanted unit is missing, or where another is.
fn goes_small(plan: Plan, row: &Row) -> bool
    ensures { result ≡ goes_small plan row.now }
{
    (is_small(plan) && !lacks(row.wanted())) || lacks(row.others())
}

/// The old parity with the changes of the wanted units.
fn small_parity(job: &Assignment, new: &[[u8; 64]], row: &Row) -> Cell
    ensures { result ≡ changed_parity job.now.n row.now new.now }
{
    let units = units_in(job.n, row.part().mask);
    fold_changes(parity_in(row), units.as_slice(), row.wanted(), new)
}

/// The parity of the new cells and those shared.
fn whole_parity(new: &[[u8; 64]], row: &Row) -> Cell
    requires new { length new.now ≤ 16 }
    requires others { length row.now.others ≤ 16 }
    ensures { result ≡ parity_of (map plain_cell new.now ++ cells_in row.now.others) }
{
    let mut cells = ArrayVec::new();
    push_plain(&mut cells, new);
    push_cells(&mut cells, row.others());
    parity_of(cells.as_slice())
}

/// The new parity of a row, once its part is written.
pub fn new_parity(job: &Assignment, blocks: &[[u8; 64]], row: &Row) -> Cell
    requires some { 1 ≤ row.now.part.count }
    requires most { row.now.part.count ≤ job.now.n - 1 }
    requires within { row.now.part.at + row.now.part.count ≤ length blocks.now }
    requires others { length row.now.others ≤ 16 }
    ensures { result ≡ new_parity (access_of job.now blocks.now) row.now }
{
    let part = row.part();
    let new = new_blocks(blocks, part);
    if goes_small(plan_of(job, part), row) {
        small_parity(job, new, row)
    } else {
        whole_parity(new, row)
    }
}

/// The put of a row's parity.
pub fn parity_put(job: &Assignment, blocks: &[[u8; 64]], number: Number, row: &Row) -> Errand
    requires some { 1 ≤ row.now.part.count }
    requires most { row.now.part.count ≤ job.now.n - 1 }
    requires within { row.now.part.at + row.now.part.count ≤ length blocks.now }
    requires others { length row.now.others ≤ 16 }
    ensures { result ≡ parity_put (access_of job.now blocks.now) number row.now }
{
    let part = row.part();
    errands::put(
        job.id,
        part.row,
        number,
        new_parity(job, blocks, row),
        parity_bay(job.n, part.row),
    )
}
