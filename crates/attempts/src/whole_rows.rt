//! A whole row: all its units and bays, the sum of its cells, and why a put on it refuses.
ghost use Rattle.std.specs.Prelude.{◌≡◌, ◌-◌, ◌<◌, ◌≤◌, ◌+◌, ◌++◌, All, length};
ghost use Rattle.arrayvec.specs.ArrayVec.{array_vec_len};
ghost use Rattle.stripe_layout.specs.Placement.{units, bays_of, row_bays, parity_first};
ghost use Rattle.raid_base.specs.Replies.{is_fault};
ghost use Rattle.raid_xor.specs.Parities.{parity_of};
ghost use Rattle.attempts.specs.Mending.{put_cause};

use crate::holds::bays_of;
use crate::units::{Bays, Units};
use arrayvec::ArrayVec;
use raid_base::{BayNo, Cause, Cell, Errand, Reply, RowNo};
use row_plans::fold_whole;
use stripe_layout::parity_bay;

/// All units of a row, ascending.
#[tactic(auto, using(crate::proofs::WholeLemmas::whole))]
pub fn all_units(n: u8) -> Units
    requires { 1 ≤ n × (n ≤ 16) }
    ensures value { result.items ≡ units n }
    ensures within { All (λ unit. unit < n - 1) result.items }
    ensures len { array_vec_len result ≡ n - 1 }
{
    let mut units = ArrayVec::new();
    for unit in 0..n - 1 {
        units.push(unit);
    }
    units
}

/// The bays of all units of a row.
pub fn unit_bays(n: u8, row: RowNo) -> Bays
    requires { 3 ≤ n × (n ≤ 16) }
    ensures value { result.items ≡ bays_of n row (units n) }
    ensures len { array_vec_len result ≡ n - 1 }
{
    let units = all_units(n);
    bays_of(n, row, units.as_slice())
}

/// All bays of a row, the data ascending and then the parity.
pub fn row_bays(n: u8, row: RowNo) -> Bays
    requires { 3 ≤ n × (n ≤ 16) }
    ensures value { result.items ≡ row_bays n row }
    ensures len { array_vec_len result ≡ n }
{
    let mut bays = unit_bays(n, row);
    bays.push(parity_bay(n, row));
    bays
}

/// All bays of a row, the parity first.
pub fn parity_first(n: u8, row: RowNo) -> Bays
    requires { 3 ≤ n × (n ≤ 16) }
    ensures value { result.items ≡ parity_first n row }
    ensures len { array_vec_len result ≡ n }
{
    let units = unit_bays(n, row);
    let mut bays = ArrayVec::new();
    bays.push(parity_bay(n, row));
    push_all(&mut bays, units.as_slice());
    bays
}

/// Adds these bays.
pub fn push_all(bays: &mut Bays, more: &[BayNo])
    requires { array_vec_len bays.old + length more.now ≤ 32 }
    ensures items { bays.new.items ≡ bays.old.items ++ more.now }
    ensures len { array_vec_len bays.new ≡ array_vec_len bays.old + length more.now }
{
    for bay in more {
        bays.push(*bay);
    }
}

/// The parity of these data cells.
pub fn parity_of(cells: &[Cell]) -> Cell
    ensures { result ≡ parity_of cells.now }
{
    let mut acc = Cell {
        bytes: [0; 64],
        lost: 0,
    };
    for cell in cells {
        fold_whole(&mut acc, cell);
    }
    acc
}

/// Whether a bay failed.
fn is_fault(reply: &Reply) -> bool
    ensures { result ≡ is_fault reply.now }
{
    matches!(*reply, Reply::Fault)
}

/// Why a put that wasn't done refuses the attempt.
pub fn put_cause(row: RowNo, errand: Errand, reply: &Reply) -> Cause
    ensures { result ≡ put_cause row errand reply.now }
{
    if is_fault(reply) {
        Cause::Fault { bay: errand.bay }
    } else {
        Cause::Seized { row }
    }
}
