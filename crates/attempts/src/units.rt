//! Units of a row, and the bays that they are on.
ghost use Rattle.std.specs.Prelude.{◌≡◌, ℕ, ◌-◌, All, [], ◌∷◌, ◌||◌, if◌then◌else◌, ◌++◌, ◌+◌, ◌<◌, ◌≤◌, length, zip};
ghost use Rattle.arrayvec.specs.ArrayVec.{array_vec_len};
ghost use Rattle.stripe_layout.specs.Placement.{units_in, units_out};
ghost use Rattle.attempts.specs.Releases.{granted_of, is_among, ascending};

use arrayvec::ArrayVec;
use raid_base::{BayNo, Grant};
use raid_xor::has_unit;

/// Units, ascending.
pub type Units = ArrayVec<u8, 16>;

/// Room for each slot of a row twice.
pub type Bays = ArrayVec<BayNo, 32>;

/// Adds a unit where the test passed.
fn push_if(units: &mut Units, unit: u8, passed: bool)
    requires { length units.old.items < 16 }
    ensures items { units.new.items ≡ units.old.items ++ (if passed then unit ∷ [] else []) }
    ensures few { length units.new.items ≤ length units.old.items + 1 }
{
    if passed {
        units.push(unit);
    }
}

/// The units that a mask has.
#[tactic(auto, using(crate::proofs::UnitLemmas::units))]
pub fn units_in(n: u8, mask: u16) -> Units
    requires { 1 ≤ n × (n ≤ 16) }
    ensures value { result.items ≡ units_in n mask }
    ensures within { All (λ unit. unit < n - 1) result.items }
    ensures few { array_vec_len result ≤ 15 }
{
    let mut units = ArrayVec::new();
    for unit in 0..n - 1 {
        push_if(&mut units, unit, has_unit(mask, unit));
    }
    units
}

/// The units that it has not.
#[tactic(auto, using(crate::proofs::UnitLemmas::units))]
pub fn units_out(n: u8, mask: u16) -> Units
    requires { 1 ≤ n × (n ≤ 16) }
    ensures value { result.items ≡ units_out n mask }
    ensures within { All (λ unit. unit < n - 1) result.items }
    ensures few { array_vec_len result ≤ 15 }
{
    let mut units = ArrayVec::new();
    for unit in 0..n - 1 {
        push_if(&mut units, unit, !has_unit(mask, unit));
    }
    units
}

/// Those of these units that were granted.
#[tactic(auto, using(crate::proofs::UnitLemmas::granted))]
pub fn granted_of(units: &[u8], grants: &[Option<Grant>]) -> Units
    requires { length units.now ≤ 15 }
    ensures value { result.items ≡ granted_of (zip units.now grants.now) }
    ensures within { (m : ℕ) → All (λ unit. unit < m) units.now → All (λ unit. unit < m) result.items }
    ensures few { array_vec_len result ≤ 15 }
{
    let mut granted = ArrayVec::new();
    for i in 0..units.len().min(grants.len()) {
        push_if(&mut granted, units[i], grants[i].is_some());
    }
    granted
}

pub fn is_among(units: &[u8], unit: u8) -> bool
    ensures { result ≡ is_among units.now unit }
{
    units.iter().any(|u| *u == unit)
}

fn is_in_either(first: &[u8], second: &[u8], unit: u8) -> bool
    ensures { result ≡ (is_among first.now unit || is_among second.now unit) }
{
    is_among(first, unit) || is_among(second, unit)
}

/// The units of both lists, ascending.
#[tactic(auto, using(crate::proofs::UnitLemmas::units))]
pub fn ascending(n: u8, first: &[u8], second: &[u8]) -> Units
    requires { 1 ≤ n × (n ≤ 16) }
    ensures value { result.items ≡ ascending n first.now second.now }
    ensures within { All (λ unit. unit < n - 1) result.items }
    ensures few { array_vec_len result ≤ 15 }
{
    let mut units = ArrayVec::new();
    for unit in 0..n - 1 {
        push_if(&mut units, unit, is_in_either(first, second, unit));
    }
    units
}
