//! What the replies to puts make of a write.
ghost use Rattle.std.specs.Prelude.{◌≡◌, ℕ, List, [], ◌∷◌, ◌++◌, ◌+◌, ◌-◌, ◌*◌, ◌<◌, ◌≤◌, Some, None, true, false, if◌then◌else◌, length, map, zip};
ghost use Rattle.arrayvec.specs.ArrayVec.{array_vec_len};
ghost use Rattle.raid_base.specs.Replies.{is_fault};
ghost use Rattle.stripe_layout.specs.Placement.{units_in};
ghost use Rattle.host_write.specs.Lives.{life_at};
ghost use Rattle.host_write.specs.Blocks.{TakesPut, data_taken, parity_taken};
ghost use Rattle.host_write.specs.Rows.{units_by_parity};
ghost use Rattle.host_write.specs.Troubles.{trouble_by};
ghost use Rattle.attempts.specs.Puts.{with_trouble, life_in, missing_units};

use crate::puts::Puts;
use arrayvec::ArrayVec;
use attempts::assignment::Assignment;
use attempts::rows::Row;
use attempts::units::units_in;
use raid_base::{BayNo, Grant, PutEnd, Reply, RowPart};

fn life_at(unit: u8, other: u8, grant: Option<Grant>) -> Option<u32>
    ensures { result ≡ life_at unit other grant }
{
    match grant {
        Some(grant) => {
            if other == unit {
                Some(grant.life)
            } else {
                None
            }
        }
        None => None,
    }
}

/// The life of the bay when a unit was granted, and 0 where it was not.
#[tactic(auto, using(crate::proofs::AnsweredLemmas::lives))]
fn life_in(unit: u8, units: &[u8], grants: &[Option<Grant>]) -> u32
    ensures { result ≡ life_in unit (zip units.now grants.now) }
{
    for i in 0..units.len().min(grants.len()) {
        if let Some(life) = life_at(unit, units[i], grants[i]) {
            return life;
        }
    }
    0
}

/// Takes the reply to the put of a unit: whether the row goes on.
///
/// Where the note was gone in a later life of its bay the unit is left to the parity.
pub fn data_answered(job: &Assignment, row: &Row, puts: &mut Puts, unit: u8, reply: &Reply) -> bool
    requires at { row.now.part.at + length (units_in job.now.n row.now.part.mask) < 128 }
    requires made { length puts.old.made < 400 }
    requires left { length puts.old.left < 16 }
    requires troubles { length puts.old.troubles < 128 }
    ensures value { TakesPut job.now (data_taken row.now unit reply.now puts.old) result puts.new }
    ensures same { result ≡ false → puts.new ≡ puts.old }
    ensures made { length puts.new.made ≤ length puts.old.made + 1 }
    ensures left { length puts.new.left ≤ length puts.old.left + 1 }
    ensures troubles { length puts.new.troubles ≤ length puts.old.troubles + 1 }
{
    let part = row.part();
    match reply.put_end() {
        PutEnd::Made => {
            puts.make(job.n, part, &[unit]);
            true
        }
        PutEnd::Failed => false,
        PutEnd::Unnoted { life } => {
            let units = units_in(job.n, part.mask);
            if life == life_in(unit, units.as_slice(), row.wanted()) {
                false
            } else {
                puts.leave(part, unit);
                true
            }
        }
    }
}

/// Adds those of these units that are missing.
#[tactic(auto, using(crate::proofs::AnsweredLemmas::missing))]
fn missing_units(units: &[u8], grants: &[Option<Grant>]) -> ArrayVec<u8, 32>
    requires { length units.now ≤ 15 }
    ensures value { result.items ≡ missing_units (zip units.now grants.now) }
    ensures few { array_vec_len result ≤ 15 }
{
    let mut missing = ArrayVec::new();
    for i in 0..units.len().min(grants.len()) {
        push_missing(&mut missing, units[i], grants[i]);
    }
    missing
}

fn push_missing(missing: &mut ArrayVec<u8, 32>, unit: u8, grant: Option<Grant>)
    requires { array_vec_len missing.old < 32 }
    ensures items { missing.new.items ≡ missing.old.items ++ missing_units ((unit, grant) ∷ []) }
    ensures len { array_vec_len missing.new ≤ array_vec_len missing.old + 1 }
{
    match grant {
        Some(_) => {}
        None => missing.push(unit),
    }
}

/// The units that the parity makes: those that are missing, and those left to it.
fn parity_units(job: &Assignment, row: &Row, left: &[u8]) -> ArrayVec<u8, 32>
    requires { length left.now ≤ 15 }
    ensures value { result.items ≡ units_by_parity job.now.n row.now left.now }
    ensures few { array_vec_len result ≤ 30 }
{
    let wanted = units_in(job.n, row.part().mask);
    let mut units = missing_units(wanted.as_slice(), row.wanted());
    for unit in left {
        units.push(*unit);
    }
    units
}

/// Takes the reply to the put of a parity: whether it was made.
pub fn parity_answered(job: &Assignment, row: &Row, puts: &mut Puts, reply: &Reply) -> bool
    requires at { row.now.part.at + length (units_in job.now.n row.now.part.mask) < 128 }
    requires made { length puts.old.made + 30 ≤ 400 }
    requires left { length puts.old.left ≤ 15 }
    ensures value { TakesPut job.now (parity_taken row.now reply.now puts.old) result puts.new }
    ensures same { result ≡ false → puts.new ≡ puts.old }
    ensures made { length puts.new.made ≤ length puts.old.made + 30 }
    ensures troubles { length puts.new.troubles ≡ length puts.old.troubles }
{
    match reply.put_end() {
        PutEnd::Made => {
            let units = parity_units(job, row, puts.left());
            puts.make(job.n, row.part(), units.as_slice());
            true
        }
        PutEnd::Failed => false,
        PutEnd::Unnoted { .. } => false,
    }
}

fn is_fault(reply: &Reply) -> bool
    ensures { result ≡ is_fault reply.now }
{
    matches!(*reply, Reply::Fault)
}

/// Notes a put that stops its row.
pub fn add_trouble(puts: &mut Puts, part: RowPart, bay: BayNo, reply: &Reply)
    requires { length puts.old.troubles < 128 }
    ensures { puts.new ≡ with_trouble puts.old (trouble_by reply.now bay part) }
{
    if is_fault(reply) {
        puts.trouble(Some(bay), part);
    } else {
        puts.trouble(None, part);
    }
}
