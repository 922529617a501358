//! The slots that a recovery seizes, and how it gives them back.
ghost use Rattle.std.specs.Prelude.{◌≡◌, ℕ, ◌-◌, ◌^◌, ◌<◌, ◌≤◌, ◌+◌, ◌++◌, [], ◌∷◌, true, false, All, length, zip};
ghost use Rattle.arrayvec.specs.ArrayVec.{array_vec_len};
ghost use Rattle.raid_base.specs.declared.messages.How.TheVariants.{Seize};
ghost use Rattle.stripe_layout.specs.Placement.{parity_bay, bays_of, units};
ghost use Rattle.attempts.specs.Taking.{claim, claims, confirm};
ghost use Rattle.attempts.specs.Releases.{parity_granted};
ghost use Rattle.attempts.specs.Recovery.{whole_part, is_seized, unseized, unseized_data, unseized_parity, granted_data, give_back};

use arrayvec::ArrayVec;
use attempts::Rescue;
use attempts::errands::{claim, claims, confirm, push_releases};
use attempts::holds::bays_of;
use attempts::queue::{Queue, Releases};
use attempts::rows::Row;
use attempts::units::{Bays, Units, granted_of};
use attempts::whole_rows::{all_units, unit_bays};
use raid_base::{Grant, How, RowPart};
use stripe_layout::parity_bay;

/// All units of the row.
pub fn whole_part(job: Rescue) -> RowPart
    requires { 3 ≤ job.n × (job.n ≤ 16) }
    ensures { result ≡ whole_part job }
{
    RowPart {
        row: job.row,
        mask: (1 << (job.n - 1)) - 1,
        at: 0,
        count: job.n - 1,
    }
}

/// The claim of the parity.
pub fn parity_claim(job: Rescue) -> Queue
    requires { 3 ≤ job.n × (job.n ≤ 16) }
    ensures { result ≡ claim job.id job.row Seize 0 true (parity_bay job.n job.row) ∷ [] }
{
    let bay = parity_bay(job.n, job.row);
    Queue::one(claim(job.id, job.row, How::Seize, 0, true, bay))
}

/// The claims of the units.
pub fn unit_claims(job: Rescue) -> Queue
    requires { 3 ≤ job.n × (job.n ≤ 16) }
    ensures value { result ≡ claims job.id job.row Seize true (bays_of job.n job.row (units job.n)) }
    ensures len { length result ≡ job.n - 1 }
{
    let bays = unit_bays(job.n, job.row);
    claims(job.id, job.row, How::Seize, true, bays)
}

/// The confirm of the parity's note.
pub fn confirm_queue(job: Rescue) -> Queue
    requires { 3 ≤ job.n × (job.n ≤ 16) }
    ensures { result ≡ confirm job.id job.row false (parity_bay job.n job.row) ∷ [] }
{
    let bay = parity_bay(job.n, job.row);
    Queue::one(confirm(job.id, job.row, false, bay))
}

/// Adds a unit that was granted without seizing a note.
fn push_unseized(units: &mut Units, unit: u8, grant: Option<Grant>)
    requires { array_vec_len units.old < 16 }
    ensures items { units.new.items ≡ units.old.items ++ unseized ((unit, grant) ∷ []) }
    ensures few { array_vec_len units.new ≤ array_vec_len units.old + 1 }
{
    match grant {
        Some(grant) => {
            if grant.seized.is_none() {
                units.push(unit);
            }
        }
        None => {}
    }
}

/// Those of these units that were granted without seizing a note.
#[tactic(auto, using(crate::proofs::SlotLemmas::slots))]
fn unseized(units: &[u8], grants: &[Option<Grant>]) -> Units
    requires { length units.now ≤ 15 }
    ensures value { result.items ≡ unseized (zip units.now grants.now) }
    ensures within { (m : ℕ) → All (λ unit. unit < m) units.now → All (λ unit. unit < m) result.items }
    ensures few { array_vec_len result ≤ 15 }
{
    let mut kept = ArrayVec::new();
    for i in 0..units.len().min(grants.len()) {
        push_unseized(&mut kept, units[i], grants[i]);
    }
    kept
}

/// The bays of the data that was granted without seizing a note.
fn unseized_data(job: Rescue, row: &Row) -> Bays
    requires { 3 ≤ job.n × (job.n ≤ 16) }
    ensures value { result.items ≡ unseized_data job row.now }
    ensures few { array_vec_len result ≤ 15 }
{
    let all = all_units(job.n);
    let units = unseized(all.as_slice(), row.wanted());
    bays_of(job.n, job.row, units.as_slice())
}

/// Adds the bay of a parity that was granted without seizing a note.
fn push_unseized_parity(bays: &mut Bays, job: Rescue, parity: Option<Grant>)
    requires bays { 3 ≤ job.n × (job.n ≤ 16) }
    requires room { array_vec_len bays.old < 32 }
    ensures items { bays.new.items ≡ bays.old.items ++ unseized_parity job parity }
    ensures few { array_vec_len bays.new ≤ array_vec_len bays.old + 1 }
{
    match parity {
        Some(grant) => {
            if grant.seized.is_none() {
                bays.push(parity_bay(job.n, job.row));
            }
        }
        None => {}
    }
}

/// Adds the bay of a parity that was granted.
fn push_granted_parity(bays: &mut Bays, job: Rescue, parity: Option<Grant>)
    requires bays { 3 ≤ job.n × (job.n ≤ 16) }
    requires room { array_vec_len bays.old < 32 }
    ensures items { bays.new.items ≡ bays.old.items ++ parity_granted job.n job.row parity }
    ensures few { array_vec_len bays.new ≤ array_vec_len bays.old + 1 }
{
    match parity {
        Some(_) => bays.push(parity_bay(job.n, job.row)),
        None => {}
    }
}

/// The bays of the data that was granted.
fn granted_data(job: Rescue, row: &Row) -> Bays
    requires { 3 ≤ job.n × (job.n ≤ 16) }
    ensures value { result.items ≡ granted_data job row.now }
    ensures few { array_vec_len result ≤ 15 }
{
    let all = all_units(job.n);
    let units = granted_of(all.as_slice(), row.wanted());
    bays_of(job.n, job.row, units.as_slice())
}

/// The releases of the notes on these bays.
fn give_back(job: Rescue, bays: &Bays) -> Queue
    requires { array_vec_len bays.now ≤ 32 }
    ensures { result ≡ give_back job bays.now.items }
{
    let mut releases = Releases::new(job.id, None);
    push_releases(&mut releases, job.row, bays.as_slice());
    Queue::releases(releases)
}

/// The releases of a recovery that is refused: it keeps what it seized.
pub fn refused_queue(job: Rescue, row: &Row) -> Queue
    requires { 3 ≤ job.n × (job.n ≤ 16) }
    ensures { result ≡ give_back job (unseized_data job row.now ++ unseized_parity job row.now.parity) }
{
    let mut bays = unseized_data(job, row);
    push_unseized_parity(&mut bays, job, row.parity());
    give_back(job, &bays)
}

/// The releases of a recovery whose put is refused: it keeps what it seized, and the parity.
pub fn data_queue(job: Rescue, row: &Row) -> Queue
    requires { 3 ≤ job.n × (job.n ≤ 16) }
    ensures { result ≡ give_back job (unseized_data job row.now) }
{
    let bays = unseized_data(job, row);
    give_back(job, &bays)
}

/// The releases once the put is done.
pub fn closing_queue(job: Rescue, row: &Row) -> Queue
    requires { 3 ≤ job.n × (job.n ≤ 16) }
    ensures { result ≡ give_back job (granted_data job row.now) }
{
    let bays = granted_data(job, row);
    give_back(job, &bays)
}

/// The releases where nothing is put.
pub fn leaving_queue(job: Rescue, row: &Row) -> Queue
    requires { 3 ≤ job.n × (job.n ≤ 16) }
    ensures { result ≡ give_back job (granted_data job row.now ++ parity_granted job.n job.row row.now.parity) }
{
    let mut bays = granted_data(job, row);
    push_granted_parity(&mut bays, job, row.parity());
    give_back(job, &bays)
}
