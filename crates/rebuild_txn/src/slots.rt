//! The slots that a rebuild holds, and how it claims them and gives them back.
ghost use Rattle.std.specs.Prelude.{◌≡◌, ◌<◌, ◌≤◌, ◌+◌, ◌++◌, [], ◌∷◌, true, false, if◌then◌else◌, length, filter};
ghost use Rattle.arrayvec.specs.ArrayVec.{array_vec_len};
ghost use Rattle.raid_base.specs.Replies.{grant_of};
ghost use Rattle.raid_base.specs.declared.messages.How.TheVariants.{Mend};
ghost use Rattle.stripe_layout.specs.Placement.{parity_bay, parity_first, row_bays};
ghost use Rattle.attempts.specs.Taking.{claims, confirm};
ghost use Rattle.attempts.specs.Mending.{is_bare, hold_of, with_hold, is_held_at, holds_but, without_target, mend_releases, mend_why};

use arrayvec::ArrayVec;
use attempts::errands::{claims, confirm, push_releases};
use attempts::queue::{Queue, Releases};
use attempts::replies::refusal;
use attempts::units::Bays;
use attempts::whole_rows::{parity_first, row_bays};
use attempts::{Hold, Repair};
use raid_base::{BayNo, Cause, Errand, Grant, How, Reply};
use stripe_layout::parity_bay;

/// Slots of one row.
pub type Holds = ArrayVec<Hold, 16>;

/// The confirm of the parity's note.
pub fn confirm_queue(job: Repair) -> Queue
    requires { 3 ≤ job.n × (job.n ≤ 16) }
    ensures { result ≡ confirm job.id job.row false (parity_bay job.n job.row) ∷ [] }
{
    let bay = parity_bay(job.n, job.row);
    Queue::one(confirm(job.id, job.row, false, bay))
}

/// The claims of all slots of the row, the parity first.
pub fn claim_queue(job: Repair) -> Queue
    requires { 3 ≤ job.n × (job.n ≤ 16) }
    ensures value { result ≡ claims job.id job.row Mend true (parity_first job.n job.row) }
    ensures len { length result ≡ job.n }
{
    let bays = parity_first(job.n, job.row);
    claims(job.id, job.row, How::Mend, true, bays)
}

/// Whether a slot has lost its cell although it isn't the target.
fn is_bare(job: Repair, bay: BayNo, grant: &Grant) -> bool
    ensures { result ≡ is_bare job bay grant.now }
{
    grant.cell.is_none() && bay.0 != job.target.0
}

/// The slot that a reply to a claim gives, unless it is bare.
pub fn hold_of(job: Repair, bay: BayNo, reply: &Reply) -> Option<Hold>
    ensures { result ≡ hold_of job bay reply.now }
{
    match reply.grant() {
        Some(grant) => {
            if is_bare(job, bay, &grant) {
                None
            } else {
                Some(Hold { bay, grant })
            }
        }
        None => None,
    }
}

/// Why a reply refuses the rebuild, by itself or else so.
pub fn mend_why(errand: Errand, reply: &Reply, other: Cause) -> Cause
    ensures { result ≡ mend_why errand reply.now other }
{
    match refusal(None, None, errand.bay, reply) {
        Some(cause) => cause,
        None => other,
    }
}

/// Holds a slot too, where it was granted.
pub fn keep_grant(holds: &mut Holds, bay: BayNo, grant: Option<Grant>)
    requires { array_vec_len holds.old < 16 }
    ensures { holds.new.items ≡ with_hold holds.old.items bay grant }
{
    match grant {
        Some(grant) => holds.push(Hold { bay, grant }),
        None => {}
    }
}

/// Whether the slot on a bay is held.
fn is_held_at(holds: &[Hold], bay: BayNo) -> bool
    ensures { result ≡ is_held_at holds.now bay }
{
    for hold in holds {
        if hold.bay.0 == bay.0 {
            return true;
        }
    }
    false
}

/// Adds a bay where a slot there is held.
fn push_held(bays: &mut Bays, holds: &[Hold], bay: BayNo)
    requires { array_vec_len bays.old < 32 }
    ensures items { bays.new.items ≡ bays.old.items ++ (if is_held_at holds.now bay then bay ∷ [] else []) }
    ensures len { array_vec_len bays.new ≤ array_vec_len bays.old + 1 }
{
    if is_held_at(holds, bay) {
        bays.push(bay);
    }
}

/// The bays of what is held, the data ascending and then the parity.
fn held_bays(job: Repair, holds: &[Hold]) -> Bays
    requires { 3 ≤ job.n × (job.n ≤ 16) }
    ensures value { result.items ≡ filter (is_held_at holds.now) (row_bays job.n job.row) }
    ensures few { array_vec_len result ≤ 16 }
{
    let all = row_bays(job.n, job.row);
    let mut bays = ArrayVec::new();
    for bay in all.as_slice() {
        push_held(&mut bays, holds, *bay);
    }
    bays
}

/// The releases of what is held.
pub fn release_queue(job: Repair, holds: &[Hold]) -> Queue
    requires { 3 ≤ job.n × (job.n ≤ 16) }
    ensures { result ≡ mend_releases job holds.now }
{
    let bays = held_bays(job, holds);
    let mut releases = Releases::new(job.id, None);
    push_releases(&mut releases, job.row, bays.as_slice());
    Queue::releases(releases)
}

/// Adds a slot that isn't on this bay.
fn push_but(holds: &mut Holds, bay: BayNo, hold: Hold)
    requires { array_vec_len holds.old < 16 }
    ensures items { holds.new.items ≡ holds.old.items ++ holds_but bay (hold ∷ []) }
    ensures len { array_vec_len holds.new ≤ array_vec_len holds.old + 1 }
{
    if hold.bay.0 != bay.0 {
        holds.push(hold);
    }
}

/// The slots that aren't on this bay.
pub fn holds_but(bay: BayNo, holds: &[Hold]) -> Holds
    requires { length holds.now ≤ 16 }
    ensures value { result.items ≡ holds_but bay holds.now }
    ensures few { array_vec_len result ≤ length holds.now }
{
    let mut others = ArrayVec::new();
    for hold in holds {
        push_but(&mut others, bay, *hold);
    }
    others
}

/// The releases of what is held once the put is done.
pub fn last_queue(job: Repair, holds: &[Hold]) -> Queue
    requires bays { 3 ≤ job.n × (job.n ≤ 16) }
    requires few { length holds.now ≤ 16 }
    ensures { result ≡ mend_releases job (without_target job holds.now) }
{
    let others = holds_but(job.target, holds);
    release_queue(job, others.as_slice())
}
