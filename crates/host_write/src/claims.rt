//! What a write does next, while it claims its rows.
ghost use Rattle.std.specs.Prelude.{◌≡◌, ℕ, List, [], ◌∷◌, ◌++◌, ◌+◌, ◌-◌, ◌<◌, ◌≤◌, true, length, drop};
ghost use Rattle.arrayvec.specs.ArrayVec.{array_vec_len};
ghost use Rattle.stripe_layout.specs.Placement.{units_in};
ghost use Rattle.attempts.specs.Parts.{blocks_in, is_part};
ghost use Rattle.attempts.specs.Taking.{lacks};
ghost use Rattle.attempts.specs.Puts.{Puts as PutsView};
ghost use Rattle.host_write.specs.Stages.{is_settled, are_rows, is_row};
ghost use Rattle.host_write.specs.declared.stages.WriteStage.TheVariants.{ClaimSmall};
ghost use Rattle.host_write.specs.Errands.{parity_claim_of, wanted_claims_of, other_shares_of, row_confirm_of};
ghost use Rattle.host_write.specs.Aheads.{KeepsStage, AlwaysKeepsStage, LeadsTo, LeadsUnconfirmed};
ghost use Rattle.host_write.specs.Aheads.{claim_refusal, rest_after_parity, rest_from_wanted};
ghost use Rattle.host_write.specs.Aheads.{rest_from_others, rest_after_small, rest_after_row};

use crate::parity::{is_small, plan_of};
use crate::stages::{Ahead, WriteStage};
use attempts::assignment::Assignment;
use attempts::errands::{claim, claims, confirm, shares};
use attempts::holds::{bays_of, push_write_row, write_releases};
use attempts::queue::Queue;
use attempts::rows::{Row, Taken, lacks};
use attempts::units::{units_in, units_out};
use raid_base::{Cause, How, Plan, RowPart};
use stripe_layout::parity_bay;

/// The claim of a row's parity.
pub fn parity_claim(job: &Assignment, part: RowPart) -> Queue
    requires some { 1 ≤ part.count }
    requires most { part.count ≤ job.now.n - 1 }
    ensures { result ≡ parity_claim_of job.now part }
{
    let want = is_small(plan_of(job, part));
    let bay = parity_bay(job.n, part.row);
    Queue::one(claim(job.id, part.row, How::Plain, part.mask, want, bay))
}

/// The claims of a part's units.
fn wanted_claims(job: &Assignment, want: bool, part: RowPart) -> Queue
    ensures value { result ≡ wanted_claims_of job.now want part }
    ensures len { length result ≡ length (units_in job.now.n part.mask) }
    ensures few { length result ≤ 15 }
{
    let units = units_in(job.n, part.mask);
    let bays = bays_of(job.n, part.row, units.as_slice());
    claims(job.id, part.row, How::Plain, want, bays)
}

/// The shares of the other units of its row.
fn other_shares(job: &Assignment, part: RowPart) -> Queue
    ensures value { result ≡ other_shares_of job.now part }
    ensures few { length result ≤ 15 }
{
    let units = units_out(job.n, part.mask);
    let bays = bays_of(job.n, part.row, units.as_slice());
    shares(job.id, part.row, bays)
}

/// What is given back of all that is held, where the write is refused while it claims.
pub fn refused(job: &Assignment, taken: &Taken, cause: Cause) -> Ahead
    requires { length taken.now.before < 8 }
    ensures left { LeadsTo job.now taken.now result (claim_refusal taken.now cause) }
    ensures kept { AlwaysKeepsStage job.now taken.now result }
    ensures awake { is_settled result.stage ≡ true }
{
    let mut releases = write_releases(job.mode, job.n, job.id, taken.before());
    push_write_row(&mut releases, job.mode, job.n, taken.row());
    Ahead {
        stage: WriteStage::Release { cause },
        queue: Queue::releases(releases),
    }
}

/// The claims of the wanted units, which end the row in hand.
pub fn claim_wanted(job: &Assignment, taken: &Taken, want: bool) -> Ahead
    requires row { length taken.now.before < array_vec_len job.now.parts }
    requires rows { are_rows job.now.n (blocks_in job.now.parts.items) taken.now.before ≡ true }
    requires part { is_part job.now.n (blocks_in job.now.parts.items) taken.now.row.part ≡ true }
    requires wanted { length taken.now.row.wanted ≡ 0 }
    requires others { length taken.now.row.others ≤ 16 }
    ensures left { LeadsTo job.now taken.now result (rest_from_wanted taken.now want) }
    ensures kept { AlwaysKeepsStage job.now taken.now result }
    ensures awake { is_settled result.stage ≡ true }
{
    Ahead {
        stage: WriteStage::ClaimWanted,
        queue: wanted_claims(job, want, taken.row().part()),
    }
}

/// The claims of the wanted units with their cells.
fn claim_small(job: &Assignment, taken: &Taken) -> Ahead
    requires row { length taken.now.before < array_vec_len job.now.parts }
    requires rows { are_rows job.now.n (blocks_in job.now.parts.items) taken.now.before ≡ true }
    requires part { is_part job.now.n (blocks_in job.now.parts.items) taken.now.row.part ≡ true }
    requires wanted { length taken.now.row.wanted ≡ 0 }
    requires others { length taken.now.row.others ≡ 0 }
    ensures stage { result.stage ≡ ClaimSmall }
    ensures queue { result.queue ≡ wanted_claims_of job.now true taken.now.row.part }
    ensures kept { AlwaysKeepsStage job.now taken.now result }
{
    Ahead {
        stage: WriteStage::ClaimSmall,
        queue: wanted_claims(job, true, taken.row().part()),
    }
}

/// The shares of the other units up to the first that is missing, and then the claims.
#[tactic(auto, using(crate::proofs::ClaimLemmas::none_asked))]
fn share_until(job: &Assignment, taken: &Taken) -> Ahead
    requires row { length taken.now.before < array_vec_len job.now.parts }
    requires rows { are_rows job.now.n (blocks_in job.now.parts.items) taken.now.before ≡ true }
    requires part { is_part job.now.n (blocks_in job.now.parts.items) taken.now.row.part ≡ true }
    requires wanted { length taken.now.row.wanted ≡ 0 }
    requires others { length taken.now.row.others ≡ 0 }
    ensures left { LeadsTo job.now taken.now result (rest_from_others taken.now) }
    ensures kept { AlwaysKeepsStage job.now taken.now result }
    ensures awake { is_settled result.stage ≡ true }
{
    let queue = other_shares(job, taken.row().part());
    if queue.len() > 0 {
        Ahead {
            stage: WriteStage::ShareUntil,
            queue,
        }
    } else {
        claim_wanted(job, taken, false)
    }
}

/// What follows the claim of the parity.
#[tactic(auto, using(crate::proofs::ClaimLemmas::parts))]
pub fn after_parity(job: &Assignment, taken: &Taken) -> Ahead
    requires row { length taken.now.before < array_vec_len job.now.parts }
    requires rows { are_rows job.now.n (blocks_in job.now.parts.items) taken.now.before ≡ true }
    requires part { is_part job.now.n (blocks_in job.now.parts.items) taken.now.row.part ≡ true }
    requires wanted { length taken.now.row.wanted ≡ 0 }
    requires others { length taken.now.row.others ≡ 0 }
    ensures left { LeadsTo job.now taken.now result (rest_after_parity taken.now) }
    ensures kept { AlwaysKeepsStage job.now taken.now result }
    ensures awake { is_settled result.stage ≡ true }
{
    match taken.row().parity() {
        Some(_) => match plan_of(job, taken.row().part()) {
            Plan::Full => claim_wanted(job, taken, false),
            Plan::Small => claim_small(job, taken),
            Plan::Reconstruct => share_until(job, taken),
        },
        None => claim_wanted(job, taken, false),
    }
}

/// The confirm of a row's parity, with its cell where a unit was missing that is not wanted.
pub fn row_confirm(job: &Assignment, row: &Row) -> Queue
    ensures { result ≡ row_confirm_of job.now row.now }
{
    let place = row.part().row;
    let bay = parity_bay(job.n, place);
    Queue::one(confirm(job.id, place, lacks(row.others()), bay))
}

/// Ends the row in hand, and takes the next in hand where there is one. After the last the rows are confirmed.
#[tactic(auto, using(crate::proofs::ClaimLemmas::parts))]
pub fn end_row(job: &Assignment, taken: &mut Taken) -> Ahead
    requires row { length taken.old.before < array_vec_len job.now.parts }
    requires rows { are_rows job.now.n (blocks_in job.now.parts.items) taken.old.before ≡ true }
    requires this { is_row job.now.n (blocks_in job.now.parts.items) taken.old.row ≡ true }
    ensures left { LeadsUnconfirmed job.now taken.new result (rest_after_row taken.old) }
    ensures kept { (puts : PutsView) → KeepsStage job.now taken.new [] puts result }
    ensures awake { is_settled result.stage ≡ true }
{
    let at = taken.before().len() + 1;
    if at < job.parts.len() {
        let part = job.parts[at];
        taken.next_row(part);
        Ahead {
            stage: WriteStage::ClaimParity,
            queue: parity_claim(job, part),
        }
    } else {
        taken.next_row(RowPart::default());
        Ahead {
            stage: WriteStage::Confirm,
            queue: row_confirm(job, &taken.before()[0]),
        }
    }
}

/// What follows the claims of the wanted units with their cells.
#[tactic(auto, using(crate::proofs::ClaimLemmas::none_asked))]
pub fn after_small(job: &Assignment, taken: &mut Taken) -> Ahead
    requires row { length taken.old.before < array_vec_len job.now.parts }
    requires rows { are_rows job.now.n (blocks_in job.now.parts.items) taken.old.before ≡ true }
    requires this { is_row job.now.n (blocks_in job.now.parts.items) taken.old.row ≡ true }
    requires others { length taken.old.row.others ≡ 0 }
    ensures left { LeadsUnconfirmed job.now taken.new result (rest_after_small taken.old) }
    ensures kept { (puts : PutsView) → KeepsStage job.now taken.new [] puts result }
    ensures awake { is_settled result.stage ≡ true }
{
    if !lacks(taken.row().wanted()) {
        return end_row(job, taken);
    }
    let queue = other_shares(job, taken.row().part());
    if queue.len() > 0 {
        Ahead {
            stage: WriteStage::ShareAfter,
            queue,
        }
    } else {
        end_row(job, taken)
    }
}
