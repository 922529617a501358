//! What a write does next, while it confirms its rows.
ghost use Rattle.std.specs.Prelude.{◌≡◌, ℕ, List, [], ◌∷◌, ◌<◌, ◌≤◌, true, length, drop, option_map, unwrap_or};
ghost use Rattle.arrayvec.specs.ArrayVec.{array_vec_len};
ghost use Rattle.raid_base.specs.declared.jobs.Cause.TheVariants as causes;
ghost use Rattle.attempts.specs.Parts.{blocks_in};
ghost use Rattle.attempts.specs.Taking.{refusal};
ghost use Rattle.attempts.specs.Writing.{held_row, confirmed_row, row_or_change};
ghost use Rattle.host_write.specs.Stages.{is_settled, are_rows};
ghost use Rattle.host_write.specs.Rows.{MakesRow};
ghost use Rattle.host_write.specs.Aheads.{KeepsStage, AlwaysKeepsStage, LeadsTo, ConfirmsNext, confirm_refusal};

use crate::claims::row_confirm;
use crate::puts::Puts;
use crate::putting::numbered;
use crate::stages::{Ahead, WriteStage};
use attempts::assignment::Assignment;
use attempts::holds::write_releases;
use attempts::queue::Queue;
use attempts::replies::refusal;
use attempts::rows::{Row, Taken, lacks};
use raid_base::{BayNo, Cause, Cell, Grant, Number, Reply, RowNo};

/// The parity of the row once it answered that it is held, with its cell where that was asked.
fn held_parity(
    row: &Row,
    grant: Grant,
    want: bool,
    held: Option<Option<Cell>>,
) -> Option<Option<Grant>>
    ensures { MakesRow row.now result (held_row row.now grant want held) }
{
    match held {
        None => None,
        Some(cell) => {
            if want {
                match cell {
                    None => None,
                    Some(cell) => Some(Some(Grant {
                        cell: Some(cell),
                        last: grant.last,
                        life: grant.life,
                        seized: grant.seized,
                    })),
                }
            } else {
                Some(row.parity())
            }
        }
    }
}

/// The parity of the row once it answered as it was: held where it was granted, and missing where it was missing.
fn confirmed_parity(row: &Row, reply: &Reply) -> Option<Option<Grant>>
    ensures { MakesRow row.now result (confirmed_row row.now reply.now row.now.parity) }
{
    match row.parity() {
        Some(grant) => held_parity(row, grant, lacks(row.others()), reply.held()),
        None => {
            if reply.is_missing() {
                Some(row.parity())
            } else {
                None
            }
        }
    }
}

/// The parity of the row once it is confirmed, or none where the reply refuses or the row has changed.
pub fn parity_or_change(
    least: Option<Number>,
    missing: Option<BayNo>,
    bay: BayNo,
    row: &Row,
    reply: &Reply,
) -> Option<Option<Grant>>
    ensures { MakesRow row.now result (row_or_change least missing bay row.now reply.now) }
{
    match refusal(least, missing, bay, reply) {
        Some(_) => None,
        None => confirmed_parity(row, reply),
    }
}

/// Why a row is not confirmed.
pub fn confirm_cause(
    least: Option<Number>,
    missing: Option<BayNo>,
    bay: BayNo,
    row: RowNo,
    reply: &Reply,
) -> Cause
    ensures { result ≡ unwrap_or (refusal least missing bay reply.now) (causes.Changed row) }
{
    match refusal(least, missing, bay, reply) {
        Some(cause) => cause,
        None => Cause::Changed { row },
    }
}

/// What is given back of all rows, where one is not confirmed.
#[cold]
#[inline(never)]
pub fn unconfirmed(job: &Assignment, taken: &Taken, cause: Cause) -> Ahead
    requires { length taken.now.before ≤ 8 }
    ensures left { LeadsTo job.now taken.now result (confirm_refusal taken.now cause) }
    ensures kept { AlwaysKeepsStage job.now taken.now result }
    ensures awake { is_settled result.stage ≡ true }
{
    Ahead {
        stage: WriteStage::Release { cause },
        queue: Queue::releases(write_releases(job.mode, job.n, job.id, taken.before())),
    }
}

/// What follows the confirm of a row: that of the next, or after the last the number.
pub fn after_confirm(
    job: &Assignment,
    blocks: &[[u8; 64]],
    taken: &Taken,
    rows: &[Row],
    puts: &mut Puts,
) -> Ahead
    requires blocks { length blocks.now ≡ blocks_in job.now.parts.items }
    requires before { are_rows job.now.n (blocks_in job.now.parts.items) taken.now.before ≡ true }
    requires rows { are_rows job.now.n (blocks_in job.now.parts.items) rows.now ≡ true }
    requires within { length rows.now ≤ length taken.now.before }
    ensures left { ConfirmsNext job.now blocks.now taken.now rows.now puts.new result }
    ensures kept { KeepsStage job.now taken.now rows.now puts.new result }
{
    let before = taken.before();
    let at = rows.len();
    if at < before.len() {
        Ahead {
            stage: WriteStage::Confirm,
            queue: row_confirm(job, &before[at]),
        }
    } else {
        numbered(job, blocks, rows, puts)
    }
}
