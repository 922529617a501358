//! What a write does next, while it puts its rows.
ghost use Rattle.std.specs.Prelude.{◌≡◌, ℕ, List, [], ◌∷◌, ◌+◌, ◌*◌, ◌<◌, ◌≤◌, Some, true, length, drop};
ghost use Rattle.arrayvec.specs.ArrayVec.{array_vec_len};
ghost use Rattle.attempts.specs.Accesses.{access_of};
ghost use Rattle.attempts.specs.Parts.{blocks_in};
ghost use Rattle.attempts.specs.Taking.{Taken as TakenView};
ghost use Rattle.attempts.specs.Writing.{reader_releases};
ghost use Rattle.host_write.specs.Stages.{is_settled, are_rows, puts_room};
ghost use Rattle.host_write.specs.Blocks.{IsOfJob};
ghost use Rattle.host_write.specs.Aheads.{KeepsStage, PutsLeadTo, Settles, left_next};
ghost use Rattle.host_write.specs.Aheads.{puts_from, puts_after_data, puts_with, puts_numbered, puts_drawn};

use crate::blocks::data_puts;
use crate::parity::parity_put;
use crate::puts::Puts;
use crate::stages::{Ahead, WriteStage};
use attempts::assignment::Assignment;
use attempts::holds::{reader_releases, write_releases};
use attempts::queue::Queue;
use attempts::rows::{Row, Taken};
use place_numbers::Numbers;
use raid_base::{Cause, Mode, Number, Spent};

/// The releases of the readers, which under stamps there are none of.
fn last_releases(job: &Assignment, rows: &[Row]) -> Queue
    requires { length rows.now ≤ 8 }
    ensures { IsOfJob job.now result (λ a. reader_releases job.now.mode a rows.now) }
{
    match job.mode {
        Mode::Order => Queue::empty(),
        Mode::Lock => Queue::releases(reader_releases(job.n, job.id, rows)),
    }
}

/// Goes on with the puts from a row on.
#[tactic(auto, using(crate::proofs::PuttingLemmas::puts))]
pub fn next_put(
    job: &Assignment,
    blocks: &[[u8; 64]],
    rows: &[Row],
    puts: &mut Puts,
    number: Number,
    row: usize,
) -> Ahead
    requires blocks { length blocks.now ≡ blocks_in job.now.parts.items }
    requires rows { are_rows job.now.n (blocks_in job.now.parts.items) rows.now ≡ true }
    requires row { row ≤ length rows.now }
    requires made { length puts.old.made ≤ 45 * row }
    requires troubles { length puts.old.troubles ≤ 16 * row }
    ensures left { PutsLeadTo job.now blocks.now rows.now puts.new result
        (puts_from number row puts.old) }
    ensures kept { (t : TakenView) → KeepsStage job.now t rows.now puts.new result }
    ensures awake { is_settled result.stage ≡ true }
{
    if row >= rows.len() {
        return Ahead {
            stage: WriteStage::Finish { number },
            queue: last_releases(job, rows),
        };
    }
    puts.at_row();
    let this = &rows[row];
    let queue = data_puts(job, blocks, number, this);
    if queue.len() > 0 {
        return Ahead {
            stage: WriteStage::PutData { number, row },
            queue,
        };
    }
    match this.parity() {
        Some(_) => Ahead {
            stage: WriteStage::PutParity { number, row },
            queue: Queue::one(parity_put(job, blocks, number, this)),
        },
        None => next_put(job, blocks, rows, puts, number, row + 1),
    }
}

/// What follows the data puts of a row: the put of the parity where it is there.
#[tactic(auto, using(crate::proofs::PuttingLemmas::puts))]
pub fn after_data(
    job: &Assignment,
    blocks: &[[u8; 64]],
    rows: &[Row],
    puts: &mut Puts,
    number: Number,
    row: usize,
) -> Ahead
    requires blocks { length blocks.now ≡ blocks_in job.now.parts.items }
    requires rows { are_rows job.now.n (blocks_in job.now.parts.items) rows.now ≡ true }
    requires row { row < length rows.now }
    requires made { length puts.old.made ≤ 45 * row + 15 }
    requires left { length puts.old.left ≤ 15 }
    requires troubles { length puts.old.troubles ≤ 16 * row + 15 }
    ensures left { PutsLeadTo job.now blocks.now rows.now puts.new result
        (puts_after_data number row puts.old) }
    ensures kept { (t : TakenView) → KeepsStage job.now t rows.now puts.new result }
    ensures awake { is_settled result.stage ≡ true }
{
    let done = &rows[row];
    match done.parity() {
        Some(_) => Ahead {
            stage: WriteStage::PutParity { number, row },
            queue: Queue::one(parity_put(job, blocks, number, done)),
        },
        None => next_put(job, blocks, rows, puts, number, row + 1),
    }
}

/// Begins the puts, with the number of the write.
fn first_put(
    job: &Assignment,
    blocks: &[[u8; 64]],
    rows: &[Row],
    puts: &mut Puts,
    number: Number,
) -> Ahead
    requires blocks { length blocks.now ≡ blocks_in job.now.parts.items }
    requires rows { are_rows job.now.n (blocks_in job.now.parts.items) rows.now ≡ true }
    ensures left { PutsLeadTo job.now blocks.now rows.now puts.new result (puts_with number) }
    ensures kept { (t : TakenView) → KeepsStage job.now t rows.now puts.new result }
    ensures awake { is_settled result.stage ≡ true }
{
    puts.clear();
    next_put(job, blocks, rows, puts, number, 0)
}

/// What follows the last confirm: under stamps the puts, and under locks the draw.
pub fn numbered(job: &Assignment, blocks: &[[u8; 64]], rows: &[Row], puts: &mut Puts) -> Ahead
    requires blocks { length blocks.now ≡ blocks_in job.now.parts.items }
    requires rows { are_rows job.now.n (blocks_in job.now.parts.items) rows.now ≡ true }
    ensures left { PutsLeadTo job.now blocks.now rows.now puts.new result puts_numbered }
    ensures kept { (t : TakenView) → KeepsStage job.now t rows.now puts.new result }
{
    match job.mode {
        Mode::Order => first_put(job, blocks, rows, puts, job.id),
        Mode::Lock => Ahead {
            stage: WriteStage::Draw,
            queue: Queue::empty(),
        },
    }
}

/// What follows the draw of the number.
fn drawn(
    job: &Assignment,
    blocks: &[[u8; 64]],
    rows: &[Row],
    puts: &mut Puts,
    number: Result<Number, Spent>,
) -> Ahead
    requires blocks { length blocks.now ≡ blocks_in job.now.parts.items }
    requires rows { are_rows job.now.n (blocks_in job.now.parts.items) rows.now ≡ true }
    ensures left { PutsLeadTo job.now blocks.now rows.now puts.new result (puts_drawn number) }
    ensures kept { (t : TakenView) → KeepsStage job.now t rows.now puts.new result }
    ensures awake { is_settled result.stage ≡ true }
{
    match number {
        Ok(number) => first_put(job, blocks, rows, puts, number),
        Err(spent) => Ahead {
            stage: WriteStage::Release {
                cause: Cause::Spent { seen: spent.seen },
            },
            queue: Queue::releases(write_releases(job.mode, job.n, job.id, rows)),
        },
    }
}

/// Draws the number where it is time to.
#[tactic(auto, using(crate::proofs::DrawnLemmas::settles))]
pub fn settled(
    job: &Assignment,
    blocks: &[[u8; 64]],
    taken: &Taken,
    rows: &[Row],
    puts: &mut Puts,
    ahead: Ahead,
    numbers: &mut Numbers,
) -> Ahead
    requires blocks { length blocks.now ≡ blocks_in job.now.parts.items }
    requires kept { KeepsStage job.now taken.now rows.now puts.old ahead }
    ensures left { Settles numbers.old numbers.new
        (left_next (access_of job.now blocks.now) ahead taken.now rows.now puts.old)
        (left_next (access_of job.now blocks.now) result taken.now rows.now puts.new) }
    ensures host { numbers.new.host ≡ numbers.old.host }
    ensures kept { KeepsStage job.now taken.now rows.now puts.new result }
    ensures awake { is_settled result.stage ≡ true }
{
    match ahead.stage {
        WriteStage::Draw => {
            let number = numbers.draw();
            drawn(job, blocks, rows, puts, number)
        }
        WriteStage::ClaimParity => ahead,
        WriteStage::ClaimWanted => ahead,
        WriteStage::ClaimSmall => ahead,
        WriteStage::ShareUntil => ahead,
        WriteStage::ShareAfter => ahead,
        WriteStage::Confirm => ahead,
        WriteStage::PutData { .. } => ahead,
        WriteStage::PutParity { .. } => ahead,
        WriteStage::Finish { .. } => ahead,
        WriteStage::Release { .. } => ahead,
    }
}
