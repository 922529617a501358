//! What a read does next, once a phase of it has ended.
ghost use Rattle.std.specs.Prelude.{◌≡◌, true, false, ◌*◌, ◌<◌, ◌≤◌, length};
ghost use Rattle.arrayvec.specs.ArrayVec.{array_vec_len};
ghost use Rattle.stripe_layout.specs.Placement.{units_in};
ghost use Rattle.attempts.specs.Reading.{contents_of};
ghost use Rattle.raid_base.specs.Steps.{draws};
ghost use Rattle.host_read.specs.Stages.{is_settled};
ghost use Rattle.host_read.specs.Aheads.{left_ahead, left_by_row, left_by_wanted, left_by_parity, left_by_refusal, left_by_draw};
ghost use Rattle.host_read.specs.Aheads.{shares_in, shares_out, IsShared, IsKept, IsKeptAlways, SettlesAhead};

use crate::stages::{Ahead, ReadStage};
use attempts::assignment::Assignment;
use attempts::contents::{Contents, push_row_contents};
use attempts::errands::{share, shares};
use attempts::holds::{bays_of, numbered_releases, push_read_row, read_releases};
use attempts::queue::Queue;
use attempts::rows::{Taken, lacks};
use attempts::units::{units_in, units_out};
use place_numbers::Numbers;
use raid_base::{Cause, Mode, Number, RowPart, Spent};
use stripe_layout::parity_bay;

/// The shares of a part's units.
pub fn wanted_shares(job: &Assignment, part: RowPart) -> Queue
    ensures value { result ≡ shares_in job.now part }
    ensures len { length result ≡ length (units_in job.now.n part.mask) }
    ensures few { length result ≤ 15 }
{
    let units = units_in(job.n, part.mask);
    let bays = bays_of(job.n, part.row, units.as_slice());
    shares(job.id, part.row, bays)
}

/// The shares of the other units of its row.
fn other_shares(job: &Assignment, part: RowPart) -> Queue
    ensures value { result ≡ shares_out job.now part }
    ensures few { length result ≤ 15 }
{
    let units = units_out(job.n, part.mask);
    let bays = bays_of(job.n, part.row, units.as_slice());
    shares(job.id, part.row, bays)
}

/// The end of the shares: under stamps the read ends here, and under locks it draws.
fn numbered(job: &Assignment) -> Ahead
    ensures left { IsShared job.now result }
    ensures kept { IsKeptAlways result }
{
    match job.mode {
        Mode::Order => Ahead {
            stage: ReadStage::Freeing {
                number: job.id,
                gone: None,
            },
            queue: Queue::empty(),
        },
        Mode::Lock => Ahead {
            stage: ReadStage::Drawing,
            queue: Queue::empty(),
        },
    }
}

/// Ends the row in hand, and takes the next in hand where there is one.
pub fn end_row(job: &Assignment, taken: &mut Taken, contents: &mut Contents) -> Ahead
    requires row { length taken.old.before < array_vec_len job.now.parts }
    requires wanted { length taken.old.row.wanted ≤ 16 }
    requires others { length taken.old.row.others ≤ 16 }
    requires shown { contents.old.items ≡ contents_of job.now.n taken.old.before }
    requires room { array_vec_len contents.old ≤ 15 * length taken.old.before }
    ensures left { left_ahead job.now taken.new result ≡ left_by_row job.now taken.old }
    ensures kept { IsKept job.now taken.new result }
    ensures row { length taken.new.before ≤ array_vec_len job.now.parts }
    ensures shown { contents.new.items ≡ contents_of job.now.n taken.new.before }
    ensures room { array_vec_len contents.new ≤ 15 * length taken.new.before }
{
    push_row_contents(contents, job.n, taken.row());
    let at = taken.before().len() + 1;
    if at < job.parts.len() {
        let part = job.parts[at];
        taken.next_row(part);
        Ahead {
            stage: ReadStage::Wanted,
            queue: wanted_shares(job, part),
        }
    } else {
        taken.next_row(RowPart::default());
        numbered(job)
    }
}

/// What follows the shares of the wanted units.
pub fn after_wanted(job: &Assignment, taken: &mut Taken, contents: &mut Contents) -> Ahead
    requires row { length taken.old.before < array_vec_len job.now.parts }
    requires wanted { length taken.old.row.wanted ≤ 16 }
    requires others { length taken.old.row.others ≡ 0 }
    requires shown { contents.old.items ≡ contents_of job.now.n taken.old.before }
    requires room { array_vec_len contents.old ≤ 15 * length taken.old.before }
    ensures left { left_ahead job.now taken.new result ≡ left_by_wanted job.now taken.old }
    ensures kept { IsKept job.now taken.new result }
    ensures row { length taken.new.before ≤ array_vec_len job.now.parts }
    ensures shown { contents.new.items ≡ contents_of job.now.n taken.new.before }
    ensures room { array_vec_len contents.new ≤ 15 * length taken.new.before }
{
    if lacks(taken.row().wanted()) {
        let row = taken.row().part().row;
        Ahead {
            stage: ReadStage::Parity,
            queue: Queue::one(share(job.id, row, parity_bay(job.n, row))),
        }
    } else {
        end_row(job, taken, contents)
    }
}

/// What follows the share of the parity.
pub fn after_parity(job: &Assignment, taken: &mut Taken, contents: &mut Contents) -> Ahead
    requires row { length taken.old.before < array_vec_len job.now.parts }
    requires wanted { length taken.old.row.wanted ≤ 16 }
    requires others { length taken.old.row.others ≡ 0 }
    requires shown { contents.old.items ≡ contents_of job.now.n taken.old.before }
    requires room { array_vec_len contents.old ≤ 15 * length taken.old.before }
    ensures left { left_ahead job.now taken.new result ≡ left_by_parity job.now taken.old }
    ensures kept { IsKept job.now taken.new result }
    ensures row { length taken.new.before ≤ array_vec_len job.now.parts }
    ensures shown { contents.new.items ≡ contents_of job.now.n taken.new.before }
    ensures room { array_vec_len contents.new ≤ 15 * length taken.new.before }
{
    let queue = other_shares(job, taken.row().part());
    if queue.len() > 0 {
        Ahead {
            stage: ReadStage::Others,
            queue,
        }
    } else {
        end_row(job, taken, contents)
    }
}

/// What is given back of all that is held, where the read is refused.
pub fn refused(job: &Assignment, taken: &Taken, cause: Cause) -> Ahead
    requires { length taken.now.before < 8 }
    ensures left { left_ahead job.now taken.now result ≡ left_by_refusal job.now taken.now cause }
    ensures kept { IsKept job.now taken.now result }
    ensures awake { is_settled result.stage ≡ true }
{
    let mut releases = read_releases(job.mode, job.n, job.id, taken.before());
    push_read_row(&mut releases, job.mode, job.n, taken.row());
    Ahead {
        stage: ReadStage::Releasing { cause },
        queue: Queue::releases(releases),
    }
}

/// What follows the draw of the number.
#[tactic(auto, using(crate::proofs::ReadLemmas::draws_nothing))]
pub fn drawn(job: &Assignment, taken: &Taken, number: Result<Number, Spent>) -> Ahead
    requires { length taken.now.before ≤ array_vec_len job.now.parts }
    ensures left { left_ahead job.now taken.now result ≡ left_by_draw job.now taken.now number }
    ensures kept { IsKept job.now taken.now result }
    ensures awake { is_settled result.stage ≡ true }
    ensures settled { draws (left_ahead job.now taken.now result) ≡ false }
{
    match number {
        Ok(number) => Ahead {
            stage: ReadStage::Freeing { number, gone: None },
            queue: Queue::releases(numbered_releases(job.n, job.id, number, taken.before())),
        },
        Err(spent) => Ahead {
            stage: ReadStage::Releasing {
                cause: Cause::Spent { seen: spent.seen },
            },
            queue: Queue::releases(read_releases(job.mode, job.n, job.id, taken.before())),
        },
    }
}

/// Draws the number where it is time to.
#[tactic(auto, using(crate::proofs::ReadLemmas::settles))]
pub fn settled(job: &Assignment, taken: &Taken, ahead: Ahead, numbers: &mut Numbers) -> Ahead
    requires row { length taken.now.before ≤ array_vec_len job.now.parts }
    requires kept { IsKept job.now taken.now ahead }
    ensures left { SettlesAhead job.now taken.now numbers.old ahead numbers.new result }
    ensures host { numbers.new.host ≡ numbers.old.host }
    ensures kept { IsKept job.now taken.now result }
    ensures awake { is_settled result.stage ≡ true }
{
    match ahead.stage {
        ReadStage::Drawing => {
            let number = numbers.draw();
            drawn(job, taken, number)
        }
        ReadStage::Wanted => ahead,
        ReadStage::Parity => ahead,
        ReadStage::Others => ahead,
        ReadStage::Freeing { .. } => ahead,
        ReadStage::Releasing { .. } => ahead,
    }
}
