//! A read as a machine of requests.
//!
//! Row by row it shares the wanted units. Where one is missing it shares the parity too, and then the row's other
//! units, and makes the missing block from them. Under locks it then draws its number and gives its readers back
//! with it: a reader that is gone by then refuses the read, since another may have written in between. Under stamps
//! its id is its number, and there is nothing to give back.
//!
//! A refused read gives its readers back, and has no contents. What is left of the machine is at each step what is
//! left of the read's definition, whatever the replies. A host's `Attempt` calls it: `next` for the request in
//! hand, `take` with the reply, `end` and `contents` once nothing is left, and `quit` where the host stops.
ghost use Rattle.std.specs.Prelude.{◌≡◌, ◌+◌, ◌*◌, ◌^◌, ◌<◌, ◌≤◌, ◌↔◌, Some, None, true, if◌then◌else◌, length, IsTrue, IsSome};
ghost use Rattle.arrayvec.specs.ArrayVec.{array_vec_len};
ghost use Rattle.virtual_objects.specs.RowParts.{AreRowParts};
ghost use Rattle.attempts.specs.Reading.{contents_of, first_row};
ghost use Rattle.raid_base.specs.Replies.{is_done};
ghost use Rattle.host_read.specs.Stages.{is_kept, is_settled};
ghost use Rattle.raid_base.specs.Steps.{behind, stopped, answer};

use crate::ahead::{after_parity, after_wanted, end_row, refused, settled, wanted_shares};
use crate::stages::{Ahead, ReadStage};
use arrayvec::ArrayVec;
use attempts::assignment::Assignment;
use attempts::contents::Contents;
use attempts::queue::Queue;
use attempts::replies::{behind_from, refusal};
use attempts::rows::Taken;
use place_numbers::Numbers;
use raid_base::{BayNo, Cause, Content, Ended, Mode, Number, Reply, Request, RowNo};
use virtual_objects::RowParts;

/// An attempt to read the units of some rows.
#[derive(Debug, Drop)]
pub struct ReadTry {
    job: Assignment,
    stage: ReadStage,
    taken: Taken,
    contents: Contents,
    queue: Queue,
    ghost kept: { is_kept stage (array_vec_len job.parts) (length queue) taken ≡ true },
    ghost awake: { is_settled stage ≡ true },
    ghost shown: { contents.items ≡ contents_of job.n taken.before },
    ghost room: { array_vec_len contents ≤ 15 * length taken.before },
}

impl ReadTry {
    ghost use Rattle.host_read.specs.Answers.{ended_in, contents_in};
    ghost use Rattle.host_read.specs.Aheads.{left_by_refusal};
    ghost use Rattle.host_read.specs.Tries.{left, steps_of, next_of, GoesOn, HearsAndGoesOn};
    ghost use Rattle.host_read.specs.declared.stages.ReadStage.TheVariants.{Wanted, Parity, Others, Freeing};

    /// Begins a read of these parts of a job, on n devices.
    #[tactic(auto, using(attempts::proofs::PartLemmas::formed))]
    pub fn begin(mode: Mode, n: u8, id: Number, parts: RowParts) -> ReadTry
        requires bays { (3 ≤ n) × (n ≤ 16) }
        requires id { (1 ≤ id.0) × (id.0 < 2 ^ 62) }
        requires parts { AreRowParts n parts.items }
        ensures { left result ≡ steps_of mode n id parts.items }
    {
        let part = parts[0];
        let job = Assignment { mode, n, id, parts };
        let queue = wanted_shares(&job, part);
        ReadTry {
            job,
            stage: ReadStage::Wanted,
            taken: Taken::begin(part),
            contents: ArrayVec::new(),
            queue,
        }
    }

    /// Begins another read, as `begin` does, in the room of this one.
    #[tactic(auto, using(attempts::proofs::PartLemmas::formed))]
    pub fn renew(&mut self, mode: Mode, n: u8, id: Number, parts: RowParts)
        requires bays { (3 ≤ n) × (n ≤ 16) }
        requires id { (1 ≤ id.0) × (id.0 < 2 ^ 62) }
        requires parts { AreRowParts n parts.items }
        ensures { left self.new ≡ steps_of mode n id parts.items }
    {
        let part = parts[0];
        let job = Assignment { mode, n, id, parts };
        self.queue = wanted_shares(&job, part);
        self.job = job;
        self.stage = ReadStage::Wanted;
        self.taken.renew(part);
        self.contents.clear();
    }

    /// The next request, and the bay that it goes to. None exactly where the read has ended.
    pub fn next(&self, _blocks: &[[u8; 64]]) -> Option<(BayNo, Request)>
        ensures value { result ≡ next_of self.now }
        ensures ended { IsSome result ↔ (answer (left self.now) ≡ None) }
    {
        match self.queue.first() {
            Some(errand) => Some((errand.bay, errand.request)),
            None => None,
        }
    }

    /// How the read ended, once it has.
    #[tactic(auto, using(crate::proofs::TryLemmas::tries))]
    pub fn end(&self) -> Option<Ended>
        ensures { result ≡ ended_in (answer (left self.now)) }
    {
        if self.queue.len() > 0 {
            return None;
        }
        match self.stage {
            ReadStage::Wanted => None,
            ReadStage::Parity => None,
            ReadStage::Others => None,
            ReadStage::Drawing => None,
            ReadStage::Freeing { number, gone } => match gone {
                Some(row) => Some(Ended::Refused(Cause::Released { row })),
                None => Some(Ended::Read { number }),
            },
            ReadStage::Releasing { cause } => Some(Ended::Refused(cause)),
        }
    }

    /// How the read ends where the host stops now.
    pub fn quit(&self) -> Ended
        requires { answer (left self.now) ≡ None }
        ensures { Some result ≡ stopped (left self.now) }
    {
        Ended::Refused(Cause::Quit)
    }

    /// The contents of the blocks in order, once it has ended as Read. Before, and where it was refused, none.
    #[tactic(auto, using(crate::proofs::TryLemmas::tries))]
    pub fn contents(&self) -> &[Content]
        ensures { result.now ≡ contents_in (answer (left self.now)) }
    {
        let none = &self.contents.as_slice()[..0];
        if self.queue.len() > 0 {
            return none;
        }
        match self.stage {
            ReadStage::Wanted => none,
            ReadStage::Parity => none,
            ReadStage::Others => none,
            ReadStage::Drawing => none,
            ReadStage::Freeing { gone, .. } => match gone {
                Some(_) => none,
                None => self.contents.as_slice(),
            },
            ReadStage::Releasing { .. } => none,
        }
    }

    /// Takes the reply to the next request, and draws the number where it is time to.
    pub fn take(&mut self, _blocks: &[[u8; 64]], reply: &Reply, numbers: &mut Numbers)
        requires { answer (left self.old) ≡ None }
        ensures told { HearsAndGoesOn self.old numbers.old reply.now self.new numbers.new }
        ensures host { numbers.new.host ≡ numbers.old.host }
    {
        numbers.hear(reply);
        match self.stage {
            ReadStage::Wanted => self.take_wanted(reply, numbers),
            ReadStage::Parity => self.take_parity(reply, numbers),
            ReadStage::Others => self.take_other(reply, numbers),
            ReadStage::Drawing => unreachable!(),
            ReadStage::Freeing { number, gone } => self.take_freed(number, gone, reply),
            ReadStage::Releasing { .. } => self.queue.advance(),
        }
    }

    /// Gives back all that is held, where a reply refuses the read.
    #[cold]
    #[inline(never)]
    fn refuse(&mut self, cause: Cause)
        requires { length self.old.taken.before < 8 }
        ensures { left self.new ≡ left_by_refusal self.old.job self.old.taken cause }
    {
        let Ahead { stage, queue } = refused(&self.job, &self.taken, cause);
        self.stage = stage;
        self.queue = queue;
    }

    /// Takes the reply to the share of a wanted unit.
    fn take_wanted(&mut self, reply: &Reply, numbers: &mut Numbers)
        requires { self.old.stage ≡ Wanted }
        ensures told { GoesOn self.old numbers.old reply.now self.new numbers.new }
        ensures host { numbers.new.host ≡ numbers.old.host }
    {
        let bay = self.queue.head().bay;
        let least = behind_from(self.job.mode, self.job.id);
        match refusal(least, self.taken.missing(), bay, reply) {
            Some(cause) => self.refuse(cause),
            None => {
                self.taken.keep_wanted(bay, reply.grant());
                if self.queue.len() > 1 {
                    self.queue.advance();
                } else {
                    let ahead = after_wanted(&self.job, &mut self.taken, &mut self.contents);
                    let Ahead { stage, queue } = settled(&self.job, &self.taken, ahead, numbers);
                    self.stage = stage;
                    self.queue = queue;
                }
            }
        }
    }

    /// Takes the reply to the share of the parity.
    fn take_parity(&mut self, reply: &Reply, numbers: &mut Numbers)
        requires { self.old.stage ≡ Parity }
        ensures told { GoesOn self.old numbers.old reply.now self.new numbers.new }
        ensures host { numbers.new.host ≡ numbers.old.host }
    {
        let bay = self.queue.head().bay;
        let least = behind_from(self.job.mode, self.job.id);
        match refusal(least, self.taken.missing(), bay, reply) {
            Some(cause) => self.refuse(cause),
            None => {
                self.taken.keep_parity(bay, reply.grant());
                let ahead = after_parity(&self.job, &mut self.taken, &mut self.contents);
                let Ahead { stage, queue } = settled(&self.job, &self.taken, ahead, numbers);
                self.stage = stage;
                self.queue = queue;
            }
        }
    }

    /// Takes the reply to the share of another unit.
    fn take_other(&mut self, reply: &Reply, numbers: &mut Numbers)
        requires { self.old.stage ≡ Others }
        ensures told { GoesOn self.old numbers.old reply.now self.new numbers.new }
        ensures host { numbers.new.host ≡ numbers.old.host }
    {
        let bay = self.queue.head().bay;
        let least = behind_from(self.job.mode, self.job.id);
        match refusal(least, self.taken.missing(), bay, reply) {
            Some(cause) => self.refuse(cause),
            None => {
                self.taken.keep_other(bay, reply.grant());
                if self.queue.len() > 1 {
                    self.queue.advance();
                } else {
                    let ahead = end_row(&self.job, &mut self.taken, &mut self.contents);
                    let Ahead { stage, queue } = settled(&self.job, &self.taken, ahead, numbers);
                    self.stage = stage;
                    self.queue = queue;
                }
            }
        }
    }

    /// Takes the reply to the release of a reader.
    fn take_freed(&mut self, number: Number, gone: Option<RowNo>, reply: &Reply)
        requires stage { self.old.stage ≡ Freeing number gone }
        requires some { 0 < length self.old.queue }
        ensures { left self.new ≡ behind (left self.old) reply.now }
    {
        let errand = self.queue.head();
        self.stage = ReadStage::Freeing {
            number,
            gone: gone_row(gone, &errand.request, reply),
        };
        self.queue.advance();
    }
}

/// The first row of which a reader was gone, after the reply to one more release.
fn gone_row(gone: Option<RowNo>, request: &Request, reply: &Reply) -> Option<RowNo>
    ensures { result ≡ (if is_done reply.now then gone else first_row gone request.now) }
{
    if reply.is_done() {
        return gone;
    }
    match gone {
        Some(row) => Some(row),
        None => match *request {
            Request::Release { row, .. } => Some(row),
            Request::Share { .. } => None,
            Request::Claim { .. } => None,
            Request::Confirm { .. } => None,
            Request::Put { .. } => None,
            Request::Lose => None,
            Request::Fit => None,
        },
    }
}
