//! A rebuild as a machine of requests.
//!
//! It claims every slot of its row with its cell, the parity first, and confirms its note on the parity. Then it
//! draws a number. It puts what the other slots make of the target's cell, unless the target showed one, and at
//! last gives its notes back.
//!
//! A row in which another slot than the target is missing refuses it. A refused rebuild gives back what it still
//! holds. What is left of the machine is at each step what is left of the rebuild's definition, whatever the
//! replies. A host's `Attempt` calls it, for one row after another of a device that was fitted.
ghost use Rattle.std.specs.Prelude.{◌≡◌, ◌+◌, ◌^◌, ◌<◌, ◌≤◌, ◌↔◌, Some, None, true, false, length, IsTrue, IsSome, option_map};
ghost use Rattle.arrayvec.specs.ArrayVec.{array_vec_len};
ghost use Rattle.raid_base.specs.Steps.{next_errand, behind, stopped, answer, settled, told};
ghost use Rattle.raid_base.specs.declared.messages.Errand.{Errand as ErrandView};
ghost use Rattle.rebuild_txn.specs.Stages.{is_kept};

use crate::cells::{is_shown, put_queue};
use crate::slots::{
    Holds, claim_queue, confirm_queue, hold_of, keep_grant, last_queue, mend_why, release_queue,
};
use crate::stages::MendStage;
use arrayvec::ArrayVec;
use attempts::Repair;
use attempts::queue::Queue;
use attempts::whole_rows::put_cause;
use place_numbers::Numbers;
use raid_base::{BayNo, Cause, Ended, Number, Reply, Request, RowNo, Spent};

/// An attempt to rebuild the slot of one row on a bay.
#[derive(Debug, Drop)]
pub struct MendTry {
    job: Repair,
    stage: MendStage,
    queue: Queue,
    holds: Holds,
    ghost bays: { (3 ≤ job.n) × (job.n ≤ 16) },
    ghost target: { job.target.0 < job.n },
    ghost kept: { is_kept stage (length queue) (array_vec_len holds) ≡ true },
}

impl MendTry {
    ghost use Rattle.attempts.specs.Taking.{Finish};
    ghost use Rattle.attempts.specs.Mending.{mend_steps, mend_drawn};
    ghost use Rattle.rebuild_txn.specs.Tries.{left};
    ghost use Rattle.rebuild_txn.specs.declared.stages.MendStage.TheVariants.{Claiming, Confirming, Putting};

    /// Begins a rebuild of a row's slot on the target, on n devices.
    pub fn begin(n: u8, id: Number, row: RowNo, target: BayNo) -> MendTry
        requires bays { (3 ≤ n) × (n ≤ 16) }
        requires id { (1 ≤ id.0) × (id.0 < 2 ^ 62) }
        requires target { target.0 < n }
        ensures { left result ≡ mend_steps (record { n = n; id = id; row = row; target = target }) }
    {
        let job = Repair { n, id, row, target };
        MendTry {
            job,
            stage: MendStage::Claiming,
            queue: claim_queue(job),
            holds: ArrayVec::new(),
        }
    }

    /// Begins another rebuild, as `begin` does, in the room of this one.
    pub fn renew(&mut self, n: u8, id: Number, row: RowNo, target: BayNo)
        requires bays { (3 ≤ n) × (n ≤ 16) }
        requires id { (1 ≤ id.0) × (id.0 < 2 ^ 62) }
        requires target { target.0 < n }
        ensures { left self.new ≡ mend_steps (record { n = n; id = id; row = row; target = target }) }
    {
        self.job = Repair { n, id, row, target };
        self.stage = MendStage::Claiming;
        self.queue = claim_queue(self.job);
        self.holds.clear();
    }

    /// The next request, and the bay that it goes to. None exactly where the rebuild has ended.
    pub fn next(&self, _blocks: &[[u8; 64]]) -> Option<(BayNo, Request)>
        ensures value { result ≡ option_map (λ (e : ErrandView). (e.bay, e.request)) (next_errand (left self.now)) }
        ensures ended { IsSome result ↔ (answer (left self.now) ≡ None) }
    {
        match self.queue.first() {
            Some(errand) => Some((errand.bay, errand.request)),
            None => None,
        }
    }

    /// How the rebuild ended, once it has.
    #[tactic(auto, using(raid_base::proofs::RunLemmas::ends_run))]
    pub fn end(&self) -> Option<Ended>
        ensures { result ≡ option_map (λ (f : Finish). f.ended) (answer (left self.now)) }
    {
        match self.stage {
            MendStage::Claiming => None,
            MendStage::Confirming => None,
            MendStage::Putting => None,
            MendStage::Releasing { why } => {
                if self.queue.len() > 0 {
                    None
                } else {
                    Some(why)
                }
            }
        }
    }

    /// How the rebuild ends where the host stops now.
    pub fn quit(&self) -> Ended
        requires { answer (left self.now) ≡ None }
        ensures { Some result ≡ stopped (left self.now) }
    {
        Ended::Refused(Cause::Quit)
    }

    /// Takes the reply to the next request, and draws the number where it is time to.
    pub fn take(&mut self, _blocks: &[[u8; 64]], reply: &Reply, numbers: &mut Numbers)
        requires { answer (left self.old) ≡ None }
        ensures told { record { seen = numbers.new.seen; steps = left self.new } ≡ told numbers.old.host (record { seen = numbers.old.seen; steps = left self.old }) reply.now }
        ensures host { numbers.new.host ≡ numbers.old.host }
    {
        numbers.hear(reply);
        match self.stage {
            MendStage::Claiming => self.take_claim(reply),
            MendStage::Confirming => self.take_confirm(reply, numbers),
            MendStage::Putting => self.take_put(reply),
            MendStage::Releasing { why: _ } => self.queue.advance(),
        }
    }

    /// Takes the reply to a claim.
    #[tactic(auto, using(raid_base::proofs::RunLemmas::told_run))]
    fn take_claim(&mut self, reply: &Reply)
        requires { self.old.stage ≡ Claiming }
        ensures { left self.new ≡ behind (left self.old) reply.now }
    {
        let errand = self.queue.head();
        match hold_of(self.job, errand.bay, reply) {
            Some(hold) => {
                self.holds.push(hold);
                if self.queue.len() > 1 {
                    self.queue.advance();
                } else {
                    self.queue = confirm_queue(self.job);
                    self.stage = MendStage::Confirming;
                }
            }
            None => {
                let cause = mend_why(errand, reply, Cause::Gone { bay: errand.bay });
                keep_grant(&mut self.holds, errand.bay, reply.grant());
                self.queue = release_queue(self.job, self.holds.as_slice());
                self.stage = MendStage::Releasing {
                    why: Ended::Refused(cause),
                };
            }
        }
    }

    /// Takes the reply to the confirm, and draws the number where the note is held.
    #[tactic(auto, using(crate::proofs::MendLemmas::confirms))]
    fn take_confirm(&mut self, reply: &Reply, numbers: &mut Numbers)
        requires { self.old.stage ≡ Confirming }
        ensures told { record { seen = numbers.new.seen; steps = left self.new } ≡ settled numbers.old.host numbers.old.seen (behind (left self.old) reply.now) }
        ensures host { numbers.new.host ≡ numbers.old.host }
    {
        if reply.is_held() {
            let number = numbers.draw();
            self.take_number(number);
        } else {
            let errand = self.queue.head();
            let cause = mend_why(errand, reply, Cause::Changed { row: self.job.row });
            self.queue = release_queue(self.job, self.holds.as_slice());
            self.stage = MendStage::Releasing {
                why: Ended::Refused(cause),
            };
        }
    }

    /// Takes the number: puts the target's cell, unless it showed one.
    fn take_number(&mut self, number: Result<Number, Spent>)
        ensures { left self.new ≡ mend_drawn self.old.job self.old.holds.items number }
    {
        match number {
            Ok(number) => {
                if is_shown(self.job.target, self.holds.as_slice()) {
                    self.queue = release_queue(self.job, self.holds.as_slice());
                    self.stage = MendStage::Releasing { why: Ended::Mended };
                } else {
                    self.queue = put_queue(self.job, self.holds.as_slice(), number);
                    self.stage = MendStage::Putting;
                }
            }
            Err(spent) => {
                self.queue = release_queue(self.job, self.holds.as_slice());
                self.stage = MendStage::Releasing {
                    why: Ended::Refused(Cause::Spent { seen: spent.seen }),
                };
            }
        }
    }

    /// Takes the reply to the put. Once it is done the target's note is gone.
    #[tactic(auto, using(raid_base::proofs::RunLemmas::told_run))]
    fn take_put(&mut self, reply: &Reply)
        requires { self.old.stage ≡ Putting }
        ensures { left self.new ≡ behind (left self.old) reply.now }
    {
        if reply.is_done() {
            self.queue = last_queue(self.job, self.holds.as_slice());
            self.stage = MendStage::Releasing { why: Ended::Mended };
        } else {
            let errand = self.queue.head();
            let cause = put_cause(self.job.row, errand, reply);
            self.queue = release_queue(self.job, self.holds.as_slice());
            self.stage = MendStage::Releasing {
                why: Ended::Refused(cause),
            };
        }
    }
}
