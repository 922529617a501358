//! A recovery as a machine of requests.
//!
//! It seizes every slot of its row, the parity first, from holders that are old enough, and confirms its note on
//! the parity. Then it draws a number, and goes by what it was shown. A row with all its slots gets its parity
//! anew. One in which a unit is missing gets one only if it is torn, and that unit is then named lost. One without
//! a parity stays as it is, and the operator alone may recover it. At last the recovery gives its notes back.
//!
//! A refused recovery keeps the notes that it has seized, so that no write comes into a row that may be torn, and
//! gives back the others. What is left of the machine is at each step what is left of the recovery's definition,
//! whatever the replies. A host's `Attempt` calls it.
ghost use Rattle.std.specs.Prelude.{◌≡◌, ◌+◌, ◌^◌, ◌<◌, ◌≤◌, ◌↔◌, Some, None, true, length, IsSome, option_map, unwrap_or};
ghost use Rattle.raid_base.specs.Steps.{next_errand, behind, stopped, answer, settled, told};
ghost use Rattle.raid_base.specs.declared.messages.Errand.{Errand as ErrandView};
ghost use Rattle.raid_base.specs.declared.jobs.Cause.TheVariants.{Changed};
ghost use Rattle.attempts.specs.Taking.{refusal};
ghost use Rattle.attempts.specs.Recovery.{is_as_before, stays};
ghost use Rattle.stripe_recovery.specs.Stages.{is_kept, quit_end};

use crate::slots::{
    closing_queue, confirm_queue, data_queue, leaving_queue, parity_claim, refused_queue,
    unit_claims, whole_part,
};
use crate::stages::{RecoverStage, Verdict};
use crate::verdict::{put_queue, verdict};
use attempts::Rescue;
use attempts::queue::Queue;
use attempts::replies::refusal;
use attempts::rows::Taken;
use attempts::whole_rows::put_cause;
use place_numbers::Numbers;
use raid_base::{BayNo, Cause, Ended, Grant, HostNo, Number, Reply, Request, RowNo, Spent};
use stripe_layout::parity_bay;

/// An attempt to recover one row.
#[derive(Debug, Drop)]
pub struct RecoverTry {
    job: Rescue,
    stage: RecoverStage,
    taken: Taken,
    queue: Queue,
    ghost bays: { (3 ≤ job.n) × (job.n ≤ 16) },
    ghost kept: { is_kept stage (length queue) taken ≡ true },
}

impl RecoverTry {
    ghost use Rattle.attempts.specs.Taking.{Finish};
    ghost use Rattle.attempts.specs.Recovery.{recover_steps, seize_units, parity_taken, recover_drawn, recover_by, recover_refused};
    ghost use Rattle.stripe_recovery.specs.Verdicts.{verdict_in, is_within};
    ghost use Rattle.stripe_recovery.specs.Tries.{left};
    ghost use Rattle.stripe_recovery.specs.declared.stages.RecoverStage.TheVariants.{Parity, Units, Confirming, Putting};

    /// Begins a recovery of a row by a host, on n devices.
    pub fn begin(n: u8, host: HostNo, id: Number, row: RowNo) -> RecoverTry
        requires bays { (3 ≤ n) × (n ≤ 16) }
        requires id { (1 ≤ id.0) × (id.0 < 2 ^ 62) }
        ensures { left result ≡ recover_steps (record { n = n; host = host; id = id; row = row }) }
    {
        let job = Rescue { n, host, id, row };
        RecoverTry {
            job,
            stage: RecoverStage::Parity,
            taken: Taken::begin(whole_part(job)),
            queue: parity_claim(job),
        }
    }

    /// Begins another recovery, as `begin` does, in the room of this one.
    pub fn renew(&mut self, n: u8, host: HostNo, id: Number, row: RowNo)
        requires bays { (3 ≤ n) × (n ≤ 16) }
        requires id { (1 ≤ id.0) × (id.0 < 2 ^ 62) }
        ensures { left self.new ≡ recover_steps (record { n = n; host = host; id = id; row = row }) }
    {
        self.job = Rescue { n, host, id, row };
        self.stage = RecoverStage::Parity;
        self.taken.renew(whole_part(self.job));
        self.queue = parity_claim(self.job);
    }

    /// The next request, and the bay that it goes to. None exactly where the recovery has ended.
    pub fn next(&self, _blocks: &[[u8; 64]]) -> Option<(BayNo, Request)>
        ensures value { result ≡ option_map (λ (e : ErrandView). (e.bay, e.request)) (next_errand (left self.now)) }
        ensures ended { IsSome result ↔ (answer (left self.now) ≡ None) }
    {
        match self.queue.first() {
            Some(errand) => Some((errand.bay, errand.request)),
            None => None,
        }
    }

    /// How the recovery ended, once it has.
    #[tactic(auto, using(raid_base::proofs::RunLemmas::ends_run))]
    pub fn end(&self) -> Option<Ended>
        ensures { result ≡ option_map (λ (f : Finish). f.ended) (answer (left self.now)) }
    {
        if self.queue.len() > 0 {
            return None;
        }
        match self.stage {
            RecoverStage::Parity => None,
            RecoverStage::Units => None,
            RecoverStage::Confirming => None,
            RecoverStage::Putting { .. } => None,
            RecoverStage::Closing { number, lost } => Some(Ended::Recovered {
                number,
                closed: true,
                lost,
            }),
            RecoverStage::Releasing { why } => Some(why),
        }
    }

    /// How the recovery ends where the host stops now.
    pub fn quit(&self) -> Ended
        requires { answer (left self.now) ≡ None }
        ensures { Some result ≡ stopped (left self.now) }
    {
        quit_end(self.stage)
    }

    /// Takes the reply to the next request, and draws the number where it is time to.
    pub fn take(&mut self, _blocks: &[[u8; 64]], reply: &Reply, numbers: &mut Numbers)
        requires { answer (left self.old) ≡ None }
        ensures told { record { seen = numbers.new.seen; steps = left self.new } ≡ told numbers.old.host (record { seen = numbers.old.seen; steps = left self.old }) reply.now }
        ensures host { numbers.new.host ≡ numbers.old.host }
    {
        numbers.hear(reply);
        match self.stage {
            RecoverStage::Parity => self.take_parity(reply),
            RecoverStage::Units => self.take_unit(reply),
            RecoverStage::Confirming => self.take_confirm(reply, numbers),
            RecoverStage::Putting { number, lost } => self.take_put(number, lost, reply),
            RecoverStage::Closing { number: _, lost: _ } => self.queue.advance(),
            RecoverStage::Releasing { why: _ } => self.queue.advance(),
        }
    }

    /// Takes the reply to the claim of the parity.
    fn take_parity(&mut self, reply: &Reply)
        requires { self.old.stage ≡ Parity }
        ensures { left self.new ≡ behind (left self.old) reply.now }
    {
        let bay = self.queue.head().bay;
        match refusal(None, self.taken.missing(), bay, reply) {
            Some(cause) => self.refuse(cause),
            None => {
                self.taken.keep_parity(bay, reply.grant());
                self.after_parity();
            }
        }
    }

    /// Goes on to the units. Only the operator, host 0, recovers a row whose parity is missing.
    fn after_parity(&mut self)
        requires { length self.old.taken.row.wanted ≡ 0 }
        ensures { left self.new ≡ parity_taken self.old.job self.old.taken self.old.taken.row.parity }
    {
        match self.taken.row().parity() {
            Some(_) => self.seize_units(),
            None => {
                if self.job.host.0 == 0 {
                    self.seize_units();
                } else {
                    let bay = parity_bay(self.job.n, self.job.row);
                    self.refuse(Cause::Gone { bay });
                }
            }
        }
    }

    /// Seizes the units.
    fn seize_units(&mut self)
        requires { length self.old.taken.row.wanted ≡ 0 }
        ensures { left self.new ≡ seize_units self.old.job self.old.taken }
    {
        self.queue = unit_claims(self.job);
        self.stage = RecoverStage::Units;
    }

    /// Takes the reply to the claim of a unit.
    fn take_unit(&mut self, reply: &Reply)
        requires { self.old.stage ≡ Units }
        ensures { left self.new ≡ behind (left self.old) reply.now }
    {
        let bay = self.queue.head().bay;
        match refusal(None, self.taken.missing(), bay, reply) {
            Some(cause) => self.refuse(cause),
            None => {
                self.taken.keep_wanted(bay, reply.grant());
                if self.queue.len() > 1 {
                    self.queue.advance();
                } else {
                    self.queue = confirm_queue(self.job);
                    self.stage = RecoverStage::Confirming;
                }
            }
        }
    }

    /// Takes the reply to the confirm, and draws the number where the parity is as before.
    fn take_confirm(&mut self, reply: &Reply, numbers: &mut Numbers)
        requires { self.old.stage ≡ Confirming }
        ensures told { record { seen = numbers.new.seen; steps = left self.new } ≡ settled numbers.old.host numbers.old.seen (behind (left self.old) reply.now) }
        ensures host { numbers.new.host ≡ numbers.old.host }
    {
        let bay = self.queue.head().bay;
        if stays(&self.taken, bay, reply) {
            let number = numbers.draw();
            self.take_number(number);
        } else {
            let cause = confirm_cause(&self.taken, self.job.row, bay, reply);
            self.refuse(cause);
        }
    }

    /// Takes the number.
    fn take_number(&mut self, number: Result<Number, Spent>)
        requires { length self.old.taken.row.wanted ≤ 16 }
        ensures { left self.new ≡ recover_drawn self.old.job self.old.taken.row number }
    {
        match number {
            Ok(number) => {
                let verdict = verdict(self.job, self.taken.row());
                self.recover(number, verdict);
            }
            Err(spent) => self.refuse(Cause::Spent { seen: spent.seen }),
        }
    }

    /// Does what the verdict says.
    fn recover(&mut self, number: Number, verdict: Verdict)
        requires few { length self.old.taken.row.wanted ≤ 16 }
        requires within { is_within verdict ≡ true }
        ensures { left self.new ≡ recover_by self.old.job self.old.taken.row number (verdict_in verdict) }
    {
        match verdict {
            Verdict::Leaves => {
                self.queue = leaving_queue(self.job, self.taken.row());
                self.stage = RecoverStage::Releasing {
                    why: Ended::Recovered {
                        number,
                        closed: true,
                        lost: None,
                    },
                };
            }
            Verdict::Sums { lost } => {
                self.queue = put_queue(self.job, self.taken.row(), number, lost);
                self.stage = RecoverStage::Putting { number, lost };
            }
        }
    }

    /// Takes the reply to the put.
    fn take_put(&mut self, number: Number, lost: Option<u8>, reply: &Reply)
        requires { self.old.stage ≡ Putting number lost }
        ensures { left self.new ≡ behind (left self.old) reply.now }
    {
        if reply.is_done() {
            self.queue = closing_queue(self.job, self.taken.row());
            self.stage = RecoverStage::Closing { number, lost };
        } else {
            let errand = self.queue.head();
            let cause = put_cause(self.job.row, errand, reply);
            self.queue = data_queue(self.job, self.taken.row());
            self.stage = RecoverStage::Releasing {
                why: Ended::Refused(cause),
            };
        }
    }

    /// Gives back what was granted without seizing a note, and ends as refused.
    fn refuse(&mut self, cause: Cause)
        ensures { left self.new ≡ recover_refused self.old.job self.old.taken.row cause }
    {
        self.queue = refused_queue(self.job, self.taken.row());
        self.stage = RecoverStage::Releasing {
            why: Ended::Refused(cause),
        };
    }
}

/// Whether a parity that was granted is held, and one that was missing is missing.
fn is_as_before(parity: Option<Grant>, reply: &Reply) -> bool
    ensures { result ≡ is_as_before parity reply.now }
{
    match parity {
        Some(_) => reply.is_held(),
        None => reply.is_missing(),
    }
}

/// Whether a reply to the confirm shows the parity as it was.
fn stays(taken: &Taken, bay: BayNo, reply: &Reply) -> bool
    ensures { result ≡ stays taken.now bay reply.now }
{
    match refusal(None, taken.missing(), bay, reply) {
        Some(_) => false,
        None => is_as_before(taken.row().parity(), reply),
    }
}

/// Why a reply to the confirm refuses the recovery.
fn confirm_cause(taken: &Taken, row: RowNo, bay: BayNo, reply: &Reply) -> Cause
    ensures { result ≡ unwrap_or (refusal None taken.now.missing bay reply.now) (Changed row) }
{
    match refusal(None, taken.missing(), bay, reply) {
        Some(cause) => cause,
        None => Cause::Changed { row },
    }
}

/// How a recovery ends where the host stops in this stage. Once its put is done the row is recovered, but not closed.
fn quit_end(stage: RecoverStage) -> Ended
    ensures { result ≡ quit_end stage }
{
    match stage {
        RecoverStage::Parity => Ended::Refused(Cause::Quit),
        RecoverStage::Units => Ended::Refused(Cause::Quit),
        RecoverStage::Confirming => Ended::Refused(Cause::Quit),
        RecoverStage::Putting { .. } => Ended::Refused(Cause::Quit),
        RecoverStage::Closing { number, lost } => Ended::Recovered {
            number,
            closed: false,
            lost,
        },
        RecoverStage::Releasing { .. } => Ended::Refused(Cause::Quit),
    }
}
