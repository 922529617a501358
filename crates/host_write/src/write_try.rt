//! A write as a machine of requests.
//!
//! Row by row it claims the parity and the wanted units, and where its plan needs them it shares the row's other
//! units. Then it confirms each row's parity: a row that has changed since refuses the write, and until then
//! nothing was put. The new parities are made of what these replies have shown. Now it draws its number; under
//! stamps its id is the number. Then it puts row by row, the units before the parity, and at last gives back its
//! readers.
//!
//! A put that fails, or whose note was seized, ends the puts of its row alone, and the write is then done in part.
//! A refused write gives back all that it holds. What is left of the machine is at each step what is left of the
//! write's definition, whatever the replies. A host's `Attempt` calls it: `next` for the request in hand, `take`
//! with the reply, `end` once nothing is left, and `quit` where the host stops.
ghost use Rattle.std.specs.Prelude.{◌≡◌, ℕ, List, ◌+◌, ◌*◌, ◌^◌, ◌<◌, ◌≤◌, [], ◌↔◌, Some, None, true, length, IsTrue, IsSome, option_map};
ghost use Rattle.arrayvec.specs.ArrayVec.{array_vec_len};
ghost use Rattle.attempts.specs.Parts.{blocks_in};
ghost use Rattle.virtual_objects.specs.RowParts.{AreRowParts};
ghost use Rattle.host_write.specs.Stages.{is_kept, is_settled};
ghost use Rattle.raid_base.specs.Steps.{behind, stopped, answer};

use crate::answered::{add_trouble, data_answered, parity_answered};
use crate::blocks::unit_on;
use crate::claims::{after_parity, after_small, claim_wanted, end_row, parity_claim, refused};
use crate::confirmed::Confirmed;
use crate::confirms::{after_confirm, confirm_cause, parity_or_change, unconfirmed};
use crate::puts::Puts;
use crate::putting::{after_data, next_put, settled};
use crate::stages::{Ahead, WriteStage};
use attempts::assignment::Assignment;
use attempts::queue::Queue;
use attempts::replies::{behind_from, refusal};
use attempts::rows::Taken;
use place_numbers::Numbers;
use raid_base::{BayNo, Cause, Ended, Mode, Number, Reply, Request};
use virtual_objects::RowParts;

/// An attempt to write the units of some rows.
#[derive(Debug, Drop)]
pub struct WriteTry {
    job: Assignment,
    stage: WriteStage,
    taken: Taken,
    confirmed: Confirmed,
    puts: Puts,
    queue: Queue,
    ghost kept: { is_kept stage job.n job.parts.items (length queue) taken confirmed puts ≡ true },
    ghost awake: { is_settled stage ≡ true },
}

impl WriteTry {
    ghost use Rattle.host_write.specs.Answers.{ended_in, next_request};
    ghost use Rattle.raid_base.specs.First.{first_errand};
    ghost use Rattle.raid_base.specs.Replies.{grant_of};
    ghost use Rattle.host_write.specs.Tries.{left, block_count, IsBegun, IsTold, GoesBehind, IsTaken, IsRefused};
    ghost use Rattle.host_write.specs.declared.stages.WriteStage.TheVariants.{ClaimParity, ClaimWanted, ClaimSmall, ShareUntil, ShareAfter, Confirm, PutData, PutParity};

    /// Begins a write of these parts of a job, on n devices.
    #[tactic(auto, using(attempts::proofs::PartLemmas::formed, crate::proofs::ClaimLemmas::parts))]
    pub fn begin(mode: Mode, n: u8, id: Number, parts: RowParts) -> WriteTry
        requires bays { (3 ≤ n) × (n ≤ 16) }
        requires id { (1 ≤ id.0) × (id.0 < 2 ^ 62) }
        requires parts { AreRowParts n parts.items }
        ensures count { block_count result ≡ blocks_in parts.items }
        ensures left { IsBegun mode n id parts.items result }
    {
        let part = parts[0];
        let job = Assignment { mode, n, id, parts };
        let queue = parity_claim(&job, part);
        WriteTry {
            job,
            stage: WriteStage::ClaimParity,
            taken: Taken::begin(part),
            confirmed: Confirmed::new(),
            puts: Puts::new(),
            queue,
        }
    }

    /// Begins another write, as `begin` does, in the room of this one.
    #[tactic(auto, using(attempts::proofs::PartLemmas::formed, crate::proofs::ClaimLemmas::parts))]
    pub fn renew(&mut self, mode: Mode, n: u8, id: Number, parts: RowParts)
        requires bays { (3 ≤ n) × (n ≤ 16) }
        requires id { (1 ≤ id.0) × (id.0 < 2 ^ 62) }
        requires parts { AreRowParts n parts.items }
        ensures count { block_count self.new ≡ blocks_in parts.items }
        ensures left { IsBegun mode n id parts.items self.new }
    {
        let part = parts[0];
        let job = Assignment { mode, n, id, parts };
        self.queue = parity_claim(&job, part);
        self.job = job;
        self.stage = WriteStage::ClaimParity;
        self.taken.renew(part);
        self.confirmed.clear();
        self.puts.clear();
    }

    /// The next request, and the bay that it goes to. None exactly where the write has ended.
    pub fn next(&self, blocks: &[[u8; 64]]) -> Option<(BayNo, Request)>
        ensures value { result ≡ next_request (left self.now blocks.now) }
        ensures ended { IsSome result ↔ (answer (left self.now blocks.now) ≡ None) }
    {
        match self.queue.first() {
            Some(errand) => Some((errand.bay, errand.request)),
            None => None,
        }
    }

    /// How the write ended, once it has.
    #[tactic(auto, using(crate::proofs::TryLemmas::tries))]
    pub fn end(&self) -> Option<Ended>
        ensures { (blocks : List (List ℕ)) → result ≡ ended_in (answer (left self.now blocks)) }
    {
        if self.queue.len() > 0 {
            return None;
        }
        match self.stage {
            WriteStage::ClaimParity => None,
            WriteStage::ClaimWanted => None,
            WriteStage::ClaimSmall => None,
            WriteStage::ShareUntil => None,
            WriteStage::ShareAfter => None,
            WriteStage::Confirm => None,
            WriteStage::Draw => None,
            WriteStage::PutData { .. } => None,
            WriteStage::PutParity { .. } => None,
            WriteStage::Finish { number } => Some(self.puts.written(&self.job, number)),
            WriteStage::Release { cause } => Some(Ended::Refused(cause)),
        }
    }

    /// How the write ends where the host stops now.
    pub fn quit(&self) -> Ended
        requires { (blocks : List (List ℕ)) × (answer (left self.now blocks) ≡ None) }
        ensures { (blocks : List (List ℕ)) → Some result ≡ stopped (left self.now blocks) }
    {
        match self.stage {
            WriteStage::ClaimParity => Ended::Refused(Cause::Quit),
            WriteStage::ClaimWanted => Ended::Refused(Cause::Quit),
            WriteStage::ClaimSmall => Ended::Refused(Cause::Quit),
            WriteStage::ShareUntil => Ended::Refused(Cause::Quit),
            WriteStage::ShareAfter => Ended::Refused(Cause::Quit),
            WriteStage::Confirm => Ended::Refused(Cause::Quit),
            WriteStage::Draw => unreachable!(),
            WriteStage::PutData { number, .. } => self.puts.part_by_quit(number),
            WriteStage::PutParity { number, .. } => self.puts.part_by_quit(number),
            WriteStage::Finish { number } => self.puts.part_by_quit(number),
            WriteStage::Release { .. } => Ended::Refused(Cause::Quit),
        }
    }

    /// Takes the reply to the next request, and draws the number where it is time to.
    ///
    /// `blocks` are the blocks to write, the same at each call.
    pub fn take(&mut self, blocks: &[[u8; 64]], reply: &Reply, numbers: &mut Numbers)
        requires blocks { length blocks.now ≡ block_count self.old }
        requires asks { answer (left self.old blocks.now) ≡ None }
        ensures told { IsTold blocks.now reply.now numbers.old numbers.new self.old self.new }
        ensures host { numbers.new.host ≡ numbers.old.host }
        ensures count { block_count self.new ≡ block_count self.old }
    {
        numbers.hear(reply);
        match self.stage {
            WriteStage::ClaimParity => self.take_parity(reply),
            WriteStage::ClaimWanted => self.take_wanted(reply),
            WriteStage::ClaimSmall => self.take_small(reply),
            WriteStage::ShareUntil => self.take_until(reply),
            WriteStage::ShareAfter => self.take_after(reply),
            WriteStage::Confirm => self.take_confirm(blocks, reply, numbers),
            WriteStage::Draw => unreachable!(),
            WriteStage::PutData { number, row } => self.take_data(blocks, number, row, reply),
            WriteStage::PutParity { number, row } => self.take_put(blocks, number, row, reply),
            WriteStage::Finish { .. } => self.queue.advance(),
            WriteStage::Release { .. } => self.queue.advance(),
        }
    }

    /// Gives back all that is held, where a reply refuses the write while it claims.
    #[cold]
    #[inline(never)]
    fn refuse(&mut self, cause: Cause)
        requires { length self.old.taken.before < 8 }
        ensures left { IsRefused self.old cause self.new }
        ensures job { self.new.job ≡ self.old.job }
    {
        let Ahead { stage, queue } = refused(&self.job, &self.taken, cause);
        self.stage = stage;
        self.queue = queue;
    }

    /// Takes the reply to the claim of a parity.
    fn take_parity(&mut self, reply: &Reply)
        requires { self.old.stage ≡ ClaimParity }
        ensures left { GoesBehind self.old reply.now self.new }
        ensures job { self.new.job ≡ self.old.job }
    {
        let bay = self.queue.head().bay;
        let least = behind_from(self.job.mode, self.job.id);
        match refusal(least, self.taken.missing(), bay, reply) {
            Some(cause) => self.refuse(cause),
            None => {
                self.taken.keep_parity(bay, reply.grant());
                let Ahead { stage, queue } = after_parity(&self.job, &self.taken);
                self.stage = stage;
                self.queue = queue;
            }
        }
    }

    /// Takes the reply to the claim of a wanted unit, of which the last ends the row.
    fn take_wanted(&mut self, reply: &Reply)
        requires { self.old.stage ≡ ClaimWanted }
        ensures left { GoesBehind self.old reply.now self.new }
        ensures job { self.new.job ≡ self.old.job }
    {
        let bay = self.queue.head().bay;
        let least = behind_from(self.job.mode, self.job.id);
        match refusal(least, self.taken.missing(), bay, reply) {
            Some(cause) => self.refuse(cause),
            None => {
                self.taken.keep_wanted(bay, reply.grant());
                if self.queue.len() > 1 {
                    self.queue.advance();
                } else {
                    let Ahead { stage, queue } = end_row(&self.job, &mut self.taken);
                    self.confirmed.clear();
                    self.stage = stage;
                    self.queue = queue;
                }
            }
        }
    }

    /// Takes the reply to the claim of a wanted unit with its cell.
    fn take_small(&mut self, reply: &Reply)
        requires { self.old.stage ≡ ClaimSmall }
        ensures left { GoesBehind self.old reply.now self.new }
        ensures job { self.new.job ≡ self.old.job }
    {
        let bay = self.queue.head().bay;
        let least = behind_from(self.job.mode, self.job.id);
        match refusal(least, self.taken.missing(), bay, reply) {
            Some(cause) => self.refuse(cause),
            None => {
                self.taken.keep_wanted(bay, reply.grant());
                if self.queue.len() > 1 {
                    self.queue.advance();
                } else {
                    let Ahead { stage, queue } = after_small(&self.job, &mut self.taken);
                    self.confirmed.clear();
                    self.stage = stage;
                    self.queue = queue;
                }
            }
        }
    }

    /// Takes the reply to the share of another unit, of which the first that is missing ends the shares.
    fn take_until(&mut self, reply: &Reply)
        requires { self.old.stage ≡ ShareUntil }
        ensures left { GoesBehind self.old reply.now self.new }
        ensures job { self.new.job ≡ self.old.job }
    {
        let bay = self.queue.head().bay;
        match reply.grant() {
            Some(grant) => {
                self.taken.keep_other(bay, Some(grant));
                if self.queue.len() > 1 {
                    self.queue.advance();
                } else {
                    let Ahead { stage, queue } = claim_wanted(&self.job, &self.taken, false);
                    self.stage = stage;
                    self.queue = queue;
                }
            }
            None => self.stop_until(bay, reply),
        }
    }

    /// Takes a reply to such a share that grants nothing.
    fn stop_until(&mut self, bay: BayNo, reply: &Reply)
        requires stage { self.old.stage ≡ ShareUntil }
        requires bay { bay ≡ (first_errand self.old.queue).bay }
        requires none { grant_of reply.now ≡ None }
        ensures left { GoesBehind self.old reply.now self.new }
        ensures job { self.new.job ≡ self.old.job }
    {
        let least = behind_from(self.job.mode, self.job.id);
        match refusal(least, self.taken.missing(), bay, reply) {
            Some(cause) => self.refuse(cause),
            None => {
                self.taken.keep_other(bay, None);
                let Ahead { stage, queue } = claim_wanted(&self.job, &self.taken, true);
                self.stage = stage;
                self.queue = queue;
            }
        }
    }

    /// Takes the reply to the share of another unit, where a wanted one is missing.
    fn take_after(&mut self, reply: &Reply)
        requires { self.old.stage ≡ ShareAfter }
        ensures left { GoesBehind self.old reply.now self.new }
        ensures job { self.new.job ≡ self.old.job }
    {
        let bay = self.queue.head().bay;
        let least = behind_from(self.job.mode, self.job.id);
        match refusal(least, self.taken.missing(), bay, reply) {
            Some(cause) => self.refuse(cause),
            None => {
                self.taken.keep_other(bay, reply.grant());
                if self.queue.len() > 1 {
                    self.queue.advance();
                } else {
                    let Ahead { stage, queue } = end_row(&self.job, &mut self.taken);
                    self.confirmed.clear();
                    self.stage = stage;
                    self.queue = queue;
                }
            }
        }
    }

    /// Takes the reply to the confirm of a row, after the last of which the number is drawn or known.
    fn take_confirm(&mut self, blocks: &[[u8; 64]], reply: &Reply, numbers: &mut Numbers)
        requires stage { self.old.stage ≡ Confirm }
        requires blocks { length blocks.now ≡ blocks_in self.old.job.parts.items }
        ensures told { IsTaken blocks.now reply.now numbers.old numbers.new self.old self.new }
        ensures host { numbers.new.host ≡ numbers.old.host }
        ensures job { self.new.job ≡ self.old.job }
    {
        let bay = self.queue.head().bay;
        let least = behind_from(self.job.mode, self.job.id);
        let missing = self.taken.missing();
        let row = &self.taken.before()[self.confirmed.len()];
        let place = row.part().row;
        match parity_or_change(least, missing, bay, row, reply) {
            Some(parity) => {
                self.confirmed.push(row, parity);
                let rows = self.confirmed.as_slice();
                let ahead = after_confirm(&self.job, blocks, &self.taken, rows, &mut self.puts);
                let Ahead { stage, queue } = settled(
                    &self.job,
                    blocks,
                    &self.taken,
                    rows,
                    &mut self.puts,
                    ahead,
                    numbers,
                );
                self.stage = stage;
                self.queue = queue;
            }
            None => {
                let cause = confirm_cause(least, missing, bay, place, reply);
                let Ahead { stage, queue } = unconfirmed(&self.job, &self.taken, cause);
                self.stage = stage;
                self.queue = queue;
            }
        }
    }

    /// Takes the reply to the put of a unit.
    fn take_data(&mut self, blocks: &[[u8; 64]], number: Number, row: usize, reply: &Reply)
        requires stage { self.old.stage ≡ PutData number row }
        requires blocks { length blocks.now ≡ blocks_in self.old.job.parts.items }
        ensures left { left self.new blocks.now ≡ behind (left self.old blocks.now) reply.now }
        ensures job { self.new.job ≡ self.old.job }
    {
        let bay = self.queue.head().bay;
        let rows = self.confirmed.as_slice();
        let this = &rows[row];
        let part = this.part();
        let unit = unit_on(self.job.n, part.row, bay);
        if data_answered(&self.job, this, &mut self.puts, unit, reply) {
            if self.queue.len() > 1 {
                self.queue.advance();
            } else {
                let Ahead { stage, queue } = after_data(
                    &self.job,
                    blocks,
                    rows,
                    &mut self.puts,
                    number,
                    row,
                );
                self.stage = stage;
                self.queue = queue;
            }
        } else {
            add_trouble(&mut self.puts, part, bay, reply);
            let Ahead { stage, queue } = next_put(
                &self.job,
                blocks,
                rows,
                &mut self.puts,
                number,
                row + 1,
            );
            self.stage = stage;
            self.queue = queue;
        }
    }

    /// Takes the reply to the put of a parity.
    fn take_put(&mut self, blocks: &[[u8; 64]], number: Number, row: usize, reply: &Reply)
        requires stage { self.old.stage ≡ PutParity number row }
        requires blocks { length blocks.now ≡ blocks_in self.old.job.parts.items }
        ensures left { left self.new blocks.now ≡ behind (left self.old blocks.now) reply.now }
        ensures job { self.new.job ≡ self.old.job }
    {
        let bay = self.queue.head().bay;
        let rows = self.confirmed.as_slice();
        let this = &rows[row];
        let part = this.part();
        if parity_answered(&self.job, this, &mut self.puts, reply) {
            let Ahead { stage, queue } = next_put(
                &self.job,
                blocks,
                rows,
                &mut self.puts,
                number,
                row + 1,
            );
            self.stage = stage;
            self.queue = queue;
        } else {
            add_trouble(&mut self.puts, part, bay, reply);
            let Ahead { stage, queue } = next_put(
                &self.job,
                blocks,
                rows,
                &mut self.puts,
                number,
                row + 1,
            );
            self.stage = stage;
            self.queue = queue;
        }
    }
}
