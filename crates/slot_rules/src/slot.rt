//! One slot: which requests it refuses, and what the others leave of it.
//!
//! A request that isn't refused may need the store. So each has a part that says how it is refused and changes
//! nothing, and a part that does what the rule says once the store has done its part. `judge` goes through the
//! first alone, and `serve` through both. The order is that of the rule: an empty bay, a missing cell, a note or a
//! reader in the way, a number that comes too late, and then what is granted.
//!
//! Reply and slot are those of the rule, for whatever blocks the store has. `Slots` calls it for the slot of a row.
ghost use Rattle.std.specs.Prelude.{◌≡◌};
ghost use Rattle.raid_base.specs.Numbers.{greater};
ghost use Rattle.slot_rules.specs.Rules.{raised};

use crate::opened::Open;
use crate::readers::is_old_or_own;
use raid_base::{Ask, Cell, How, Mode, Note, Number, Reply, Request};

/// What the rule makes of an ask before the store is asked.
#[derive(Clone, Copy, Debug, PartialEq, Eq)]
pub enum Verdict {
    /// The reply. The store isn't needed.
    Say(Reply),
    /// The reply shows the block of the ask's row.
    NeedRead,
    /// The block of the ask's row is written.
    NeedWrite,
}

/// What a bay is, apart from its slots.
///
/// `patience` is how many moments a note or a reader stays young. `high` is the greatest read or write number that any
/// slot ever had, and `life` counts how often the device was lost.
#[derive(Clone, Copy, Debug, PartialEq, Eq)]
pub struct BayState {
    pub mode: Mode,
    pub patience: u64,
    pub empty: bool,
    pub high: Number,
    pub life: u32,
}

/// The mark and the numbers of a slot. It has a mark, the `lost` of its cell, unless it is blank.
#[derive(Clone, Copy, Debug, PartialEq, Eq)]
pub struct SlotState {
    pub mark: Option<u16>,
    pub read_no: Number,
    pub write_no: Number,
    pub last: Number,
}

impl SlotState {
    ghost use Rattle.std.specs.Prelude.{◌≡◌, ◌<◌, ◌&&◌, ℕ, None, is_some, IsTrue, false};
    ghost use Rattle.raid_base.specs.declared.numbers.RowNo.{RowNo};
    ghost use Rattle.slot_rules.specs.declared.opened.Open.{Open};
    ghost use Rattle.slot_rules.specs.Rules.{share_rule, claim_rule, seize_rule, confirm_rule};
    ghost use Rattle.slot_rules.specs.Rules.{put_rule, release_rule};
    ghost use Rattle.slot_rules.specs.Tables.{kept_slot};
    ghost use Rattle.slot_rules.specs.Parts.{IsFloorOf, IsWhetherLate, IsAlone, IsSlotVerdict};
    ghost use Rattle.slot_rules.specs.Parts.{RefusesUnderStamps, RefusesShare, RefusesClaimAt};
    ghost use Rattle.slot_rules.specs.Parts.{RefusesPlain, RefusesMend, RefusesSeize};
    ghost use Rattle.slot_rules.specs.Parts.{RefusesConfirm, is_refusal, grant_reply};
    ghost use Rattle.slot_rules.specs.Parts.{verdict_after, block_put, ServedBy, DoneBy};
    ghost use Rattle.slot_rules.specs.Parts.{ServedSlot};

    /// The floor with which it answers where it is missing.
    fn missing_floor(&self, state: &BayState) -> Option<Number>
        ensures { (open_row : Open) → IsFloorOf state.now (kept_slot self.now open_row) result }
    {
        if state.empty {
            return Some(state.high);
        }
        match self.mark {
            Some(_) => None,
            None => Some(self.write_no),
        }
    }

    /// How a share is refused under stamps, where the slot isn't missing.
    fn share_refusal_order(&self, opened: &Open, id: Number) -> Option<Reply>
        ensures refused { RefusesUnderStamps (kept_slot self.now opened.now) id result }
        ensures refusal { IsTrue (is_refusal result) }
    {
        if let Some(holder) = opened.note {
            if holder.origin.0 < id.0 {
                return Some(Reply::Busy { holder });
            }
        }
        if id.0 < self.write_no.0 {
            return Some(Reply::Late {
                above: self.write_no,
            });
        }
        None
    }

    /// How a share is refused.
    fn share_refusal(&self, opened: &Open, state: &BayState, ask: &Ask, id: Number) -> Option<Reply>
        ensures refused { RefusesShare state.now (kept_slot self.now opened.now) ask.now id result }
        ensures refusal { IsTrue (is_refusal result) }
        ensures alone { state.now.mode ≡ Mode.Lock → result ≡ None
            → IsAlone ask.now id opened.now }
    {
        if let Some(floor) = self.missing_floor(state) {
            return Some(Reply::Missing { floor });
        }
        match state.mode {
            Mode::Lock => opened.share_refusal(ask, id),
            Mode::Order => self.share_refusal_order(opened, id),
        }
    }

    /// Whether a claim is late: a plain one under stamps, unless its id is above both numbers of the slot.
    fn is_late(&self, how: How, mode: Mode, id: Number) -> bool
        ensures { IsWhetherLate how mode id self.now result }
    {
        match how {
            How::Plain => match mode {
                Mode::Lock => false,
                Mode::Order => id.0 <= self.read_no.0.max(self.write_no.0),
            },
            How::Seize => false,
            How::Mend => false,
        }
    }

    /// How a claim, plain or to mend, is refused where the slot may be claimed so.
    fn claim_refusal_there(
        &self,
        opened: &Open,
        state: &BayState,
        id: Number,
        how: How,
    ) -> Option<Reply>
        ensures refused { RefusesClaimAt state.now (kept_slot self.now opened.now) id how result }
        ensures refusal { IsTrue (is_refusal result) }
    {
        if let Some(holder) = opened.note {
            return Some(Reply::Busy { holder });
        }
        if let Some(reader) = opened.readers.with_other_id(id) {
            return Some(Reply::Busy {
                holder: reader.as_note(),
            });
        }
        if self.is_late(how, state.mode, id) {
            return Some(Reply::Late {
                above: greater(self.read_no, self.write_no),
            });
        }
        None
    }

    /// How a plain claim is refused.
    fn claim_refusal(&self, opened: &Open, state: &BayState, ask: &Ask, id: Number) -> Option<Reply>
        ensures refused { RefusesPlain state.now (kept_slot self.now opened.now) ask.now id result }
        ensures refusal { IsTrue (is_refusal result) }
    {
        match self.missing_floor(state) {
            Some(floor) => Some(Reply::Missing { floor }),
            None => self.claim_refusal_there(opened, state, id, How::Plain),
        }
    }

    /// How a claim to mend is refused. It takes a blank slot too.
    fn mend_refusal(&self, opened: &Open, state: &BayState, ask: &Ask, id: Number) -> Option<Reply>
        ensures refused { RefusesMend state.now (kept_slot self.now opened.now) ask.now id result }
        ensures refusal { IsTrue (is_refusal result) }
    {
        if state.empty {
            return Some(Reply::Missing { floor: state.high });
        }
        self.claim_refusal_there(opened, state, id, How::Mend)
    }

    /// How a seizure is refused.
    fn seize_refusal(&self, opened: &Open, state: &BayState, ask: &Ask) -> Option<Reply>
        ensures refused { RefusesSeize state.now (kept_slot self.now opened.now) ask.now result }
        ensures refusal { IsTrue (is_refusal result) }
    {
        if state.empty {
            return Some(Reply::Missing { floor: state.high });
        }
        if let Some(note) = opened.note {
            if !is_old_or_own(ask, state.patience, note.host, note.moment) {
                return Some(Reply::Young { note });
            }
        }
        if self.mark.is_none() {
            return Some(Reply::Missing {
                floor: self.write_no,
            });
        }
        match opened.readers.young(ask, state.patience) {
            Some(reader) => Some(Reply::Young {
                note: reader.as_note(),
            }),
            None => None,
        }
    }

    /// How a confirm is refused.
    fn confirm_refusal(&self, opened: &Open, state: &BayState, id: Number) -> Option<Reply>
        ensures refused { RefusesConfirm state.now (kept_slot self.now opened.now) id result }
        ensures refusal { IsTrue (is_refusal result) }
    {
        if opened.has_note(id) {
            return None;
        }
        match self.missing_floor(state) {
            Some(floor) => Some(Reply::Missing { floor }),
            None => Some(Reply::NoNote { life: state.life }),
        }
    }

    /// The reply to a request that is granted, with this cell and the note that it seized.
    fn granted(&self, state: &BayState, cell: Option<Cell>, seized: Option<Note>) -> Reply
        ensures { result ≡ grant_reply state.now self.now cell seized }
    {
        Reply::Granted {
            cell,
            read_no: self.read_no,
            write_no: self.write_no,
            last: self.last,
            life: state.life,
            seized,
        }
    }

    /// The refusal, or what is said where nothing is shown, unless the cell is wanted and there.
    fn verdict(&self, want: bool, refusal: Option<Reply>, grant: Reply) -> Verdict
        ensures { result ≡ verdict_after refusal (want && is_some self.now.mark) grant }
    {
        match refusal {
            Some(reply) => Verdict::Say(reply),
            None => {
                if want && self.mark.is_some() {
                    Verdict::NeedRead
                } else {
                    Verdict::Say(grant)
                }
            }
        }
    }

    /// What the rule makes of an ask of this slot before the store is asked.
    pub fn judge(&self, opened: &Open, state: &BayState, ask: &Ask) -> Verdict
        ensures { IsSlotVerdict state.now (kept_slot self.now opened.now) ask.now
            ask.now.what result }
    {
        match ask.what {
            Request::Share { id, want, .. } => {
                let refusal = self.share_refusal(opened, state, ask, id);
                self.verdict(want, refusal, self.granted(state, None, None))
            }
            Request::Claim { id, how, want, .. } => self.judge_claim(
                opened, state, ask, id, how, want,
            ),
            Request::Confirm { id, want, .. } => {
                let refusal = self.confirm_refusal(opened, state, id);
                self.verdict(want, refusal, Reply::Held { cell: None })
            }
            Request::Put { id, .. } => {
                if opened.has_note(id) {
                    Verdict::NeedWrite
                } else {
                    Verdict::Say(Reply::NoNote { life: state.life })
                }
            }
            Request::Release { id, .. } => Verdict::Say(opened.release_reply(state, id)),
            Request::Lose => Verdict::Say(Reply::Emptied),
            Request::Fit => Verdict::Say(Reply::Fitted),
        }
    }

    fn judge_claim(
        &self,
        opened: &Open,
        state: &BayState,
        ask: &Ask,
        id: Number,
        how: How,
        want: bool,
    ) -> Verdict
        ensures { (row : RowNo) (mask : ℕ) →
            IsSlotVerdict state.now (kept_slot self.now opened.now) ask.now
            (Request.Claim row id how mask want) result }
    {
        match how {
            How::Plain => {
                let refusal = self.claim_refusal(opened, state, ask, id);
                self.verdict(want, refusal, self.granted(state, None, None))
            }
            How::Mend => {
                let refusal = self.mend_refusal(opened, state, ask, id);
                self.verdict(want, refusal, self.granted(state, None, None))
            }
            How::Seize => {
                let refusal = self.seize_refusal(opened, state, ask);
                self.verdict(want, refusal, self.granted(state, None, opened.note))
            }
        }
    }

    /// Serves a share, showing this cell.
    fn share(
        &mut self,
        opened: &mut Open,
        state: &BayState,
        ask: &Ask,
        id: Number,
        cell: Option<Cell>,
    ) -> Reply
        requires { ask.now.host.0 < 16 }
        ensures { ServedBy (λ bay slot. share_rule bay slot ask.now id)
            state.now cell (kept_slot self.old opened.old) result (kept_slot self.new opened.new) }
    {
        if let Some(refusal) = self.share_refusal(opened, state, ask, id) {
            return refusal;
        }
        let reply = self.granted(state, cell, None);
        match state.mode {
            Mode::Lock => opened.admit(ask, id),
            Mode::Order => self.read_no = greater(self.read_no, id),
        }
        reply
    }

    /// Serves a plain claim, showing this cell.
    fn claim(
        &self,
        opened: &mut Open,
        state: &BayState,
        ask: &Ask,
        id: Number,
        mask: u16,
        cell: Option<Cell>,
    ) -> Reply
        ensures { ServedBy (λ bay slot. claim_rule How.Plain bay slot ask.now id mask)
            state.now cell (kept_slot self.now opened.old) result (kept_slot self.now opened.new) }
    {
        if let Some(refusal) = self.claim_refusal(opened, state, ask, id) {
            return refusal;
        }
        let reply = self.granted(state, cell, None);
        opened.open_note(ask, id, id, mask);
        opened.readers.remove(id);
        reply
    }

    /// Serves a claim to mend, showing this cell.
    fn mend(
        &self,
        opened: &mut Open,
        state: &BayState,
        ask: &Ask,
        id: Number,
        mask: u16,
        cell: Option<Cell>,
    ) -> Reply
        ensures { ServedBy (λ bay slot. claim_rule How.Mend bay slot ask.now id mask)
            state.now cell (kept_slot self.now opened.old) result (kept_slot self.now opened.new) }
    {
        if let Some(refusal) = self.mend_refusal(opened, state, ask, id) {
            return refusal;
        }
        let reply = self.granted(state, cell, None);
        opened.open_note(ask, id, id, mask);
        opened.readers.remove(id);
        reply
    }

    /// Serves a seizure, showing this cell. The origin and the mask of the seized note are handed on.
    fn seize(
        &self,
        opened: &mut Open,
        state: &BayState,
        ask: &Ask,
        id: Number,
        mask: u16,
        cell: Option<Cell>,
    ) -> Reply
        ensures { ServedBy (λ bay slot. seize_rule bay slot ask.now id mask)
            state.now cell (kept_slot self.now opened.old) result (kept_slot self.now opened.new) }
    {
        if let Some(refusal) = self.seize_refusal(opened, state, ask) {
            if refusal.is_missing() && !state.empty {
                opened.note = None;
            }
            return refusal;
        }
        let reply = self.granted(state, cell, opened.note);
        match opened.note {
            Some(note) => opened.open_note(ask, id, note.origin, note.mask),
            None => opened.open_note(ask, id, id, mask),
        }
        opened.readers.clear();
        reply
    }

    /// Serves a confirm, showing this cell.
    fn confirm(&self, opened: &Open, state: &BayState, id: Number, cell: Option<Cell>) -> Reply
        ensures { ServedBy (λ bay slot. confirm_rule bay slot id)
            state.now cell (kept_slot self.now opened.now) result (kept_slot self.now opened.now) }
    {
        match self.confirm_refusal(opened, state, id) {
            Some(refusal) => refusal,
            None => Reply::Held { cell },
        }
    }

    /// Serves a put of this cell, whose block was written.
    fn put(
        &mut self,
        opened: &mut Open,
        state: &BayState,
        id: Number,
        number: Number,
        cell: Cell,
    ) -> Reply
        ensures { DoneBy (λ bay slot. put_rule bay slot id number cell false)
            (block_put opened.old.note id cell) state.now
            (kept_slot self.old opened.old) result (kept_slot self.new opened.new) }
    {
        if !opened.has_note(id) {
            return Reply::NoNote { life: state.life };
        }
        self.mark = Some(cell.lost);
        self.write_no = greater(self.write_no, number);
        self.last = id;
        opened.note = None;
        Reply::Done
    }

    /// Serves a release.
    fn release(
        &mut self,
        opened: &mut Open,
        state: &BayState,
        id: Number,
        number: Option<Number>,
    ) -> Reply
        ensures { DoneBy (λ bay slot. release_rule bay slot id number) (λ block. block) state.now
            (kept_slot self.old opened.old) result (kept_slot self.new opened.new) }
    {
        if opened.has_note(id) {
            opened.note = None;
            return Reply::Done;
        }
        if opened.readers.with_id(id).is_none() {
            return Reply::NoNote { life: state.life };
        }
        if let Some(number) = number {
            self.read_no = greater(self.read_no, number);
        }
        opened.readers.remove(id);
        Reply::Done
    }

    /// Serves an ask of this slot: shows this cell where it was read, or takes it where it was written.
    pub fn serve(
        &mut self,
        opened: &mut Open,
        state: &BayState,
        ask: &Ask,
        cell: Option<Cell>,
    ) -> Reply
        requires { ask.now.host.0 < 16 }
        ensures { ServedSlot state.now ask.now cell
            (kept_slot self.old opened.old) result (kept_slot self.new opened.new) }
    {
        match ask.what {
            Request::Share { id, .. } => self.share(opened, state, ask, id, cell),
            Request::Claim { id, how, mask, .. } => self.serve_claim(
                opened, state, ask, id, how, mask, cell,
            ),
            Request::Confirm { id, .. } => self.confirm(opened, state, id, cell),
            Request::Put {
                id,
                number,
                cell: new,
                ..
            } => self.put(opened, state, id, number, new),
            Request::Release { id, number, .. } => self.release(opened, state, id, number),
            Request::Lose => Reply::Emptied,
            Request::Fit => Reply::Fitted,
        }
    }

    fn serve_claim(
        &self,
        opened: &mut Open,
        state: &BayState,
        ask: &Ask,
        id: Number,
        how: How,
        mask: u16,
        cell: Option<Cell>,
    ) -> Reply
        ensures { ServedBy (λ bay slot. claim_rule how bay slot ask.now id mask)
            state.now cell (kept_slot self.now opened.old) result (kept_slot self.now opened.new) }
    {
        match how {
            How::Plain => self.claim(opened, state, ask, id, mask, cell),
            How::Mend => self.mend(opened, state, ask, id, mask, cell),
            How::Seize => self.seize(opened, state, ask, id, mask, cell),
        }
    }
}

/// The greater of two numbers.
fn greater(x: Number, y: Number) -> Number
    ensures { result ≡ greater x y }
{
    Number(x.0.max(y.0))
}

/// What `high` is once a number of a slot went from one to the other.
pub fn raised(high: Number, before: Number, after: Number) -> Number
    ensures { result ≡ raised high before after }
{
    if before.0 < after.0 {
        greater(high, after)
    } else {
        high
    }
}
