//! One turn of a bay: it is taken, the bay answers, and it is given back.
ghost use Rattle.std.specs.Prelude.{◌≡◌, ◌≢◌, ◌<◌, ◌≤◌, ◌^◌, [], IfNone, IfSome, IsTrue, length, slice_index, vec_len};
ghost use Rattle.raid_base.specs.Fits.{fits};
ghost use Rattle.bay_device.specs.Handling.{IsAskOfBay};
ghost use Rattle.rack_turns.specs.Shadows.{shadow};
ghost use Rattle.rack_turns.specs.Views.{total, cap_of, greatest_clock, with_meeting};
ghost use Rattle.rack_turns.specs.Plays.{HasBegun, HasEnded};
ghost use Rattle.rack_turns.specs.Passes.{IsReady, HoldsBay, HasServed, MayEnd, IsAskAt, TriedBy};

use crate::rack::Try;
use crate::rule::{Begins, Ends, Shelf, Sitter};
use block_store::Store;
use raid_base::{Answer, Ask, BayNo, HostNo};

/// A place inside of each turn. It tells nothing and changes nothing.
pub trait Gate {
    /// Called while the bay is out with a pass of this host.
    fn inside(&self, host: HostNo, bay: BayNo);
}

/// Does nothing.
#[derive(Clone, Copy, Debug, Default)]
pub struct NoGate;

impl Gate for NoGate {
    fn inside(&self, _host: HostNo, _bay: BayNo) {}
}

/// Tells the moments at which hosts ask. Nothing is promised of them.
pub trait Clock {
    /// The moment now.
    fn now(&self) -> u64;
}

/// Takes the turn of a bay, and the bay with it. Or else the host that has the turn.
fn begin<D: Store>(
    top: &Shelf<D>,
    sitter: &mut Sitter<D>,
    host: HostNo,
    bay: BayNo,
) -> Option<HostNo>
    requires table { sitter.old.table_id ≡ top.now.table_id }
    requires bay { (bay.0 < top.now.table_id.words) × (bay.0 < top.now.table_id.slots) }
    requires ready { IsReady host.0 sitter.old.me.0 × (sitter.old.me.1 ≡ []) }
    ensures same { (sitter.new.table_id ≡ sitter.old.table_id) × (sitter.new.id ≡ sitter.old.id) }
    ensures begun { IfNone result (HasBegun shadow bay.0 sitter.old.me sitter.new.me) }
    ensures met { IfSome result (λ holder.
        (sitter.new.me ≡ (with_meeting bay.0 holder.0 sitter.old.me.0, [])) × (holder.0 ≢ host.0)) }
{
    let found = top.compare_exchange::<Begins>(sitter, bay.0 as usize, 0, host.0 as u64 + 1);
    if found == 0 {
        return None;
    }
    Some(HostNo((found - 1) as u8))
}

/// The bay in hand answers.
fn serve<D: Store>(top: &Shelf<D>, sitter: &mut Sitter<D>, bay: BayNo, ask: &Ask) -> Answer
    requires table { sitter.old.table_id ≡ top.now.table_id }
    requires held { HoldsBay bay.0 sitter.old.me (λ now.
        IsAskOfBay (length now.slots.slots) ask.now × (vec_len now.journal < now.cap)) }
    ensures same { (sitter.new.table_id ≡ sitter.old.table_id) × (sitter.new.id ≡ sitter.old.id) }
    ensures view { sitter.new.me.0 ≡ sitter.old.me.0 }
    ensures served { HoldsBay bay.0 sitter.old.me (λ before. HoldsBay bay.0 sitter.new.me (λ after.
        HasServed ask.now result (shadow before) (shadow after))) }
    ensures fits { IsTrue (fits ask.now.what result.reply) }
{
    let held = sitter.slot_mut(top, bay.0 as usize);
    held.handle(ask)
}

/// Gives the bay back, and with it the turn.
fn end<D: Store>(top: &Shelf<D>, sitter: &mut Sitter<D>, bay: BayNo)
    requires table { sitter.old.table_id ≡ top.now.table_id }
    requires bay { (bay.0 < top.now.table_id.words) × (bay.0 < top.now.table_id.slots) }
    requires ready { MayEnd shadow bay.0 sitter.old.me }
    ensures same { (sitter.new.table_id ≡ sitter.old.table_id) × (sitter.new.id ≡ sitter.old.id) }
    ensures ended { HasEnded shadow bay.0 sitter.old.me sitter.new.me }
{
    top.store::<Ends>(sitter, bay.0 as usize, 0);
}

/// One turn of a bay, where no other host has it.
pub(crate) fn turn<D: Store, G: Gate>(
    top: &Shelf<D>,
    sitter: &mut Sitter<D>,
    bay: BayNo,
    ask: &Ask,
    gate: &G,
) -> Try
    requires table { sitter.old.table_id ≡ top.now.table_id }
    requires bay { (bay.0 < top.now.table_id.words) × (bay.0 < top.now.table_id.slots) }
    requires one_of { bay.0 < length sitter.old.me.0.openings }
    requires caps { total cap_of sitter.old.me.0.openings < 2 ^ 62 }
    requires ready { IsReady ask.now.host.0 sitter.old.me.0 × (sitter.old.me.1 ≡ []) }
    requires left { 0 < slice_index sitter.old.me.0.standing.left bay.0 }
    requires clock { ask.now.clock ≤ greatest_clock sitter.old.me.0.asked }
    requires ask { IsAskAt sitter.old.me.0.openings bay.0 ask.now }
    ensures same { (sitter.new.table_id ≡ sitter.old.table_id) × (sitter.new.id ≡ sitter.old.id) }
    ensures empty { sitter.new.me.1 ≡ [] }
    ensures tried { TriedBy bay.0 ask.now sitter.old.me.0 sitter.new.me.0 result }
{
    if let Some(holder) = begin(top, sitter, ask.host, bay) {
        return Try::Engaged { holder };
    }
    gate.inside(ask.host, bay);
    let answer = serve(top, sitter, bay, ask);
    end(top, sitter, bay);
    Try::Answer(answer)
}
