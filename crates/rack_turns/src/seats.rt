//! Seats at the table are cut in two, and put together again.
ghost use Rattle.std.specs.Prelude.{◌≡◌, ◌<◌, [], None};
ghost use Rattle.rack_turns.specs.declared.view.Role.TheVariants.{First, Guest};
ghost use Rattle.rack_turns.specs.Views.{giving, new_guest, joined};
ghost use Rattle.rack_turns.specs.Passes.{MayGive};

use crate::rule::{Cut, Gift, Glue, Shelf, Sitter};
use block_store::Store;
use raid_base::HostNo;
use std::marker::Brand;

/// A seat for a host, which may ask so often at each bay.
fn cut<D: Store, J: Gift>(
    top: &Shelf<D>,
    sitter: &mut Sitter<D>,
    _host: HostNo,
    _quota: u32,
) -> Sitter<D>
    requires gift { (_host.0 ≡ J.host) × (_quota ≡ J.quota) }
    requires table { (sitter.old.table_id ≡ top.now.table_id) × (0 < top.now.table_id.words) }
    requires may { MayGive J.host J.quota sitter.old.me.0 }
    ensures same { (sitter.new.table_id ≡ sitter.old.table_id) × (sitter.new.id ≡ sitter.old.id) }
    ensures first { sitter.new.me ≡ (giving J.host J.quota sitter.old.me.0, sitter.old.me.1) }
    ensures table { result.table_id ≡ sitter.old.table_id }
    ensures guest { result.me ≡ (new_guest J.host J.quota sitter.old.me.0, []) }
{
    top.split_seat::<Cut<J>>(sitter)
}

/// The same, for a host and a quota that are known as it runs.
pub(crate) fn cut_for<D: Store>(
    top: &Shelf<D>,
    sitter: &mut Sitter<D>,
    host: HostNo,
    quota: u32,
) -> Sitter<D>
    requires table { (sitter.old.table_id ≡ top.now.table_id) × (0 < top.now.table_id.words) }
    requires may { MayGive host.0 quota sitter.old.me.0 }
    ensures same { (sitter.new.table_id ≡ sitter.old.table_id) × (sitter.new.id ≡ sitter.old.id) }
    ensures first { sitter.new.me ≡ (giving host.0 quota sitter.old.me.0, sitter.old.me.1) }
    ensures table { result.table_id ≡ sitter.old.table_id }
    ensures guest { result.me ≡ (new_guest host.0 quota sitter.old.me.0, []) }
{
    cut::<D, Brand>(top, sitter, host, quota)
}

/// Takes a seat back.
pub(crate) fn glue<D: Store>(top: &Shelf<D>, sitter: &mut Sitter<D>, other: Sitter<D>)
    requires table { (sitter.old.table_id ≡ top.now.table_id) × (0 < top.now.table_id.words) }
    requires first { sitter.old.me.0.role ≡ First }
    requires other { (other.table_id ≡ top.now.table_id) × (other.me.1 ≡ []) }
    requires guest { (other.me.0.role ≡ Guest) × (other.me.0.turn ≡ None) }
    ensures same { (sitter.new.table_id ≡ sitter.old.table_id) × (sitter.new.id ≡ sitter.old.id) }
    ensures joined { sitter.new.me ≡ (joined sitter.old.me.0 other.me.0, sitter.old.me.1) }
{
    top.join_seat::<Glue>(sitter, other);
}
