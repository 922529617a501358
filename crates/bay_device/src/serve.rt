//! An ask is judged, the store does its part where it is needed, and the slots change as the rule says.
ghost use Rattle.std.specs.Prelude.{◌≡◌, ◌≤◌, ◌<◌, ◌-◌, ◌^◌, List, ℕ, IsTrue, Some, true, length};
ghost use Rattle.raid_base.specs.Counts.{HasCause};
ghost use Rattle.raid_base.specs.Replies.{is_fault};
ghost use Rattle.slot_rules.specs.Tables.{with_blocks};
ghost use Rattle.slot_rules.specs.Serving.{IsAskFor, row_of, verdict_of};
ghost use Rattle.slot_rules.specs.Handling.{Handled};
ghost use Rattle.bay_device.specs.Handling.{IsHandledSomehow, KeepsOthers};
ghost use Rattle.raid_base.specs.declared.numbers.Number.{Number};

use block_store::Store;
use raid_base::{Ask, Cell, Reply, Request, RowNo};
use slot_rules::{Slots, Verdict, row_of};

/// Answers an ask that shows the block of this row.
fn serve_read<D: Store>(slots: &mut Slots, store: &mut D, row: RowNo, ask: &Ask) -> Reply
    requires asks { IsAskFor (length slots.old.slots) ask.now }
    requires rows { length slots.old.slots ≤ D.size store.old }
    requires life { slots.old.state.life < 2 ^ 32 - 1 }
    requires row { row_of ask.now.what ≡ Some row }
    requires verdict { (blocks : List (List ℕ)) → verdict_of (with_blocks slots.old blocks) ask.now ≡ Verdict.NeedRead }
    ensures told { IsTrue (D.tells store.old) → Handled slots.old (D.content store.old) ask.now result slots.new (D.content store.new) }
    ensures somehow { IsHandledSomehow ask.now result slots.old slots.new }
    ensures rows { length slots.new.slots ≡ length slots.old.slots }
    ensures kept { is_fault result ≡ true → slots.new ≡ slots.old }
    ensures cause { HasCause (D.faults store.old) (D.faults store.new) (is_fault result) }
    ensures tells { D.tells store.new ≡ D.tells store.old }
    ensures size { D.size store.new ≡ D.size store.old }
    ensures others { KeepsOthers (length slots.old.slots) (D.content store.old) (D.content store.new) }
{
    let lost = slots.mark(row);
    match store.read(row) {
        Ok(bytes) => slots.apply(ask, Some(Cell { bytes, lost })),
        Err(_) => Reply::Fault,
    }
}

/// Answers an ask that writes this cell to this row.
fn serve_write<D: Store>(
    slots: &mut Slots,
    store: &mut D,
    row: RowNo,
    cell: &Cell,
    ask: &Ask,
) -> Reply
    requires asks { IsAskFor (length slots.old.slots) ask.now }
    requires rows { length slots.old.slots ≤ D.size store.old }
    requires life { slots.old.state.life < 2 ^ 32 - 1 }
    requires put { (id : Number) × (n : Number) × (ask.now.what ≡ Request.Put row id n cell.now) }
    requires verdict { (blocks : List (List ℕ)) → verdict_of (with_blocks slots.old blocks) ask.now ≡ Verdict.NeedWrite }
    ensures told { IsTrue (D.tells store.old) → Handled slots.old (D.content store.old) ask.now result slots.new (D.content store.new) }
    ensures somehow { IsHandledSomehow ask.now result slots.old slots.new }
    ensures rows { length slots.new.slots ≡ length slots.old.slots }
    ensures kept { is_fault result ≡ true → slots.new ≡ slots.old }
    ensures cause { HasCause (D.faults store.old) (D.faults store.new) (is_fault result) }
    ensures tells { D.tells store.new ≡ D.tells store.old }
    ensures size { D.size store.new ≡ D.size store.old }
    ensures others { KeepsOthers (length slots.old.slots) (D.content store.old) (D.content store.new) }
{
    match store.write(row, &cell.bytes) {
        Ok(()) => slots.apply(ask, Some(*cell)),
        Err(_) => Reply::Fault,
    }
}

/// Answers an ask by the rule.
pub fn serve<D: Store>(slots: &mut Slots, store: &mut D, ask: &Ask) -> Reply
    requires asks { IsAskFor (length slots.old.slots) ask.now }
    requires rows { length slots.old.slots ≤ D.size store.old }
    requires life { slots.old.state.life < 2 ^ 32 - 1 }
    ensures told { IsTrue (D.tells store.old) → Handled slots.old (D.content store.old) ask.now result slots.new (D.content store.new) }
    ensures somehow { IsHandledSomehow ask.now result slots.old slots.new }
    ensures rows { length slots.new.slots ≡ length slots.old.slots }
    ensures kept { is_fault result ≡ true → slots.new ≡ slots.old }
    ensures cause { HasCause (D.faults store.old) (D.faults store.new) (is_fault result) }
    ensures tells { D.tells store.new ≡ D.tells store.old }
    ensures size { D.size store.new ≡ D.size store.old }
    ensures others { KeepsOthers (length slots.old.slots) (D.content store.old) (D.content store.new) }
{
    match slots.judge(ask) {
        Verdict::Say(_) => slots.apply(ask, None),
        Verdict::NeedRead => match row_of(ask.what) {
            Some(row) => serve_read(slots, store, row, ask),
            None => unreachable!(),
        },
        Verdict::NeedWrite => match ask.what {
            Request::Put { row, cell, .. } => serve_write(slots, store, row, &cell, ask),
            _ => unreachable!(),
        },
    }
}
