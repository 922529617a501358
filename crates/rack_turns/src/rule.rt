//! The rule of the table of bays, and what each step on the table tells.
//!
//! A turn begins, or its holder is met; a turn ends; a pass is given, or taken back. No other step changes a word, a slot or
//! what a pass knows.
use crate::view::View;
use atomic_table::{Join, Play, Seat, Shared, Split, TableRule};
use bay_device::Bay;
use block_store::Store;
use std::marker::{Brand, PhantomData};
use std::snapshot::Snapshot;

/// The table's words are the turns of the bays: 0, or one more than the host that has the turn.
pub struct Turns;

impl<D: Store> TableRule<Bay<D>, View, Snapshot<Vec<Bay<D>>>> for Turns {
    ghost use Rattle.rack_turns.specs.Ruling.{Racked};
    ghost use Rattle.rack_turns.specs.Shadows.{shadow, shadows};
    ghost use Rattle.rack_turns.specs.Views.{first_view};

    ghost holds = { λ key s. Racked shadow (shadows key.value.items) s };

    ghost first = { λ key. first_view (shadows key.value.items) };
}

/// The bays as threads see them.
pub type Shelf<D> = Shared<Bay<D>, View, Snapshot<Vec<Bay<D>>>, Turns>;

/// A pass that may have a bay in hand.
pub type Sitter<D> = Seat<Bay<D>, View>;

/// A turn begins, or the holder of the turn is met.
pub struct Begins;

impl<D: Store> Play<Bay<D>, View> for Begins {
    ghost use Rattle.rack_turns.specs.Plays.{began};
    ghost use Rattle.rack_turns.specs.Shadows.{shadow};

    ghost then = { began shadow };
}

/// A turn ends.
pub struct Ends;

impl<D: Store> Play<Bay<D>, View> for Ends {
    ghost use Rattle.rack_turns.specs.Plays.{ended};
    ghost use Rattle.rack_turns.specs.Shadows.{shadow};

    ghost then = { ended shadow };
}

/// The host that is given a pass, and its quota.
pub trait Gift {
    ghost use Rattle.std.specs.Prelude.{ℕ};

    ghost host: { ℕ };

    ghost quota: { ℕ };
}

impl Gift for Brand {
    ghost host = { 0 };

    ghost quota = { 0 };
}

/// A pass is given.
pub struct Cut<J> {
    gift: PhantomData<J>,
}

impl<J: Gift> Split<View> for Cut<J> {
    ghost use Rattle.rack_turns.specs.Views.{giving, new_guest};

    ghost left = { λ v. giving J.host J.quota v };

    ghost right = { λ v. new_guest J.host J.quota v };
}

/// A pass is taken back.
pub struct Glue;

impl Join<View> for Glue {
    ghost use Rattle.rack_turns.specs.Views.{gone, joined};

    ghost both = { joined };

    ghost spent = { gone };
}
