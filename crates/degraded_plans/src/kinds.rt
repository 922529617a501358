//! What a write finds missing of a row.

ghost use Rattle.std.specs.Prelude.{◌≡◌, ℕ, ◌<◌, ◌≤◌};
ghost use Rattle.std.specs.Option.{ForSome};
ghost use Rattle.degraded_plans.specs.Kinds.{kind};

use raid_base::{BayNo, RowNo};
use raid_xor::has_unit;
use stripe_layout::unit_at;

/// What a write finds missing of a row.
#[derive(Clone, Copy, Debug, PartialEq, Eq)]
pub enum RowKind {
    /// Nothing is missing.
    Whole,
    /// The parity is missing.
    NoParity,
    /// A unit that is wanted is missing.
    NoTarget { unit: u8 },
    /// A unit that isn't wanted is missing.
    NoOther { unit: u8 },
}

/// What is missing of a row for a write of the units in the mask, where a bay of the `n` is.
pub fn kind(n: u8, row: RowNo, mask: u16, missing: Option<BayNo>) -> RowKind
    requires least { 3 ≤ n }
    requires most { n ≤ 16 }
    requires bay_in { ForSome missing (λ bay. bay.0 < n) }
    ensures { result ≡ kind n row mask missing }
{
    let Some(bay) = missing else {
        return RowKind::Whole;
    };
    let Some(unit) = unit_at(n, row, bay) else {
        return RowKind::NoParity;
    };
    if has_unit(mask, unit) {
        RowKind::NoTarget { unit }
    } else {
        RowKind::NoOther { unit }
    }
}

#[cfg(test)]
mod tests {
    use super::*;

    #[test]
    fn tells_kinds_of_rows(rt: HostRuntime) {
        let row = RowNo(1);
        assert_eq!(rt; kind(5, row, 0b0001, None), RowKind::Whole);
        assert_eq!(rt; kind(5, row, 0b0001, Some(BayNo(3))), RowKind::NoParity);
        assert_eq!(rt;
            kind(5, row, 0b0001, Some(BayNo(4))),
            RowKind::NoTarget { unit: 0 }
        );
        assert_eq!(rt;
            kind(5, row, 0b0001, Some(BayNo(2))),
            RowKind::NoOther { unit: 3 }
        );
    }
}
