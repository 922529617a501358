//! Parts of row 5 and of row 6 of four bays.
ghost use Rattle.std.specs.Prelude.{◌≡◌};
ghost use Rattle.virtual_objects.specs.RowParts.{AreRowParts};
ghost use Rattle.attempts.specs.Parts.{blocks_in};

use crate::rows::ROW;
use arrayvec::ArrayVec;
use raid_base::{RowNo, RowPart};
use virtual_objects::RowParts;

/// Unit 1, of which there is a small plan.
pub fn one_unit() -> RowParts
    ensures parts { AreRowParts 4 result.items }
    ensures count { blocks_in result.items ≡ 1 }
{
    let mut parts = ArrayVec::new();
    parts.push(RowPart {
        row: ROW,
        mask: 2,
        at: 0,
        count: 1,
    });
    parts
}

/// Units 0 and 1: the other is read, and the parity made anew.
pub fn two_units() -> RowParts
    ensures parts { AreRowParts 4 result.items }
    ensures count { blocks_in result.items ≡ 2 }
{
    let mut parts = ArrayVec::new();
    parts.push(RowPart {
        row: ROW,
        mask: 3,
        at: 0,
        count: 2,
    });
    parts
}

pub fn whole_row() -> RowParts
    ensures parts { AreRowParts 4 result.items }
    ensures count { blocks_in result.items ≡ 3 }
{
    let mut parts = ArrayVec::new();
    parts.push(RowPart {
        row: ROW,
        mask: 7,
        at: 0,
        count: 3,
    });
    parts
}

/// Unit 2 of row 5 and then unit 0 of row 6.
pub fn two_rows() -> RowParts
    ensures parts { AreRowParts 4 result.items }
    ensures count { blocks_in result.items ≡ 2 }
{
    let mut parts = ArrayVec::new();
    parts.push(RowPart {
        row: ROW,
        mask: 4,
        at: 0,
        count: 1,
    });
    parts.push(RowPart {
        row: RowNo(6),
        mask: 1,
        at: 1,
        count: 1,
    });
    parts
}
