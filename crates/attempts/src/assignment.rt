//! What an attempt is to do.
ghost use Rattle.std.specs.Prelude.{◌≡◌, ◌<◌, ◌≤◌, IsTrue, length};
ghost use Rattle.arrayvec.specs.ArrayVec.{array_vec_len};
ghost use Rattle.attempts.specs.Parts.{are_parts};

use raid_base::{Mode, Number};
use virtual_objects::RowParts;

/// The units that an attempt is to read or write, on n bays, and the id that it has.
#[derive(Debug, Drop)]
pub struct Assignment {
    pub mode: Mode,
    pub n: u8,
    pub id: Number,
    pub parts: RowParts,
    pub ghost bays: { (3 ≤ n) × (n ≤ 16) },
    pub ghost formed: { IsTrue (are_parts n parts.items) },
}
