//! What each store keeps to.
ghost use Rattle.std.specs.Prelude.{◌≡◌, ℕ, ◌<◌, ◌≤◌, Bool, IsTrue, List, length, slice_index_or, slice_set, is_ok, if◌then◌else◌, IsErr, IfOk};
ghost use Rattle.raid_base.specs.Cells.{zeros};
ghost use Rattle.raid_base.specs.Counts.{Rises};

use raid_base::{Failed, RowNo};

/// A place that keeps a fixed number of blocks of 64 bytes.
///
/// Its blocks are those of rows 0, 1 and so on. A store over a real file tells no content.
pub trait Store: Drop {
    /// Its blocks, where it tells them.
    ghost content: { Self → List (List ℕ) };

    /// Whether it tells its blocks.
    ghost tells: { Self → Bool };

    /// How many blocks it has.
    ghost size: { Self → ℕ };

    /// How often it has failed. A count at its end stands still, and counts as risen.
    ghost faults: { Self → ℕ };

    /// The number of its blocks.
    fn blocks(&self) -> u32
        ensures { result ≡ size self.now };

    /// The block of a row.
    fn read(&mut self, row: RowNo) -> Result<[u8; 64], Failed>
        requires { row.0 < size self.old }
        ensures value { IsTrue (tells self.old) → IfOk result (λ bytes. bytes ≡ slice_index_or (content self.old) row.0 zeros) }
        ensures content { content self.new ≡ content self.old }
        ensures tells { tells self.new ≡ tells self.old }
        ensures size { size self.new ≡ size self.old }
        ensures faults { faults self.old ≤ faults self.new }
        ensures cause { IsErr result → Rises (faults self.old) (faults self.new) };

    /// Puts the bytes in place of a row's block.
    fn write(&mut self, row: RowNo, bytes: &[u8; 64]) -> Result<(), Failed>
        requires { row.0 < size self.old }
        ensures content { content self.new ≡ (if is_ok result then slice_set (content self.old) row.0 bytes.now else content self.old) }
        ensures tells { tells self.new ≡ tells self.old }
        ensures size { size self.new ≡ size self.old }
        ensures faults { faults self.old ≤ faults self.new }
        ensures cause { IsErr result → Rises (faults self.old) (faults self.new) };

    /// It tells all its blocks or none.
    ghost whole: { (store : Self) → IsTrue (tells store) → length (content store) ≡ size store };
}
