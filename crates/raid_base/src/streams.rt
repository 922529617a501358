//! Where scripts come from and where reports go: a source of bytes, and a sink for them.
//!
//! Both may fail, and count their failures. A source or sink that tells its content, as those in memory do, lets
//! contracts say which bytes moved. The adapters over the standard library's readers and writers tell nothing of theirs.
//!
//! A sink may hold back the last of what was written to it, so that bytes leave in blocks, until it is flushed.
ghost use Rattle.std.specs.Prelude.{◌≡◌, ◌≤◌, ◌<◌, ◌++◌, ℕ, List, [], Bool, true, Ok, IfOk, OnOk, OnErr, is_err, length};
ghost use Rattle.raid_base.specs.Counts.{HasCause};
ghost use Rattle.raid_base.specs.Streams.{Moves, AppendsPart, EndsWith, HoldsRest};

use crate::status::Failed;

pub mod memory;
pub mod standard;

/// Where bytes come from.
pub trait Source {
    /// The bytes that are left, where it tells.
    ghost left: { Self → List ℕ };

    /// Whether it tells what is left.
    ghost tells: { Self → Bool };

    /// How often it has failed.
    ghost faults: { Self → ℕ };

    /// Moves some first bytes to the head of the piece and says how many: none, where there is room, only at the end.
    /// Fails only where the count of faults rises in this call, and then leaves what was left.
    fn read(&mut self, piece: &mut [u8]) -> Result<usize, Failed>
        ensures bound { IfOk result (λ n. n ≤ length piece.old) }
        ensures moved { tells self.old ≡ true → IfOk result (λ n. Moves n (left self.old) (left self.new) piece.new) }
        ensures end { tells self.old ≡ true → result ≡ Ok 0 → 0 < length piece.old → left self.old ≡ [] }
        ensures stays { tells self.old ≡ true → OnErr result (left self.new ≡ left self.old) }
        ensures cause { HasCause (faults self.old) (faults self.new) (is_err result) }
        ensures telling { tells self.new ≡ tells self.old };
}

/// Where bytes go.
pub trait Sink {
    /// The bytes that were written, where it tells. What is held back counts as written.
    ghost written: { Self → List ℕ };

    /// The last of them, which it holds back.
    ghost held: { Self → List ℕ };

    /// Whether it tells what was written.
    ghost tells: { Self → Bool };

    /// How often it has failed.
    ghost faults: { Self → ℕ };

    /// Appends the piece, of which it may hold back any last part. Fails only where the count of faults rises in this
    /// call, and then has appended a first part of the piece, which may be empty.
    fn write_all(&mut self, piece: &[u8]) -> Result<(), Failed>
        ensures appended { tells self.old ≡ true → OnOk result (written self.new ≡ written self.old ++ piece.now) }
        ensures part { tells self.old ≡ true → OnErr result (AppendsPart (written self.old) (written self.new) piece.now) }
        ensures cause { HasCause (faults self.old) (faults self.new) (is_err result) }
        ensures telling { tells self.new ≡ tells self.old };

    /// Lets go of all that is held back. Fails only where the count of faults rises in this call, and then has let go of a
    /// first part of it, which may be empty.
    fn flush(&mut self) -> Result<(), Failed>
        ensures emptied { OnOk result (held self.new ≡ []) }
        ensures part { tells self.old ≡ true → OnErr result (HoldsRest (held self.old) (held self.new)) }
        ensures stays { tells self.old ≡ true → written self.new ≡ written self.old }
        ensures cause { HasCause (faults self.old) (faults self.new) (is_err result) }
        ensures telling { tells self.new ≡ tells self.old };

    /// What is held back is the end of what was written.
    ghost last: { (sink : Self) → tells sink ≡ true → EndsWith (written sink) (held sink) };
}
