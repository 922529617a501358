//! The whole input of a run, read from a source to its end.
ghost use Rattle.std.specs.Prelude.{◌≡◌, ◌≤◌, ◌<◌, ◌+◌, ◌++◌, [], true, IfOk, length};
ghost use Rattle.raid_base.specs.Counts.{Rises};

use raid_base::Source;
use std::alloc::Global;
use thiserror::Error;

/// How many bytes are asked of the source at a time.
const PIECE: usize = 4096;

/// Why the input was not read to its end.
#[derive(Clone, Copy, Debug, PartialEq, Eq, Error)]
pub enum InputFault {
    /// The source failed.
    #[error("read fault")]
    Read,
    /// The source held more bytes than are taken.
    #[error("too long")]
    TooLong,
    /// There was no memory for the bytes.
    #[error("memory")]
    NoMemory,
}

/// Moves the next bytes of the source behind those that are there, and says how many: none only at the source's end.
fn append_next<S: Source>(source: &mut S, bytes: &mut Vec<u8>) -> Result<usize, InputFault>
    ensures count { IfOk result (λ n. length bytes.new.items ≡ length bytes.old.items + n) }
    ensures whole { S.tells source.old ≡ true → IfOk result (λ n. bytes.new.items ++ S.left source.new ≡ bytes.old.items ++ S.left source.old) }
    ensures end { S.tells source.old ≡ true → result ≡ Ok 0 → S.left source.new ≡ [] }
    ensures long { result ≡ Err InputFault.TooLong → ⊥ }
    ensures later { S.faults source.old ≤ S.faults source.new }
    ensures read { result ≡ Err InputFault.Read → Rises (S.faults source.old) (S.faults source.new) }
    ensures telling { S.tells source.new ≡ S.tells source.old }
{
    let mut piece = [0; PIECE];
    let count = match source.read(&mut piece) {
        Ok(count) => count,
        Err(_) => return Err(InputFault::Read),
    };
    match bytes.extend_from_slice(&piece[..count]) {
        Ok(()) => Ok(count),
        Err(_) => Err(InputFault::NoMemory),
    }
}

/// All bytes of a source, read to its end, where they are at most `most`.
///
/// # Errors
/// `Read` where the source fails, `TooLong` where it gives more than `most` bytes, and `NoMemory` where there is no room
/// for them. The bytes that were taken until then are lost.
pub fn read_all<S: Source>(
    alloc: Global,
    source: &mut S,
    most: usize,
) -> Result<Vec<u8>, InputFault>
    ensures all { S.tells source.old ≡ true → IfOk result (λ bytes. (bytes.items ≡ S.left source.old) × (S.left source.new ≡ [])) }
    ensures few { IfOk result (λ bytes. length bytes.items ≤ most) }
    ensures long { S.tells source.old ≡ true → result ≡ Err InputFault.TooLong → length (S.left source.new) + most < length (S.left source.old) }
    ensures later { S.faults source.old ≤ S.faults source.new }
    ensures read { result ≡ Err InputFault.Read → Rises (S.faults source.old) (S.faults source.new) }
    ensures telling { S.tells source.new ≡ S.tells source.old }
{
    let mut bytes = Vec::new(alloc);
    while append_next(source, &mut bytes)? != 0 {
        if bytes.len() > most {
            return Err(InputFault::TooLong);
        }
    }
    Ok(bytes)
}
