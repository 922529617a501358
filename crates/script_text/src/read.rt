//! A script, read from its text: the first line that no script has is told, and what is wrong with it.
//!
//! `lines` reads each line into the script that the lines before it tell, and says which line may come next; `jobs`
//! reads the jobs of a host. After the end line nothing may follow.
//!
//! Each script has one text, and what is read is the script with this text. A fault names the first line such that
//! the lines up to it begin no script's text; refused memory is told apart from that. The top call reads its input
//! so.
ghost use Rattle.std.specs.Prelude.{◌≡◌, ◌<◌, ◌^◌, ℕ, IfOk, Some, length};
ghost use Rattle.raid_base.specs.declared.status.Kind.{Kind};
ghost use Rattle.script_text.specs.Faults.{fault_in, is_ended};
ghost use Rattle.script_text.specs.Ranges.{IsScript};
ghost use Rattle.script_text.specs.Script.{Script as ScriptValue};
ghost use Rattle.script_text.specs.Steps.{fault_at};
ghost use Rattle.script_text.specs.Text.{script_text};

use crate::lines::{LineFault, Stage, least_script, read_line};
use crate::script::Script;
use raid_base::{Kind, NoMemory};
use std::alloc::Global;
use text_lines::first_line;
use thiserror::Error;

/// Why no script was read.
#[derive(Clone, Copy, Debug, PartialEq, Eq, Error)]
pub enum ScriptFault {
    /// The lines up to this one, counted from 1, begin no script's text.
    #[error("bad script at line {line}: {kind}")]
    Bad { line: u32, kind: Kind },
    #[error("memory")]
    NoMemory,
}

/// Whether the last line of a script has come.
fn is_ended(stage: Stage) -> bool
    ensures { result ≡ is_ended stage }
{
    match stage {
        Stage::Ended => true,
        _ => false,
    }
}

/// The fault of a line of this number.
fn fault_at(line: u32, fault: LineFault) -> ScriptFault
    ensures { result ≡ fault_at line fault }
{
    match fault {
        LineFault::Bad(kind) => ScriptFault::Bad { line, kind },
        LineFault::NoMemory => ScriptFault::NoMemory,
    }
}

fn read_text(alloc: Global, bytes: &[u8]) -> Result<Script, ScriptFault>
    requires short { length bytes.now < 2 ^ 32 }
    ensures script { IfOk result (λ script. IsScript script × (bytes.now ≡ script_text script)) }
    ensures bad { (line : ℕ) → (kind : Kind) → result ≡ Err (ScriptFault.Bad line kind) → fault_in bytes.now ≡ Some (line, kind) }
{
    let mut script = match least_script(alloc, 3, 1) {
        Ok(script) => script,
        Err(NoMemory) => return Err(ScriptFault::NoMemory),
    };
    let mut stage = Stage::Raid;
    let mut line = 1;
    let mut left = bytes;
    'lines: while let Some(first) = first_line(left) {
        if is_ended(stage) {
            let kind = Kind::Tail;
            return Err(ScriptFault::Bad { line, kind });
        }
        match read_line(alloc, stage, &mut script, first.line) {
            Ok(next) => stage = next,
            Err(fault) => return Err(fault_at(line, fault)),
        }
        line += 1;
        left = first.rest;
    }
    if !is_ended(stage) {
        let kind = Kind::End;
        return Err(ScriptFault::Bad { line, kind });
    }
    if !left.is_empty() {
        let kind = Kind::Tail;
        return Err(ScriptFault::Bad { line, kind });
    }
    Ok(script)
}

/// The script of which the bytes are the text.
///
/// Where they are no script's text, `Bad` tells the first line such that the lines up to it begin none. `NoMemory` comes
/// for want of memory alone.
pub fn read_script(alloc: Global, bytes: &[u8]) -> Result<Script, ScriptFault>
    requires short { length bytes.now < 2 ^ 32 }
    ensures script { IfOk result (λ script. IsScript script × (bytes.now ≡ script_text script)) }
    ensures same { (script : ScriptValue) → IsScript script → bytes.now ≡ script_text script → IfOk result (λ read. read ≡ script) }
    ensures no_fault { (script : ScriptValue) → IsScript script → bytes.now ≡ script_text script → (line : ℕ) → (kind : Kind) → result ≡ Err (ScriptFault.Bad line kind) → ⊥ }
    ensures bad { (line : ℕ) → (kind : Kind) → result ≡ Err (ScriptFault.Bad line kind) → fault_in bytes.now ≡ Some (line, kind) }
{
    read_text(alloc, bytes)
}
