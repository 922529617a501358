//! One line of a script's text, read into the script that the lines before it tell.
ghost use Rattle.std.specs.Prelude.{◌≡◌, ◌<◌, ◌≤◌, ◌^◌, ◌++◌, ◌∷◌, [], ℕ, true, nat_lt, length, map, IfOk, IfSome};
ghost use Rattle.std.specs.List.{list_all};
ghost use Rattle.text_lines.specs.Numbers.{is_number};
ghost use Rattle.script_text.specs.Forms.{Form, HostLine, NoLine, ObjectLine, TurnLine, end_form, form_at, labelled, mode_of, object_form, object_or_job, only_number, raid_form, two_numbers, value, with_number, with_numbers, words, words_behind};
ghost use Rattle.script_text.specs.Faults.{has_host, least_script};
ghost use Rattle.script_text.specs.Script.{Script as ScriptValue, host_numbers};
ghost use Rattle.script_text.specs.Ranges.{Rise};
ghost use Rattle.script_text.specs.Steps.{Steps, object_found};

use crate::jobs::read_job;
use crate::script::{HostJobs, Script};
use crate::words::{are_numbers, is_text, only_number, read_rows, split_word, two_numbers};
use arrayvec::ArrayVec;
use raid_base::{HostNo, Kind, Mode, Name, NoMemory, Turn};
use std::alloc::Global;
use thiserror::Error;
use virtual_objects::{ObjectFault, Objects};

/// The greatest number of objects.
const MAX_OBJECTS: usize = 64;

/// Hosts are below this.
const HOSTS_END: u64 = 16;

/// Moments, and a patience, are below this.
const MOMENTS_END: u64 = 1 << 40;

/// Which line of a script may come next.
#[derive(Clone, Copy, Debug, PartialEq, Eq)]
pub(crate) enum Stage {
    Raid,
    Devices,
    Rows,
    Order,
    Patience,
    Tries,
    /// Objects, then hosts with their jobs.
    Body,
    Turns,
    /// None: the end line has come.
    Ended,
}

/// Why a line was not read.
#[derive(Clone, Copy, Debug, PartialEq, Eq, Error)]
pub(crate) enum LineFault {
    #[error("bad line: {0}")]
    Bad(Kind),
    #[error("memory")]
    NoMemory,
}

/// A script of so many devices and rows that says no more.
pub(crate) fn least_script(alloc: Global, n: u8, rows: u16) -> Result<Script, NoMemory>
    requires devices_least { 3 ≤ n }
    requires devices_most { n ≤ 16 }
    requires rows_least { 1 ≤ rows }
    requires rows_most { rows ≤ 4096 }
    ensures { IfOk result (λ script. script ≡ least_script n rows) }
{
    let objects = Objects::make(alloc, n, rows)?;
    Ok(Script {
        n,
        rows,
        mode: Mode::Lock,
        patience: 0,
        tries: 1,
        objects,
        hosts: ArrayVec::new_in(alloc),
        blocks: Vec::new(alloc),
        turns: Vec::new(alloc),
    })
}

fn read_raid(line: &[u8]) -> Result<Stage, LineFault>
    ensures { (script : ScriptValue) → Steps script script result (raid_form line.now) }
{
    if is_text(line, b"raid 1") {
        Ok(Stage::Devices)
    } else {
        Err(LineFault::Bad(Kind::Shape))
    }
}

/// The number that stands behind a label, where the line is these two words.
fn labelled(line: &[u8], label: &[u8]) -> Option<u64>
    ensures { (make : ℕ → Form) → labelled label.now make (words line.now) ≡ with_number NoLine make result }
{
    let (word, rest) = split_word(line);
    if !is_text(word, label) {
        return None;
    }
    only_number(rest)
}

fn read_devices(alloc: Global, script: &mut Script, line: &[u8]) -> Result<Stage, LineFault>
    ensures { Steps script.old script.new result (form_at Stage.Devices script.old line.now) }
{
    let Some(n) = labelled(line, b"devices") else {
        return Err(LineFault::Bad(Kind::Shape));
    };
    if n < 3 || n > 16 {
        return Err(LineFault::Bad(Kind::Range));
    }
    match least_script(alloc, n as u8, 1) {
        Ok(least) => {
            *script = least;
            Ok(Stage::Rows)
        }
        Err(NoMemory) => Err(LineFault::NoMemory),
    }
}

fn read_row_count(alloc: Global, script: &mut Script, line: &[u8]) -> Result<Stage, LineFault>
    ensures { Steps script.old script.new result (form_at Stage.Rows script.old line.now) }
{
    let Some(rows) = labelled(line, b"rows") else {
        return Err(LineFault::Bad(Kind::Shape));
    };
    if rows < 1 || rows > 4096 {
        return Err(LineFault::Bad(Kind::Range));
    }
    match least_script(alloc, script.objects.devices(), rows as u16) {
        Ok(least) => {
            *script = least;
            Ok(Stage::Order)
        }
        Err(NoMemory) => Err(LineFault::NoMemory),
    }
}

/// The mode that a line names.
fn mode_of(line: &[u8]) -> Option<Mode>
    ensures { result ≡ mode_of line.now }
{
    if is_text(line, b"mode lock") {
        return Some(Mode::Lock);
    }
    if is_text(line, b"mode order") {
        return Some(Mode::Order);
    }
    None
}

fn read_mode(script: &mut Script, line: &[u8]) -> Result<Stage, LineFault>
    ensures { Steps script.old script.new result (form_at Stage.Order script.old line.now) }
{
    let Some(mode) = mode_of(line) else {
        return Err(LineFault::Bad(Kind::Shape));
    };
    script.mode = mode;
    Ok(Stage::Patience)
}

fn read_patience(script: &mut Script, line: &[u8]) -> Result<Stage, LineFault>
    ensures { Steps script.old script.new result (form_at Stage.Patience script.old line.now) }
{
    let Some(patience) = labelled(line, b"patience") else {
        return Err(LineFault::Bad(Kind::Shape));
    };
    if patience >= MOMENTS_END {
        return Err(LineFault::Bad(Kind::Range));
    }
    script.patience = patience;
    Ok(Stage::Tries)
}

fn read_tries(script: &mut Script, line: &[u8]) -> Result<Stage, LineFault>
    ensures { Steps script.old script.new result (form_at Stage.Tries script.old line.now) }
{
    let Some(tries) = labelled(line, b"tries") else {
        return Err(LineFault::Bad(Kind::Shape));
    };
    if tries < 1 || tries > 64 {
        return Err(LineFault::Bad(Kind::Range));
    }
    script.tries = tries as u8;
    Ok(Stage::Body)
}

/// The name on an object's line, and the words of its rows.
fn object_line(line: &[u8]) -> Option<(Name, &[u8])>
    ensures form { object_form (words line.now) ≡ object_found result }
    ensures numbers { IfSome result (λ found. list_all is_number (words found.1.now) ≡ true) }
{
    let (word, rest) = split_word(line);
    if !is_text(word, b"object") {
        return None;
    }
    let (text, rest) = split_word(rest?);
    let name = Name::new(text)?;
    let rows = rest?;
    if are_numbers(rows) {
        Some((name, rows))
    } else {
        None
    }
}

fn add_object(
    alloc: Global,
    script: &mut Script,
    name: Name,
    rows: &[u8],
) -> Result<Stage, LineFault>
    requires { list_all is_number (words rows.now) ≡ true }
    ensures { Steps script.old script.new result (ObjectLine name (map value (words rows.now))) }
{
    if script.objects.as_slice().len() == MAX_OBJECTS {
        return Err(LineFault::Bad(Kind::Range));
    }
    let rows = match read_rows(alloc, rows, script.rows) {
        Ok(Some(rows)) => rows,
        Ok(None) => return Err(LineFault::Bad(Kind::Range)),
        Err(NoMemory) => return Err(LineFault::NoMemory),
    };
    match script.objects.add(name, rows.as_slice()) {
        Ok(()) => Ok(Stage::Body),
        Err(ObjectFault::TooMany) => Err(LineFault::Bad(Kind::Range)),
        Err(ObjectFault::NameUsed) => Err(LineFault::Bad(Kind::Name)),
        Err(ObjectFault::RowUsed { .. }) => Err(LineFault::Bad(Kind::Name)),
        Err(ObjectFault::NoMemory) => Err(LineFault::NoMemory),
    }
}

fn read_object(alloc: Global, script: &mut Script, line: &[u8]) -> Result<Stage, LineFault>
    ensures { Steps script.old script.new result (object_form (words line.now)) }
{
    match object_line(line) {
        Some((name, rows)) => add_object(alloc, script, name, rows),
        None => Err(LineFault::Bad(Kind::Shape)),
    }
}

/// Whether all hosts have numbers below this one.
fn are_below(script: &Script, number: u64) -> bool
    ensures { result ≡ list_all (λ before. nat_lt before.host.0 number) script.now.hosts }
{
    let hosts = script.hosts();
    hosts.iter().all(|host| u64::from(host.host.0) < number)
}

fn push_host(alloc: Global, script: &mut Script, number: u8)
    requires { length script.old.hosts < 16 }
    ensures { script.new ≡ record script.old { hosts = script.old.hosts ++ record { host = record { 0 = number }; jobs = [] } ∷ [] } }
{
    script.hosts.push(HostJobs {
        host: HostNo(number),
        jobs: Vec::new(alloc),
    });
}

fn add_host(alloc: Global, script: &mut Script, number: u64) -> Result<Stage, LineFault>
    requires { Rise 0 (host_numbers script.old) }
    ensures { Steps script.old script.new result (HostLine number) }
{
    if number >= HOSTS_END {
        return Err(LineFault::Bad(Kind::Range));
    }
    if !are_below(script, number) {
        return Err(LineFault::Bad(Kind::Range));
    }
    push_host(alloc, script, number as u8);
    Ok(Stage::Body)
}

fn read_host(alloc: Global, script: &mut Script, rest: Option<&[u8]>) -> Result<Stage, LineFault>
    requires { Rise 0 (host_numbers script.old) }
    ensures { Steps script.old script.new result (with_number NoLine HostLine (only_number (words_behind rest.entry))) }
{
    match only_number(rest) {
        Some(number) => add_host(alloc, script, number),
        None => Err(LineFault::Bad(Kind::Shape)),
    }
}

/// Whether there is a host of this number.
fn has_host(hosts: &[HostJobs], number: u64) -> bool
    ensures { result ≡ has_host hosts.now number }
{
    hosts.iter().any(|host| u64::from(host.host.0) == number)
}

fn read_turn(script: &mut Script, rest: Option<&[u8]>) -> Result<Stage, LineFault>
    ensures { Steps script.old script.new result (with_numbers NoLine TurnLine (two_numbers (words_behind rest.entry))) }
{
    let Some((host, moment)) = two_numbers(rest) else {
        return Err(LineFault::Bad(Kind::Shape));
    };
    if host >= HOSTS_END || moment >= MOMENTS_END {
        return Err(LineFault::Bad(Kind::Range));
    }
    if !has_host(script.hosts(), host) {
        return Err(LineFault::Bad(Kind::Name));
    }
    let turn = Turn {
        host: HostNo(host as u8),
        moment,
    };
    match script.turns.push(turn) {
        Ok(()) => Ok(Stage::Turns),
        Err(_) => Err(LineFault::NoMemory),
    }
}

fn read_end(rest: Option<&[u8]>) -> Result<Stage, LineFault>
    ensures { (script : ScriptValue) → Steps script script result (end_form (words_behind rest.entry)) }
{
    match rest {
        None => Ok(Stage::Ended),
        Some(_) => Err(LineFault::Bad(Kind::Shape)),
    }
}

fn read_turns(script: &mut Script, line: &[u8]) -> Result<Stage, LineFault>
    ensures { Steps script.old script.new result (form_at Stage.Turns script.old line.now) }
{
    let (word, rest) = split_word(line);
    if is_text(word, b"turn") {
        return read_turn(script, rest);
    }
    if is_text(word, b"end") {
        return read_end(rest);
    }
    Err(LineFault::Bad(Kind::Shape))
}

/// Reads the line of an object where there is no host yet, and else that of a job of the last host.
fn read_object_or_job(alloc: Global, script: &mut Script, line: &[u8]) -> Result<Stage, LineFault>
    requires hosts { Rise 0 (host_numbers script.old) }
    requires few { length script.old.blocks < 2 ^ 32 }
    requires devices { script.old.n ≤ 16 }
    requires rows { script.old.rows ≤ 4096 }
    ensures { Steps script.old script.new result (object_or_job script.old.hosts (words line.now)) }
{
    match script.hosts.pop() {
        Some(host) => read_job(script, host, line),
        None => read_object(alloc, script, line),
    }
}

fn read_body(alloc: Global, script: &mut Script, line: &[u8]) -> Result<Stage, LineFault>
    requires hosts { Rise 0 (host_numbers script.old) }
    requires few { length script.old.blocks < 2 ^ 32 }
    requires devices { script.old.n ≤ 16 }
    requires rows { script.old.rows ≤ 4096 }
    ensures { Steps script.old script.new result (form_at Stage.Body script.old line.now) }
{
    let (word, rest) = split_word(line);
    if is_text(word, b"host") {
        return read_host(alloc, script, rest);
    }
    if is_text(word, b"turn") {
        return read_turn(script, rest);
    }
    if is_text(word, b"end") {
        return read_end(rest);
    }
    read_object_or_job(alloc, script, line)
}

/// Reads a line that stands at this place into the script, and tells which line may come next.
pub(crate) fn read_line(
    alloc: Global,
    stage: Stage,
    script: &mut Script,
    line: &[u8],
) -> Result<Stage, LineFault>
    requires hosts { Rise 0 (host_numbers script.old) }
    requires few { length script.old.blocks < 2 ^ 32 }
    requires devices { script.old.n ≤ 16 }
    requires rows { script.old.rows ≤ 4096 }
    ensures { Steps script.old script.new result (form_at stage script.old line.now) }
{
    match stage {
        Stage::Raid => read_raid(line),
        Stage::Devices => read_devices(alloc, script, line),
        Stage::Rows => read_row_count(alloc, script, line),
        Stage::Order => read_mode(script, line),
        Stage::Patience => read_patience(script, line),
        Stage::Tries => read_tries(script, line),
        Stage::Body => read_body(alloc, script, line),
        Stage::Turns => read_turns(script, line),
        Stage::Ended => Err(LineFault::Bad(Kind::Shape)),
    }
}
