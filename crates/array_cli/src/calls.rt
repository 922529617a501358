//! The program's calls: `array` reads the words, and each command has a call of its own.
//!
//! `sim_call` reads a script to the source's end, makes a world over the stores, plays it, reads what it has come to, and
//! prints the report. `load_call` does so for a script that is made from a number, and prints its summary. `run_call`
//! (`thread_runs.rt`) plays the hosts beside each other. Whatever happens all stores come back, and the status says why it
//! has ended. Memory is taken before the first request, and never after it.
//!
//! What holds at each status is `IsCall`, `IsLoad` and `IsRun`. The program's `main` calls `array`.
ghost use Rattle.std.specs.Prelude.{◌≡◌, ℕ, List, ◌++◌, ◌<◌, ◌≤◌, ◌^◌, Some, map, length, string_bytes, IfOk, IfErr};
ghost use Rattle.script_text.specs.Ranges.{IsScript, all_jobs};
ghost use Rattle.script_text.specs.Weights.{total};
ghost use Rattle.report_text.specs.Appends.{Appends};
ghost use Rattle.report_text.specs.Report.{report_text};
ghost use Rattle.report_text.specs.Views.{report_in};
ghost use Rattle.load_maker.specs.Summary.{summary_text};
ghost use Rattle.schedule_play.specs.Gathering.{IsClosable};
ghost use Rattle.schedule_play.specs.Making.{stores_of};
ghost use Rattle.array_cli.specs.Commands.{command_of};
ghost use Rattle.array_cli.specs.Calls.{HasPlayed, IsCall, IsEmpty, IsLoad, IsNoCall, IsNoCallFor};
ghost use Rattle.array_cli.specs.Parts.{HasNoScript, HasPrinted, IsFinished, IsReadFrom, IsRefused, IsUnplayed, status_of};
ghost use Rattle.array_cli.specs.ThreadRuns.{IsRun};
ghost use Rattle.array_cli.specs.declared.words.Command.TheVariants.{Sim, Run, Load};

use crate::input::{InputFault, read_all};
use crate::thread_runs::run_call;
use crate::words::{Command, read_command};
use block_store::Store;
use load_maker::{make_load, write_summary};
use rack_turns::{Clock, Gate};
use raid_base::{Entry, Failed, JobResult, NoMemory, Sink, Source, Status, Turn};
use report_text::write_report;
use schedule_play::{World, WorldFault};
use script_text::{Script, ScriptFault, read_script, total};
use std::alloc::Global;
use std::sync::Wait;
use std::thread::Threads;

/// How many bytes a script may have.
const MOST_BYTES: usize = 1 << 24;

/// How much the jobs of a script may weigh together.
const MOST_WEIGHT: u64 = 1 << 20;

/// What a call hands out: how it has ended, all stores in order, the journals of the devices, the results and the turns.
///
/// Journals, results and turns are empty where the play has not come to its end.
#[derive(Drop)]
pub struct Outcome<D> {
    pub status: Status,
    pub stores: Vec<D>,
    pub journals: Vec<Vec<Entry>>,
    pub results: Vec<JobResult>,
    pub turns: Vec<Turn>,
}

impl<D> Outcome<D> {
    /// An end before the report: with the stores alone.
    pub(crate) fn early(alloc: Global, status: Status, stores: Vec<D>) -> Outcome<D>
        ensures status { result.status ≡ status }
        ensures stores { result.stores ≡ stores }
        ensures empty { IsEmpty result }
    {
        Outcome {
            status,
            stores,
            journals: Vec::new(alloc),
            results: Vec::new(alloc),
            turns: Vec::new(alloc),
        }
    }
}

/// The end where no world was made for so many devices.
pub(crate) fn refused<D: Store>(alloc: Global, devices: u8, fault: WorldFault<D>) -> Outcome<D>
    ensures { IsRefused devices fault result }
{
    match fault {
        WorldFault::TooFew(stores) => {
            let have = u32::try_from(stores.len()).unwrap_or(u32::MAX);
            let need = devices as u32;
            Outcome::early(alloc, Status::TooFewStores { have, need }, stores)
        }
        WorldFault::TooSmall(bay, stores) => {
            Outcome::early(alloc, Status::TooSmall { bay }, stores)
        }
        WorldFault::NoMemory(stores) => Outcome::early(alloc, Status::Memory, stores),
        WorldFault::Fault(bay, stores) => Outcome::early(alloc, Status::StoreFault { bay }, stores),
    }
}

/// The end with all that a world has come to.
pub(crate) fn closed<D: Store>(status: Status, world: World<'_, D>) -> Outcome<D>
    requires { IsClosable world }
    ensures status { result.status ≡ status }
    ensures stores { result.stores.items ≡ stores_of world.entry.bays.items ++ world.entry.others.items }
    ensures journals { map (λ journal. journal.items) result.journals.items ≡ map (λ bay. bay.journal.items) world.entry.bays.items }
    ensures results { result.results ≡ world.entry.gathered.results }
    ensures turns { result.turns ≡ world.entry.turns }
{
    let closed = world.close();
    Outcome {
        status,
        stores: closed.stores,
        journals: closed.journals,
        results: closed.results,
        turns: closed.turns,
    }
}

/// Lets go of what the sink holds back, once a text was written.
fn flushed<K: Sink>(sink: &mut K, written: Result<(), Failed>) -> Result<(), Failed>
    ensures { (before : K) (text : List ℕ) → Appends K.tells K.written K.faults before text written sink.old → HasPrinted K.Sink text before sink.new (status_of result) }
{
    written?;
    sink.flush()
}

/// How a call ends whose text was printed, or could not be.
fn status_of(printed: Result<(), Failed>) -> Status
    ensures { result ≡ status_of printed }
{
    match printed {
        Ok(()) => Status::Done,
        Err(_) => Status::WriteFault,
    }
}

/// Prints the report of a world that was read, and closes it.
pub(crate) fn reported<K: Sink, D: Store>(sink: &mut K, world: World<'_, D>) -> Outcome<D>
    requires { IsClosable world }
    ensures printed { let report = report_in world.entry.script.now world.entry.gathered.results.items world.entry.gathered.contents.items world.entry.turns.items world.entry.gathered.cells.items world.entry.gathered.opened.items in HasPrinted K.Sink (report_text report) sink.old sink.new result.status }
    ensures stores { result.stores.items ≡ stores_of world.entry.bays.items ++ world.entry.others.items }
    ensures journals { map (λ journal. journal.items) result.journals.items ≡ map (λ bay. bay.journal.items) world.entry.bays.items }
    ensures results { result.results ≡ world.entry.gathered.results }
    ensures turns { result.turns ≡ world.entry.turns }
{
    let written = write_report(sink, &world.view());
    let printed = flushed(sink, written);
    closed(status_of(printed), world)
}

/// Plays a script over some stores and reads what it has come to. Where that cannot be, the end is there already.
fn played<'s, D: Store>(
    alloc: Global,
    script: &'s Script,
    stores: Vec<D>,
) -> Result<World<'s, D>, Outcome<D>>
    requires script { IsScript script.now }
    requires few { total script.now ≤ 2 ^ 20 }
    requires jobs { length (all_jobs script.now) < 2 ^ 32 }
    ensures finished { IfOk result (IsFinished D.Store script.now stores.items) }
    ensures refused { IfErr result (IsUnplayed D.Store script.now stores.items) }
{
    let mut world = match World::make(alloc, script, stores) {
        Ok(world) => world,
        Err(fault) => return Err(refused(alloc, script.n, fault)),
    };
    world.play();
    match world.finish() {
        Ok(()) => Ok(world),
        Err(bay) => Err(closed(Status::StoreFault { bay }, world)),
    }
}

/// Plays a script over some stores, and prints its report.
fn play<K: Sink, D: Store>(
    alloc: Global,
    script: &Script,
    sink: &mut K,
    stores: Vec<D>,
) -> Outcome<D>
    requires script { IsScript script.now }
    requires few { total script.now ≤ 2 ^ 20 }
    requires jobs { length (all_jobs script.now) < 2 ^ 32 }
    ensures { HasPlayed K.Sink D.Store report_text script.now sink.old sink.new stores.items result result.status }
{
    match played(alloc, script, stores) {
        Ok(world) => reported(sink, world),
        Err(outcome) => outcome,
    }
}

/// The script that a source holds, where it is not too heavy, or else the status that says why there is none.
pub(crate) fn read_input<S: Source>(alloc: Global, source: &mut S) -> Result<Script, Status>
    ensures read { IfOk result (IsReadFrom S.Source source.old source.new) }
    ensures refused { IfErr result (HasNoScript S.Source source.old source.new) }
{
    let bytes = match read_all(alloc, source, MOST_BYTES) {
        Ok(bytes) => bytes,
        Err(InputFault::Read) => return Err(Status::ReadFault),
        Err(InputFault::TooLong) => return Err(Status::TooLong),
        Err(InputFault::NoMemory) => return Err(Status::Memory),
    };
    let script = match read_script(alloc, bytes.as_slice()) {
        Ok(script) => script,
        Err(ScriptFault::Bad { line, kind }) => return Err(Status::BadScript { line, kind }),
        Err(ScriptFault::NoMemory) => return Err(Status::Memory),
    };
    let weight = total(&script);
    if weight > MOST_WEIGHT {
        return Err(Status::TooMuch { total: weight });
    }
    Ok(script)
}

/// Plays the script that the source holds over some stores, and prints its report.
pub fn sim_call<S: Source, K: Sink, D: Store>(
    alloc: Global,
    source: &mut S,
    sink: &mut K,
    stores: Vec<D>,
) -> Outcome<D>
    ensures { IsCall S.Source K.Sink D.Store source.old source.new sink.old sink.new stores.items result }
{
    match read_input(alloc, source) {
        Ok(script) => play(alloc, &script, sink, stores),
        Err(status) => Outcome::early(alloc, status, stores),
    }
}

/// Prints the summary of a world in which a load of n jobs was played, and closes it.
fn summed<K: Sink, D: Store>(sink: &mut K, n: u32, world: World<'_, D>) -> Outcome<D>
    requires { IsClosable world }
    ensures printed { let report = report_in world.entry.script.now world.entry.gathered.results.items world.entry.gathered.contents.items world.entry.turns.items world.entry.gathered.cells.items world.entry.gathered.opened.items in HasPrinted K.Sink (summary_text n report) sink.old sink.new result.status }
    ensures stores { result.stores.items ≡ stores_of world.entry.bays.items ++ world.entry.others.items }
    ensures journals { map (λ journal. journal.items) result.journals.items ≡ map (λ bay. bay.journal.items) world.entry.bays.items }
    ensures results { result.results ≡ world.entry.gathered.results }
    ensures turns { result.turns ≡ world.entry.turns }
{
    let written = write_summary(sink, n, &world.view());
    let printed = flushed(sink, written);
    closed(status_of(printed), world)
}

/// Plays the load of so many jobs over some stores, and prints its summary. Nothing is read.
pub fn load_call<K: Sink, D: Store>(
    alloc: Global,
    n: u32,
    sink: &mut K,
    stores: Vec<D>,
) -> Outcome<D>
    requires least { 1 ≤ n }
    requires most { n ≤ 1500 }
    ensures { IsLoad K.Sink D.Store n sink.old sink.new stores.items result }
{
    let script = match make_load(alloc, n) {
        Ok(script) => script,
        Err(NoMemory) => return Outcome::early(alloc, Status::Memory, stores),
    };
    match played(alloc, &script, stores) {
        Ok(world) => summed(sink, n, world),
        Err(outcome) => outcome,
    }
}

/// Does what the words behind the program's name ask for. With words that are no command nothing is touched.
///
/// The runtime, the clock and the gate are for `run`: threads, moments, and who waits where.
pub fn array<S, K, D, C, G, R>(
    rt: &R,
    alloc: Global,
    words: &[String],
    source: &mut S,
    sink: &mut K,
    stores: Vec<D>,
    clock: &C,
    gate: &G,
) -> Outcome<D>
where
    S: Source,
    K: Sink,
    D: Store + Send,
    C: Clock + Sync,
    G: Gate + Sync,
    R: Threads + Wait + Sync,
    ensures sim { command_of (map string_bytes words.now) ≡ Some Sim → IsCall S.Source K.Sink D.Store source.old source.new sink.old sink.new stores.items result }
    ensures run { command_of (map string_bytes words.now) ≡ Some Run → IsRun S.Source K.Sink D.Store source.old source.new sink.old sink.new stores.items result }
    ensures load { (n : ℕ) → command_of (map string_bytes words.now) ≡ Some (Load n) → IsLoad K.Sink D.Store n sink.old sink.new stores.items result × (source.new ≡ source.old) }
    ensures others { IsNoCallFor (command_of (map string_bytes words.now)) → IsNoCall stores.items result × (source.new ≡ source.old) × (sink.new ≡ sink.old) }
{
    match read_command(alloc, words) {
        Ok(Some(Command::Sim)) => sim_call(alloc, source, sink, stores),
        Ok(Some(Command::Run)) => run_call(rt, alloc, source, sink, stores, clock, gate),
        Ok(Some(Command::Load { jobs })) => load_call(alloc, jobs, sink, stores),
        Ok(None) => Outcome::early(alloc, Status::Words, stores),
        Err(NoMemory) => Outcome::early(alloc, Status::Memory, stores),
    }
}
