//! The program `array`: `array sim` reads a script, plays it over devices in memory, and prints its report; `array run` does
//! so with each host on a thread of its own where one can be had; `array load N` plays a script that is made from a number,
//! and prints its summary.
#![tactic(auto)]

ghost use Rattle.std.specs.Prelude.{◌≡◌, ◌⊎◌, ℕ, IfErr, IfOk, Some, drop, map, replicate, string_bytes};
ghost use Rattle.std.specs.Process.{exit_status};
ghost use Rattle.std.specs.declared.io.ErrorKind.TheVariants.{InvalidData};
ghost use Rattle.raid_base.specs.Cells.{zeros};
ghost use Rattle.raid_base.specs.declared.status.Status.TheVariants.{Words, Memory};
ghost use Rattle.block_store.specs.contracts.memory.MemoryStoreStore.TheImpl.{ghosts as memory_stores};
ghost use Rattle.array_cli.specs.Commands.{command_of};
ghost use Rattle.array_cli.specs.Exits.{exit_number};
ghost use Rattle.array_cli.specs.Calls.{IsCall, IsLoad, IsNoCall, IsNoCallFor};
ghost use Rattle.array_cli.specs.ThreadRuns.{IsRun};
ghost use Rattle.array.specs.Ends.{HasRun};
ghost use Rattle.array_cli.specs.declared.words.Command.TheVariants.{Sim, Run, Load};

use array_cli::{Outcome, array, exit_number};
use block_store::MemoryStore;
use rack_turns::{Clock, NoGate};
use raid_base::streams::standard::{ReaderSource, WriterSink};
use raid_base::{NoMemory, Sink, Source, Status};
use std::alloc::Global;
use std::io::{BufWriter, ErrorKind};
use std::process::ExitCode;
use std::sync::Wait;
use std::thread::Threads;
use std::time::Instant;
use std::{env, io};

/// How many bytes go to standard output at a time.
const BLOCK: usize = 1 << 16;

/// The program's clock: milliseconds since its start, by a clock of the system that never goes back. So a script's patience
/// counts milliseconds under `run`. Where the system has no clock each moment is 0.
#[derive(Drop)]
struct SinceStart<'a> {
    rt: &'a HostRuntime,
    start: Option<Instant>,
}

impl Clock for SinceStart<'_> {
    fn now(&self) -> u64 {
        let Some(start) = self.start else {
            return 0;
        };
        match start.elapsed(self.rt) {
            Ok(elapsed) => u64::try_from(elapsed.as_millis()).unwrap_or(u64::MAX),
            Err(_) => 0,
        }
    }
}

/// How it ends if the arguments can't be had: one of them is no text, or there is no memory.
fn status_without_words(kind: ErrorKind) -> Status
    ensures no_text { kind ≡ InvalidData → result ≡ Words }
    ensures otherwise { (kind ≡ InvalidData) ⊎ (result ≡ Memory) }
{
    match kind {
        ErrorKind::InvalidData => Status::Words,
        _ => Status::Memory,
    }
}

/// The program's arguments, its name first.
fn arguments(rt: &HostRuntime) -> Result<Vec<String>, Status> {
    match env::args(rt) {
        Ok(args) => args.collect(rt.alloc()).map_err(|_| Status::Memory),
        Err(error) => Err(status_without_words(error.kind())),
    }
}

/// The words behind the program's name.
fn behind_the_name(args: &[String]) -> &[String]
    ensures { result.now ≡ drop 1 args.now }
{
    match args {
        [] => args,
        [_, words @ ..] => words,
    }
}

/// So many devices of so many blocks of zeros.
fn devices(alloc: Global, count: u8, blocks: u32) -> Result<Vec<MemoryStore>, NoMemory>
    ensures { IfOk result (λ stores. stores.items ≡ replicate count (replicate blocks zeros)) }
{
    let mut stores = Vec::new(alloc);
    for _device in 0..count {
        let store = MemoryStore::make(alloc, blocks)?;
        stores.push(store).map_err(|_| NoMemory)?;
    }
    Ok(stores)
}

/// Does what the words say, over some input and output and sixteen devices of 4,096 blocks of zeros.
fn run_over<S, K, C, R>(
    rt: &R,
    alloc: Global,
    words: &[String],
    source: &mut S,
    sink: &mut K,
    clock: &C,
) -> Result<Outcome<MemoryStore>, NoMemory>
where
    S: Source,
    K: Sink,
    C: Clock + Sync,
    R: Threads + Wait + Sync,
    ensures sim { command_of (map string_bytes words.now) ≡ Some Sim → IfOk result (λ outcome. IsCall S.Source K.Sink memory_stores source.old source.new sink.old sink.new (replicate 16 (replicate 4096 zeros)) outcome) }
    ensures run { command_of (map string_bytes words.now) ≡ Some Run → IfOk result (λ outcome. IsRun S.Source K.Sink memory_stores source.old source.new sink.old sink.new (replicate 16 (replicate 4096 zeros)) outcome) }
    ensures load { (n : ℕ) → command_of (map string_bytes words.now) ≡ Some (Load n) → IfOk result (λ outcome. IsLoad K.Sink memory_stores n sink.old sink.new (replicate 16 (replicate 4096 zeros)) outcome × (source.new ≡ source.old)) }
    ensures others { IsNoCallFor (command_of (map string_bytes words.now)) → IfOk result (λ outcome. IsNoCall (replicate 16 (replicate 4096 zeros)) outcome × (source.new ≡ source.old) × (sink.new ≡ sink.old)) }
    ensures memory { IfErr result (λ _. (source.new ≡ source.old) × (sink.new ≡ sink.old)) }
{
    let stores = devices(alloc, 16, 4_096)?;
    Ok(array(rt, alloc, words, source, sink, stores, clock, &NoGate))
}

/// Does what the words say, as `run_over` does it, and tells how that has ended.
fn run_words<S, K, C, R>(
    rt: &R,
    alloc: Global,
    words: &[String],
    source: &mut S,
    sink: &mut K,
    clock: &C,
) -> Result<Status, NoMemory>
where
    S: Source,
    K: Sink,
    C: Clock + Sync,
    R: Threads + Wait + Sync,
    ensures ran { IfOk result (HasRun S.Source K.Sink (map string_bytes words.now) source.old source.new sink.old sink.new (replicate 16 (replicate 4096 zeros))) }
    ensures memory { IfErr result (λ _. (source.new ≡ source.old) × (sink.new ≡ sink.old)) }
{
    let outcome = run_over(rt, alloc, words, source, sink, clock)?;
    Ok(outcome.status)
}

/// Does what the words behind the program's name say, over standard input and output, with threads where they ask for them.
fn run(rt: &HostRuntime, threads: &(impl Threads + Wait + Sync)) -> Status {
    let writer = match BufWriter::with_capacity(rt.alloc(), BLOCK, io::writer(rt)) {
        Ok(writer) => writer,
        Err(_) => return Status::Memory,
    };
    let args = match arguments(rt) {
        Ok(args) => args,
        Err(status) => return status,
    };
    let words = behind_the_name(args.as_slice());
    let mut source = ReaderSource::over(rt.reader());
    let mut sink = WriterSink::over(writer);
    let clock = SinceStart {
        rt,
        start: Instant::now(rt).ok(),
    };
    run_words(threads, rt.alloc(), words, &mut source, &mut sink, &clock).unwrap_or(Status::Memory)
}

/// Says on standard error how the run has ended, where it isn't done, and ends the process with the number of that.
fn end(rt: &HostRuntime, status: Status) -> ExitCode
    ensures { exit_status result ≡ exit_number status }
{
    if status != Status::Done {
        let _ = eprintln!(rt; "array: {status}");
    }
    ExitCode::from(exit_number(status))
}

fn main(rt: HostRuntime) -> ExitCode {
    end(&rt, run(&rt, &rt))
}
