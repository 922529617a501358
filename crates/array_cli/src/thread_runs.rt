//! A run of a script whose hosts ask beside each other, each on a thread of its own where one can be had.
//!
//! Room for the workers and for all turns is taken, and a world is made as for the simulator. It is taken apart: its bays
//! become a rack, and its hosts play over that to their ends. The journals of the bays that come back are merged by their
//! clocks into the turns, and the world is put together again, as if it had played these turns. What follows is the
//! simulator's: the last reading, and the report.
//!
//! So the report is the one that the simulator prints for the script with these turns as its turn lines.
ghost use Rattle.std.specs.Prelude.{◌≡◌, ◌≤◌, ◌<◌, ◌^◌, ◌+◌, ◌++◌, [], IfErr, IfOk, length, map, sum_by};
ghost use Rattle.std.specs.List.{AllByRecursion};
ghost use Rattle.std.specs.Vec.{vec_capacity};
ghost use Rattle.script_text.specs.Ranges.{IsScript, all_jobs};
ghost use Rattle.script_text.specs.Weights.{total};
ghost use Rattle.clock_merge.specs.Merge.{ClocksRise};
ghost use Rattle.clock_merge.specs.Heads.{AreShort};
ghost use Rattle.clock_merge.specs.Turns.{AppendsMerge};
ghost use Rattle.schedule_play.specs.Making.{stores_of};
ghost use Rattle.array_cli.specs.ThreadRuns.{AreMerged, HasRun, IsRun};
ghost use Rattle.array_cli.specs.ThreadParts.{HasRoom, HaveRunBeside, IsRunFinished, IsRunStopped, IsStartedWorld};

use crate::calls::{Outcome, closed, read_input, refused, reported};
use arrayvec::ArrayVec;
use bay_device::Bay;
use block_store::Store;
use clock_merge::{Turns, merge_slices};
use host_workers::{Worker, play_hosts};
use rack_turns::{Clock, Gate, Rack, RackFault};
use raid_base::{Entry, NoMemory, Sink, Source, Status};
use schedule_play::{Parts, World};
use script_text::{Script, total};
use std::alloc::Global;
use std::sync::Wait;
use std::thread::Threads;

/// What a run needs beside its world: a list for the workers, and one for the turns of all requests.
#[derive(Drop)]
struct Room<'s> {
    workers: Vec<Worker<'s>>,
    turns: Turns,
}

/// Takes that room for a script.
fn make_room<'s>(alloc: Global, script: &Script) -> Result<Room<'s>, NoMemory>
    requires script { IsScript script.now }
    requires few { total script.now ≤ 2 ^ 20 }
    requires jobs { length (all_jobs script.now) < 2 ^ 32 }
    ensures { IfOk result (HasRoom script.now) }
{
    let count = script.hosts().len();
    let workers = match Vec::with_capacity(alloc, count) {
        Ok(workers) => workers,
        Err(_) => return Err(NoMemory),
    };
    let turns = Turns::make(alloc, total(script) as u32)?;
    Ok(Room { workers, turns })
}

/// Appends the turns of all requests that these bays have answered, by their clocks.
fn merge_bays<D: Store>(turns: &mut Turns, bays: &[Bay<D>])
    requires few { length bays.now ≤ 16 }
    requires short { AreShort (map (λ bay. bay.journal.items) bays.now) }
    requires rising { AllByRecursion ClocksRise (map (λ bay. bay.journal.items) bays.now) }
    requires room { sum_by length (map (λ bay. bay.journal.items) bays.now) + length turns.old.items ≤ turns.old.room }
    ensures merged { AppendsMerge (map (λ bay. bay.journal.items) bays.now) turns.old.items turns.new.items }
    ensures room { turns.new.room ≡ turns.old.room }
{
    let mut journals: ArrayVec<&[Entry], 16> = ArrayVec::new();
    for bay in bays {
        journals.push(bay.journal.as_slice());
    }
    merge_slices(turns, journals.as_slice());
}

/// Runs the hosts of a world beside each other to their ends, and puts it together again with the turns of their merge.
/// Where there is no memory to share the bays, all stores come back.
fn run_beside<'s, D, C, G, R>(
    rt: &R,
    alloc: Global,
    script: &'s Script,
    world: World<'s, D>,
    room: Room<'s>,
    clock: &C,
    gate: &G,
) -> Result<World<'s, D>, Vec<D>>
where
    D: Store + Send,
    C: Clock + Sync,
    G: Gate + Sync,
    R: Threads + Wait + Sync,
    requires script { IsScript script.now }
    requires few { total script.now ≤ 2 ^ 20 }
    requires jobs { length (all_jobs script.now) < 2 ^ 32 }
    requires started { IsStartedWorld script.now world }
    requires room { HasRoom script.now room }
    ensures run { IfOk result (HaveRunBeside script.now world.entry) }
    ensures back { IfErr result (λ stores. stores.items ≡ stores_of world.entry.bays.items ++ world.entry.others.items) }
{
    let parts = world.into_parts();
    let Parts {
        script: _,
        mut hosts,
        bays,
        turns: unused,
        others,
        gathered,
    } = parts;
    let Room { workers, mut turns } = room;
    let (rack, first) = match Rack::make(alloc, bays) {
        Ok(made) => made,
        Err(RackFault::NoMemory(bays)) => {
            let parts = Parts {
                script,
                hosts,
                bays,
                turns: unused,
                others,
                gathered,
            };
            return Err(World::from_parts(parts).close().stores);
        }
    };
    let bays = play_hosts(rt, rack, first, script, &mut hosts, workers, clock, gate);
    merge_bays(&mut turns, bays.as_slice());
    let turns = turns.into_vec();
    Ok(World::from_parts(Parts {
        script,
        hosts,
        bays,
        turns,
        others,
        gathered,
    }))
}

/// Runs a script over some stores and reads what it has come to. Where that cannot be, the end is there already.
fn run_through<'s, D, C, G, R>(
    rt: &R,
    alloc: Global,
    script: &'s Script,
    stores: Vec<D>,
    clock: &C,
    gate: &G,
) -> Result<World<'s, D>, Outcome<D>>
where
    D: Store + Send,
    C: Clock + Sync,
    G: Gate + Sync,
    R: Threads + Wait + Sync,
    requires script { IsScript script.now }
    requires few { total script.now ≤ 2 ^ 20 }
    requires jobs { length (all_jobs script.now) < 2 ^ 32 }
    ensures finished { IfOk result (IsRunFinished D.Store script.now stores.items) }
    ensures refused { IfErr result (IsRunStopped D.Store script.now stores.items) }
{
    let room = match make_room(alloc, script) {
        Ok(room) => room,
        Err(NoMemory) => return Err(Outcome::early(alloc, Status::Memory, stores)),
    };
    let world = match World::make(alloc, script, stores) {
        Ok(world) => world,
        Err(fault) => return Err(refused(alloc, script.n, fault)),
    };
    let mut world = match run_beside(rt, alloc, script, world, room, clock, gate) {
        Ok(world) => world,
        Err(stores) => return Err(Outcome::early(alloc, Status::Memory, stores)),
    };
    match world.finish() {
        Ok(()) => Ok(world),
        Err(bay) => Err(closed(Status::StoreFault { bay }, world)),
    }
}

/// Runs a script over some stores, and prints its report.
fn run_script<K, D, C, G, R>(
    rt: &R,
    alloc: Global,
    script: &Script,
    sink: &mut K,
    stores: Vec<D>,
    clock: &C,
    gate: &G,
) -> Outcome<D>
where
    K: Sink,
    D: Store + Send,
    C: Clock + Sync,
    G: Gate + Sync,
    R: Threads + Wait + Sync,
    requires script { IsScript script.now }
    requires few { total script.now ≤ 2 ^ 20 }
    requires jobs { length (all_jobs script.now) < 2 ^ 32 }
    ensures run { HasRun K.Sink D.Store script.now sink.old sink.new stores.items result result.status }
    ensures merged { AreMerged result }
{
    match run_through(rt, alloc, script, stores, clock, gate) {
        Ok(world) => reported(sink, world),
        Err(outcome) => outcome,
    }
}

/// Runs the script that the source holds over some stores, each host on a thread where one can be had, and prints its report.
///
/// The turns that are handed out are the merge of the journals by their clocks, and the report is the one that the simulator
/// prints for the script with these turns.
pub fn run_call<S, K, D, C, G, R>(
    rt: &R,
    alloc: Global,
    source: &mut S,
    sink: &mut K,
    stores: Vec<D>,
    clock: &C,
    gate: &G,
) -> Outcome<D>
where
    S: Source,
    K: Sink,
    D: Store + Send,
    C: Clock + Sync,
    G: Gate + Sync,
    R: Threads + Wait + Sync,
    ensures { IsRun S.Source K.Sink D.Store source.old source.new sink.old sink.new stores.items result }
{
    match read_input(alloc, source) {
        Ok(script) => run_script(rt, alloc, &script, sink, stores, clock, gate),
        Err(status) => Outcome::early(alloc, status, stores),
    }
}
