//! Jobs, each drawn by itself.
ghost use Rattle.std.specs.Prelude.{◌≡◌, ◌+◌, ◌*◌, ◌^◌, ◌<◌, ◌≤◌, ◌∷◌, ◌++◌, [], length, IfOk, OnOk};
ghost use Rattle.std.specs.List.{flat_map};
ghost use Rattle.load_maker.specs.Load.{after, after_job, dealt, drawn_blocks, drawn_job, in_turn, job_blocks, jobs_from, object_name, task_of, whole, written};

use crate::draws::Generator;
use raid_base::{Job, Name, NoMemory, Task};
use std::alloc::Global;

/// First blocks are below this, so that a job's blocks are all there.
const FIRST_END: u32 = 1784;

/// The greatest number of blocks of a job.
const MOST_BLOCKS: u32 = 8;

/// Jobs go round so many hosts.
pub(crate) const HOSTS: u32 = 8;

/// What is drawn of a job, but for the blocks that it writes.
#[derive(Clone, Copy)]
pub(crate) struct Drawn {
    pub writes: bool,
    pub object: Name,
    pub first: u32,
    pub count: u8,
}

fn object_name(which: u32) -> Name
    ensures { result ≡ object_name which }
{
    let letter: &[u8] = if which == 0 { b"a" } else { b"b" };
    match Name::new(letter) {
        Some(name) => name,
        None => unreachable!(),
    }
}

fn draw_job(generator: &mut Generator) -> Drawn
    ensures job { result ≡ drawn_job generator.old.state }
    ensures state { generator.new.state ≡ after 4 generator.old.state }
{
    let kind = generator.draw() % 4;
    let object = generator.draw() % 2;
    let first = generator.draw() % FIRST_END;
    let more = generator.draw() % MOST_BLOCKS;
    Drawn {
        writes: kind > 1,
        object: object_name(object),
        first,
        count: 1 + more as u8,
    }
}

impl Drawn {
    /// How many blocks the job writes.
    fn written(&self) -> u8
        ensures { result ≡ written self.now }
    {
        if self.writes { self.count } else { 0 }
    }

    /// What it does. The blocks of a write begin at this place of the script's list.
    fn task(&self, from: u32) -> Task
        ensures { result ≡ task_of from self.now }
    {
        let object = self.object;
        let first = self.first;
        let count = self.count;
        if self.writes {
            Task::Write {
                object,
                first,
                from,
                count,
            }
        } else {
            Task::Read {
                object,
                first,
                count,
            }
        }
    }
}

/// The generator's state behind a job, told by the state before it.
fn after_job(state: u64) -> u64
    ensures { result ≡ after_job state }
{
    let mut generator = Generator { state };
    let job = draw_job(&mut generator);
    for _ in 0..job.written() {
        generator.draw();
    }
    generator.state
}

/// Appends so many blocks of 64 equal bytes, a draw for each.
fn push_blocks(
    blocks: &mut Vec<[u8; 64]>,
    mut generator: Generator,
    count: u8,
) -> Result<(), NoMemory>
    ensures { OnOk result (blocks.new.items ≡ blocks.old.items ++ drawn_blocks count generator.state) }
{
    for _ in 0..count {
        let byte = (generator.draw() % 256) as u8;
        blocks.push([byte; 64]).map_err(|_| NoMemory)?;
    }
    Ok(())
}

fn push_job(jobs: &mut Vec<Job>, task: Task) -> Result<(), NoMemory>
    ensures { OnOk result (jobs.new.items ≡ jobs.old.items ++ whole task ∷ []) }
{
    match jobs.push(Job { task, quit: None }) {
        Ok(()) => Ok(()),
        Err(_) => Err(NoMemory),
    }
}

/// Appends the job that is told by the state before it, with its blocks.
fn add_job(jobs: &mut Vec<Job>, blocks: &mut Vec<[u8; 64]>, state: u64) -> Result<(), NoMemory>
    requires { length blocks.old.items < 2 ^ 32 }
    ensures jobs { OnOk result (jobs.new.items ≡ jobs.old.items ++ jobs_from (length blocks.old.items) (state ∷ [])) }
    ensures blocks { OnOk result (blocks.new.items ≡ blocks.old.items ++ job_blocks state) }
{
    let mut generator = Generator { state };
    let job = draw_job(&mut generator);
    push_job(jobs, job.task(blocks.len() as u32))?;
    push_blocks(blocks, generator, job.written())
}

/// Appends the job of this number, where it is the host's turn.
fn deal_job(
    jobs: &mut Vec<Job>,
    blocks: &mut Vec<[u8; 64]>,
    host: u32,
    i: u32,
    state: u64,
) -> Result<(), NoMemory>
    requires { length blocks.old.items < 2 ^ 32 }
    ensures jobs { OnOk result (jobs.new.items ≡ jobs.old.items ++ jobs_from (length blocks.old.items) (in_turn host i state)) }
    ensures blocks { OnOk result (blocks.new.items ≡ blocks.old.items ++ flat_map job_blocks (in_turn host i state)) }
{
    if i % HOSTS == host {
        add_job(jobs, blocks, state)
    } else {
        Ok(())
    }
}

/// The jobs of one of the eight hosts. Their blocks are appended to those of the hosts before it.
pub(crate) fn host_jobs(
    alloc: Global,
    n: u32,
    host: u32,
    blocks: &mut Vec<[u8; 64]>,
) -> Result<Vec<Job>, NoMemory>
    requires most { n ≤ 1500 }
    requires few { length blocks.old.items ≤ 8 * 1500 * host }
    requires host { host < 8 }
    ensures jobs { IfOk result (λ jobs. jobs.items ≡ jobs_from (length blocks.old.items) (dealt n host n)) }
    ensures blocks { OnOk result (blocks.new.items ≡ blocks.old.items ++ flat_map job_blocks (dealt n host n)) }
    ensures few { OnOk result (length blocks.new.items ≤ length blocks.old.items + 8 * n) }
{
    let mut jobs = Vec::new(alloc);
    let mut state = u64::from(n);
    for i in 0..n {
        deal_job(&mut jobs, blocks, host, i, state)?;
        state = after_job(state);
    }
    Ok(jobs)
}
