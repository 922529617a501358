//! Scripts: an array, its objects, and what hosts do on them.
use arrayvec::ArrayVec;
use raid_base::{HostNo, Job, Mode, Turn};
use std::alloc::Global;
use std::default::MadeWith;
use std::marker::Model;
use virtual_objects::Objects;

/// The greatest number of hosts.
pub const MAX_HOSTS: usize = 16;

/// A host and its jobs, in order.
#[derive(Drop)]
pub struct HostJobs {
    pub host: HostNo,
    pub jobs: Vec<Job>,
}

impl Model for HostJobs {
    ghost use Rattle.script_text.specs.Script.{HostJobs};

    ghost Value = { HostJobs };

    ghost view = { λ host. record { host = host.host; jobs = host.jobs.items } };
}

impl MadeWith<Global> for HostJobs {
    fn made_with(alloc: Global) -> HostJobs {
        HostJobs {
            host: HostNo(0),
            jobs: Vec::new(alloc),
        }
    }
}

/// A script: `n` devices of `rows` rows, the order of requests and its patience, how often a job is tried, the objects,
/// the hosts with their jobs, the blocks that jobs write, and the first turns.
///
/// Hosts rise by their numbers. The blocks of all writes stand in one list, in the order of the jobs.
#[derive(Drop)]
pub struct Script {
    pub n: u8,
    pub rows: u16,
    pub mode: Mode,
    pub patience: u64,
    pub tries: u8,
    pub objects: Objects,
    pub hosts: ArrayVec<HostJobs, MAX_HOSTS, Global>,
    pub blocks: Vec<[u8; 64]>,
    pub turns: Vec<Turn>,
}

impl Model for Script {
    ghost use Rattle.std.specs.Prelude.{◌≡◌, ◌∷◌, []};
    ghost use Rattle.script_text.specs.Script.{Script};

    ghost Value = { Script };

    ghost view = { λ script. record { n = script.n; rows = script.rows; mode = script.mode; patience = script.patience; tries = script.tries; objects = script.objects.objects; hosts = script.hosts.items; blocks = script.blocks.items; turns = script.turns.items } };

    ghost invariant = { λ script. (script.objects.n ≡ script.n) × (script.objects.rows ≡ script.rows) };
}

impl Script {
    ghost use Rattle.std.specs.Prelude.{◌≡◌};
    ghost use Rattle.script_text.specs.Script.{blocks_of};

    /// The hosts with their jobs, rising by their numbers.
    pub fn hosts(&self) -> &[HostJobs]
        ensures { result.now ≡ self.now.hosts }
    {
        self.hosts.as_slice()
    }

    /// So many blocks of the script's list, from this place on, as far as there are.
    pub fn blocks_of(&self, from: u32, count: u8) -> &[[u8; 64]]
        ensures { result.now ≡ blocks_of self.now from count }
    {
        let blocks = self.blocks.as_slice();
        let start = blocks.len().min(from as usize);
        let end = blocks.len().min(start + count as usize);
        &blocks[start..end]
    }
}
