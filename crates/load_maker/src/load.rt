//! The script of a load.
ghost use Rattle.std.specs.Prelude.{◌≡◌, ◌≤◌, [], IfOk, OnOk};
ghost use Rattle.virtual_objects.specs.Table.{with_object};
ghost use Rattle.load_maker.specs.Load.{half, host_blocks, load_hosts, load_mode, load_objects, load_script, operator};

use crate::jobs::{HOSTS, host_jobs};
use arrayvec::ArrayVec;
use raid_base::{BayNo, HostNo, Job, Mode, Name, NoMemory, RowNo, Task};
use script_text::{HostJobs, MAX_HOSTS, Script};
use std::alloc::Global;
use virtual_objects::Objects;

/// The device that is lost.
const LOST: BayNo = BayNo(3);

/// Rows of an object.
const HALF: u16 = 256;

/// 256 rows from this one on.
fn half(alloc: Global, row: u16) -> Result<Vec<RowNo>, NoMemory>
    requires { row ≤ 256 }
    ensures { IfOk result (λ rows. rows.items ≡ half row) }
{
    let mut rows = Vec::new(alloc);
    for more in 0..HALF {
        rows.push(RowNo(row + more)).map_err(|_| NoMemory)?;
    }
    Ok(rows)
}

/// Adds an object of 256 rows from this one on.
fn add_half(alloc: Global, objects: &mut Objects, name: &[u8], row: u16) -> Result<(), NoMemory>
    requires row { row ≤ 256 }
    requires rows { objects.old.rows ≡ 512 }
    ensures { OnOk result (objects.new ≡ with_object objects.old name.now (half row)) }
{
    let rows = half(alloc, row)?;
    let name = Name::new(name).ok_or(NoMemory)?;
    objects.add(name, &rows).map_err(|_| NoMemory)
}

/// The objects: `a` with the first half of the rows, and `b` with the second.
fn load_objects(alloc: Global) -> Result<Objects, NoMemory>
    ensures { IfOk result (λ objects. objects ≡ record { n = 8; rows = 512; objects = load_objects }) }
{
    let mut objects = Objects::make(alloc, 8, 2 * HALF)?;
    add_half(alloc, &mut objects, b"a", 0)?;
    add_half(alloc, &mut objects, b"b", HALF)?;
    Ok(objects)
}

/// The operator, who loses, fits and rebuilds a device.
fn operator(alloc: Global) -> Result<HostJobs, NoMemory>
    ensures { IfOk result (λ host. host ≡ operator) }
{
    let jobs = [
        Task::Lose { bay: LOST },
        Task::Fit { bay: LOST },
        Task::Rebuild { bay: LOST },
    ]
    .map(|task| Job { task, quit: None });
    match Vec::from_slice(alloc, &jobs) {
        Ok(jobs) => Ok(HostJobs {
            host: HostNo(0),
            jobs,
        }),
        Err(_) => Err(NoMemory),
    }
}

/// The operator and the eight hosts. The blocks that these write are appended, host by host.
fn load_hosts(
    alloc: Global,
    n: u32,
    blocks: &mut Vec<[u8; 64]>,
) -> Result<ArrayVec<HostJobs, MAX_HOSTS, Global>, NoMemory>
    requires most { n ≤ 1500 }
    requires empty { blocks.old.items ≡ [] }
    ensures hosts { IfOk result (λ hosts. hosts.items ≡ load_hosts n 8) }
    ensures blocks { OnOk result (blocks.new.items ≡ host_blocks n 8) }
{
    let mut hosts = ArrayVec::new_in(alloc);
    hosts.push(operator(alloc)?);
    for host in 0..HOSTS {
        let jobs = host_jobs(alloc, n, host, blocks)?;
        hosts.push(HostJobs {
            host: HostNo(host as u8 + 1),
            jobs,
        });
    }
    Ok(hosts)
}

fn load_mode(n: u32) -> Mode
    ensures { result ≡ load_mode n }
{
    if n % 2 == 0 { Mode::Order } else { Mode::Lock }
}

/// The load of `n` jobs: a script that is drawn from this number.
pub fn make_load(alloc: Global, n: u32) -> Result<Script, NoMemory>
    requires least { 1 ≤ n }
    requires most { n ≤ 1500 }
    ensures { IfOk result (λ script. script ≡ load_script n) }
{
    let objects = load_objects(alloc)?;
    let mut blocks = Vec::new(alloc);
    let hosts = load_hosts(alloc, n, &mut blocks)?;
    Ok(Script {
        n: 8,
        rows: 2 * HALF,
        mode: load_mode(n),
        patience: 64,
        tries: 8,
        objects,
        hosts,
        blocks,
        turns: Vec::new(alloc),
    })
}
