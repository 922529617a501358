//! What a host looks up in its script.
ghost use Rattle.std.specs.Prelude.{◌≡◌, ◌≤◌, ◌<◌, ◌^◌, take, drop, IfOk};
ghost use Rattle.attempts.specs.Parts.{blocks_in};
ghost use Rattle.virtual_objects.specs.RowParts.{AreRowParts};
ghost use Rattle.script_text.specs.Script.{jobs_of, parts_of, blocks_of};
ghost use Rattle.host_engine.specs.Parts.{parts_as_items, jobs_in_hosts};

use raid_base::{HostNo, Job, Name, PartsFault};
use script_text::{HostJobs, Script};
use virtual_objects::RowParts;

/// How often a job is tried.
pub fn tries(script: &Script) -> u8
    ensures { result ≡ script.now.tries }
{
    script.tries
}

/// The number of rows.
pub fn rows(script: &Script) -> u16
    ensures { result ≡ script.now.rows }
{
    script.rows
}

/// The jobs of one of these hosts, and none where it isn't there.
fn jobs_in(hosts: &[HostJobs], host: HostNo) -> &[Job]
    ensures { result.now ≡ jobs_in_hosts hosts.now host }
{
    for jobs in hosts {
        if jobs.host == host {
            return jobs.jobs.as_slice();
        }
    }
    &[]
}

/// The jobs of a host.
pub fn jobs_of(script: &Script, host: HostNo) -> &[Job]
    ensures { result.now ≡ jobs_of script.now host }
{
    jobs_in(script.hosts.as_slice(), host)
}

/// Some blocks of a list, as many of them as there are.
fn part(blocks: &[[u8; 64]], from: usize, count: usize) -> &[[u8; 64]]
    ensures { result.now ≡ take count (drop from blocks.now) }
{
    if from >= blocks.len() {
        return &[];
    }
    let rest = &blocks[from..];
    &rest[..count.min(rest.len())]
}

/// The number of devices.
pub fn devices(script: &Script) -> u8
    ensures value { result ≡ script.now.n }
    ensures range { (3 ≤ result) × (result ≤ 16) }
{
    script.objects.devices()
}

/// The blocks of a write.
pub fn blocks_of(script: &Script, from: u32, count: u8) -> &[[u8; 64]]
    ensures { result.now ≡ blocks_of script.now from count }
{
    part(script.blocks.as_slice(), from as usize, count as usize)
}

/// The rows and units of some blocks of an object.
pub fn parts_of(
    script: &Script,
    object: &Name,
    first: u32,
    count: u8,
) -> Result<RowParts, PartsFault>
    requires some { 1 ≤ count }
    requires few { count ≤ 120 }
    requires low { first < 2 ^ 20 }
    ensures value { parts_as_items result ≡ parts_of script.now object.now first count }
    ensures sound { IfOk result (λ parts. AreRowParts script.now.n parts.items × (blocks_in parts.items ≡ count)) }
{
    script.objects.parts(object, first, count)
}
