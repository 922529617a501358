//! Making a world: its hosts, and its bays over given stores.
ghost use Rattle.std.specs.Prelude.{◌≡◌, ◌<◌, ◌≤◌, ◌+◌, ◌^◌, ◌∷◌, ◌++◌, [], IfOk, IfErr, IfSome, IfNone, IsTrue, length, map, reverse, take, drop};
ghost use Rattle.std.specs.Vec.{vec_len, vec_capacity};
ghost use Rattle.raid_base.specs.declared.numbers.HostNo.{HostNo};
ghost use Rattle.script_text.specs.Script.{host_numbers, jobs_of};
ghost use Rattle.script_text.specs.Ranges.{all_jobs};
ghost use Rattle.script_text.specs.Weights.{total};
ghost use Rattle.histories.specs.Bounds.{IsPlayable};
ghost use Rattle.histories.specs.Quotas.{all_quotas};
ghost use Rattle.host_engine.specs.Stands.{IsFreshHost};
ghost use Rattle.host_engine.specs.declared.host.Host.{Host as HostView};
ghost use Rattle.schedule_play.specs.World.{EachAt, AllTell, AreOver, Shows, all_requests};
ghost use Rattle.schedule_play.specs.Gathering.{IsBlank, IsClosable};
ghost use Rattle.schedule_play.specs.Making.{AreMade, AreLarge, IsFirstSmall, IsRefusal, stores_of};

use crate::gathering::Gathered;
use crate::world::World;
use bay_device::{Bay, BayFault};
use block_store::Store;
use host_engine::Host;
use host_engine::room::{requests_in, with_room};
use raid_base::{BayNo, NoMemory};
use script_text::{Script, quota};
use std::alloc::Global;

/// Why a world wasn't made. Each hands all stores back, in order.
#[derive(Drop)]
pub enum WorldFault<D> {
    /// There are fewer stores than the script has devices.
    TooFew(Vec<D>),
    /// The store of this bay, and no earlier one, has fewer blocks than the script has rows.
    TooSmall(BayNo, Vec<D>),
    /// There was no memory.
    NoMemory(Vec<D>),
    /// The store of this bay failed.
    Fault(BayNo, Vec<D>),
}

/// The hosts of a script, each at its first request.
fn make_hosts<'s>(alloc: Global, script: &'s Script) -> Result<Vec<Host<'s>>, NoMemory>
    requires playable { IsPlayable script.now }
    requires jobs { (host : HostNo) → length (jobs_of script.now host) < 2 ^ 32 }
    ensures numbers { IfOk result (λ hosts. map (λ (h : HostView). h.no) hosts.items ≡ host_numbers script.now) }
    ensures fresh { IfOk result (λ hosts. EachAt (λ k (h : HostView). IsFreshHost script.now h.no h) hosts.items) }
{
    let mut hosts = with_room(alloc, script.hosts().len())?;
    for jobs in script.hosts() {
        hosts.push_reserved(Host::make(alloc, jobs.host, script)?);
    }
    Ok(hosts)
}

/// At most so many requests are made by all hosts.
fn all_requests(script: &Script) -> u32
    requires playable { IsPlayable script.now }
    requires few { all_requests script.now < 2 ^ 32 }
    requires jobs { (host : HostNo) → length (jobs_of script.now host) < 2 ^ 32 }
    ensures { result ≡ all_requests script.now }
{
    let mut requests = 0;
    for jobs in script.hosts() {
        requests += requests_in(script, jobs.jobs.as_slice()) as u32;
    }
    requests
}

/// At most so many requests are made to any one bay.
fn all_quotas(script: &Script) -> u32
    requires playable { IsPlayable script.now }
    requires few { all_quotas script.now < 2 ^ 32 }
    requires jobs { length (all_jobs script.now) < 2 ^ 32 }
    ensures { result ≡ all_quotas script.now }
{
    let mut quotas = 0;
    for jobs in script.hosts() {
        quotas += quota(script, jobs.host) as u32;
    }
    quotas
}

/// The first of so many stores that has fewer blocks than there are rows.
fn first_small<D: Store>(stores: &[D], devices: u8, rows: u16) -> Option<BayNo>
    requires { devices ≤ length stores.now }
    ensures small { IfSome result (λ bay. IsFirstSmall D.size devices rows bay.0 stores.now) }
    ensures large { IfNone result (AreLarge D.size devices rows stores.now) }
{
    for bay in 0..devices {
        if stores[bay as usize].blocks() < rows as u32 {
            return Some(BayNo(bay));
        }
    }
    None
}

/// All stores in order: those of the bays that were made, and the others, the last first.
fn put_back<D: Store>(mut bays: Vec<Bay<D>>, mut stores: Vec<D>) -> Vec<D>
    requires { vec_len stores + vec_len bays ≤ vec_capacity stores }
    ensures { result.items ≡ stores_of bays.items ++ reverse stores.items }
{
    while let Some(bay) = bays.pop() {
        let (store, _) = bay.close();
        stores.push_reserved(store);
    }
    stores.reverse();
    stores
}

/// The bays of a script over the first stores, and the other stores.
fn make_bays<D: Store>(
    alloc: Global,
    script: &Script,
    cap: u32,
    mut stores: Vec<D>,
) -> Result<(Vec<Bay<D>>, Vec<D>), WorldFault<D>>
    requires { AreLarge D.size script.now.n script.now.rows stores.items }
    ensures count { IfOk result (λ made. length made.0.items ≡ script.now.n) }
    ensures made { IfOk result (λ made. AreMade script.now cap stores.items made.0.items) }
    ensures others { IfOk result (λ made. made.1.items ≡ drop script.now.n stores.items) }
    ensures room { IfOk result (λ made. vec_len stores ≤ vec_capacity made.1) }
    ensures refused { IfErr result (IsRefusal D.Store script.now.n script.now.rows stores.items) }
{
    let mut bays = match with_room(alloc, script.n as usize) {
        Ok(bays) => bays,
        Err(_) => return Err(WorldFault::NoMemory(stores)),
    };
    stores.reverse();
    for bay in 0..script.n {
        let store = match stores.pop() {
            Some(store) => store,
            None => unreachable!(),
        };
        match Bay::make(alloc, store, script.rows, script.mode, script.patience, cap) {
            Ok(made) => bays.push_reserved(made),
            Err(fault) => match fault {
                BayFault::NoMemory(store) => {
                    stores.push_reserved(store);
                    return Err(WorldFault::NoMemory(put_back(bays, stores)));
                }
                BayFault::Fault(store) => {
                    stores.push_reserved(store);
                    return Err(WorldFault::Fault(BayNo(bay), put_back(bays, stores)));
                }
                BayFault::TooSmall(_) => unreachable!(),
            },
        }
    }
    stores.reverse();
    Ok((bays, stores))
}

impl<'s, D: Store> World<'s, D> {
    /// The bays and hosts of a script before their first turn, over its first stores. All memory that turns need is taken here.
    ///
    /// The stores are counted first, then their blocks. Stores beyond the script's devices stay as they are.
    pub fn make(
        alloc: Global,
        script: &'s Script,
        stores: Vec<D>,
    ) -> Result<World<'s, D>, WorldFault<D>>
        requires playable { IsPlayable script.now }
        requires few { total script.now ≤ 2 ^ 20 }
        requires jobs { length (all_jobs script.now) < 2 ^ 32 }
        ensures shows { IfOk result (λ world. Shows script.now [] world) }
        ensures tells { EachAt (λ k store. k < script.now.n → IsTrue (D.tells store)) stores.items → IfOk result (λ world. AllTell world.bays.items) }
        ensures made { IfOk result (λ world. AreMade script.now (all_quotas script.now) stores.items world.bays.items) }
        ensures others { IfOk result (λ world. world.others.items ≡ drop script.now.n stores.items) }
        ensures over { IfOk result (λ world. AreOver stores.items world.bays.items) }
        ensures blank { IfOk result (λ world. IsBlank script.now world.gathered) }
        ensures closable { IfOk result IsClosable }
        ensures large { IfOk result (λ world. AreLarge D.size script.now.n script.now.rows stores.items) }
        ensures refused { IfErr result (IsRefusal D.Store script.now.n script.now.rows stores.items) }
    {
        if stores.len() < script.n as usize {
            return Err(WorldFault::TooFew(stores));
        }
        if let Some(bay) = first_small(&stores, script.n, script.rows) {
            return Err(WorldFault::TooSmall(bay, stores));
        }
        let requests = all_requests(script);
        let quotas = all_quotas(script);
        let turns = match with_room(alloc, requests as usize) {
            Ok(turns) => turns,
            Err(_) => return Err(WorldFault::NoMemory(stores)),
        };
        let hosts = match make_hosts(alloc, script) {
            Ok(hosts) => hosts,
            Err(_) => return Err(WorldFault::NoMemory(stores)),
        };
        let gathered = match Gathered::make(alloc, script) {
            Ok(gathered) => gathered,
            Err(_) => return Err(WorldFault::NoMemory(stores)),
        };
        let (bays, others) = make_bays(alloc, script, quotas, stores)?;
        Ok(World {
            script,
            hosts,
            bays,
            turns,
            others,
            gathered,
        })
    }
}
