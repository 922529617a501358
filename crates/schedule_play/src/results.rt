//! What all hosts of a world have to tell: the results of their jobs and the contents of their reads.
ghost use Rattle.std.specs.Prelude.{◌≡◌, ◌++◌, ◌+◌, ◌≤◌, length, flat_map};
ghost use Rattle.std.specs.Vec.{vec_len, vec_capacity};
ghost use Rattle.host_engine.specs.declared.host.Host.{Host as HostView};

use host_engine::Host;
use raid_base::{Content, JobResult};

/// The results of all hosts, host after host and of each in the order of its jobs, at the end of a list with room for them.
pub fn collect_results(hosts: &[Host<'_>], results: &mut Vec<JobResult>)
    requires room { vec_len results.old + length (flat_map (λ (host : HostView). host.results.items) hosts.now) ≤ vec_capacity results.old }
    ensures items { results.new.items ≡ results.old.items ++ flat_map (λ (host : HostView). host.results.items) hosts.now }
    ensures room { vec_capacity results.old ≤ vec_capacity results.new }
{
    for host in hosts {
        match results.extend_from_slice(host.results()) {
            Ok(()) => {}
            Err(_) => unreachable!(),
        }
    }
}

/// The contents of all reads, in the order of the results, at the end of a list with room for them.
pub fn collect_contents(hosts: &[Host<'_>], contents: &mut Vec<Content>)
    requires room { vec_len contents.old + length (flat_map (λ (host : HostView). host.contents.items) hosts.now) ≤ vec_capacity contents.old }
    ensures items { contents.new.items ≡ contents.old.items ++ flat_map (λ (host : HostView). host.contents.items) hosts.now }
    ensures room { vec_capacity contents.old ≤ vec_capacity contents.new }
{
    for host in hosts {
        match contents.extend_from_slice(host.read_contents()) {
            Ok(()) => {}
            Err(_) => unreachable!(),
        }
    }
}
