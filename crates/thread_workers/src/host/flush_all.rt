//! Records that are held go out to the hosts' injectors.

ghost use Rattle.std.specs.Prelude.{◌≡◌, ◌<◌, length, map};
ghost use Rattle.thread_workers.specs.Hosts.{FlushesAt, FlushesHost, flushed};

use crate::host::domain_host::DomainHost;
use injector::flush;

/// Of one host.
fn flush_host(host: &mut DomainHost)
    ensures { FlushesHost host.old host.new }
{
    flush(&mut host.ends.records);
}

/// Of the one at this place.
#[tactic(auto, using(crate::proofs::Growing::same_flushed))]
fn flush_at(hosts: &mut [DomainHost], place: usize)
    requires { place < length hosts.old }
    ensures at { FlushesAt place hosts.old hosts.new }
    ensures kept { map flushed hosts.new ≡ map flushed hosts.old }
{
    flush_host(&mut hosts[place]);
}

/// Of each host, where its ring has a place.
pub(crate) fn flush_all(hosts: &mut [DomainHost])
    ensures { map flushed hosts.new ≡ map flushed hosts.old }
{
    for place in 0..hosts.len() {
        flush_at(hosts, place);
    }
}
