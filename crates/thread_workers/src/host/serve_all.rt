//! What came from the hosts' injectors is served.

ghost use Rattle.std.specs.Prelude.{◌≡◌, ◌<◌, false, length, map};
ghost use Rattle.thread_workers.specs.Serving.{has_served};
ghost use Rattle.thread_workers.specs.Hosts.{ServesAt, ServesHost, unserved};

use crate::ends::{Begun, serve_begin};
use crate::host::domain_host::DomainHost;
use fab_types::Origin;
use std::sync::Wait;
use thread_domains::Locks;

/// The domain of a host has its next begin, if there is one.
fn serve_host<R: Wait>(rt: &R, locks: &Locks, host: &mut DomainHost) -> Begun
    ensures served { ServesHost locks.now result host.old host.new }
    ensures rests { has_served result ≡ false → unserved host.new ≡ unserved host.old }
    ensures origin { host.new.outbox.origin ≡ host.old.outbox.origin }
{
    match host.outbox.origin() {
        Origin::Host(domain) => serve_begin(
            rt,
            locks,
            domain,
            &mut host.outbox,
            &mut host.ends.begins,
        ),
        Origin::Function(_) => Begun::Idle,
    }
}

/// The host at this place. Did a begin leave its ring for good?
#[tactic(auto, using(crate::proofs::Growing::same_unserved, crate::proofs::Growing::same_origins))]
fn serve_at<R: Wait>(rt: &R, locks: &Locks, hosts: &mut [DomainHost], place: usize) -> bool
    requires { place < length hosts.old }
    ensures served { ServesAt locks.now place hosts.old hosts.new result }
    ensures rests { result ≡ false → map unserved hosts.new ≡ map unserved hosts.old }
    ensures origins { map (λ host. host.outbox.origin) hosts.new ≡ map (λ host. host.outbox.origin) hosts.old }
{
    let begun = serve_host(rt, locks, &mut hosts[place]);
    begun.has_moved()
}

/// One host after another, a begin each. Did one leave its ring for good?
pub(crate) fn serve_all<R: Wait>(rt: &R, locks: &Locks, hosts: &mut [DomainHost]) -> bool
    ensures rests { result ≡ false → map unserved hosts.new ≡ map unserved hosts.old }
    ensures origins { map (λ host. host.outbox.origin) hosts.new ≡ map (λ host. host.outbox.origin) hosts.old }
{
    let mut has_moved = false;
    for place in 0..hosts.len() {
        if serve_at(rt, locks, hosts, place) {
            has_moved = true;
        }
    }
    has_moved
}
