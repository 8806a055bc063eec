//! The domains' hosts, and what ends at them.

ghost use Rattle.std.specs.Prelude.{◌≡◌, ◌<◌, IfErr, IfSome, OnErr, OnOk, length};
ghost use Rattle.thread_workers.specs.TakenBy.{frame_not_taken};
ghost use Rattle.thread_workers.specs.Ends.{HasNoCase};
ghost use Rattle.thread_workers.specs.declared.ends.taken_by.NotTaken.TheVariants as not_taken;
ghost use Rattle.thread_workers.specs.HostEnds.{EndsOwnAt, IsForeign};
ghost use Rattle.thread_workers.specs.Hosts.{AreSameHosts, HostChanges, host_place, host_with_places};
ghost use Rattle.received.specs.Received.{received_at_host};

use crate::ends::{NotTaken, end_own};
use crate::host::domain_host::DomainHost;
use fab_types::{DomainId, Origin, same_origin};
use frame_log::Frame;
use received::received_at_host;
use std::sync::Wait;
use thread_domains::Locks;

/// The place of a domain's host.
#[tactic(auto, unfolding(crate::specs::Hosts::host_place))]
pub(crate) fn host_place(hosts: &[DomainHost], domain: DomainId) -> Option<usize>
    ensures value { result ≡ host_place hosts.now domain }
    ensures within { IfSome result (λ place. place < length hosts.now) }
{
    let owner = Origin::Host(domain);
    hosts
        .iter()
        .position(|host| same_origin(host.outbox.origin(), owner))
}

/// The home of a packet that was taken has an entry of it, if it has a case for it, with what follows at this host.
fn end_at<R: Wait>(
    rt: &R,
    locks: &Locks,
    host: &mut DomainHost,
    frame: Frame,
) -> Result<(), NotTaken>
    ensures ended { OnOk result (EndsOwnAt frame host.old host.new) }
    ensures given { IfErr result (λ u. frame_not_taken u ≡ frame) }
    ensures stray { IfErr result (λ u. u ≡ not_taken.Stray frame → HasNoCase locks.now (received_at_host frame) frame) }
    ensures err { OnErr result (host.new ≡ host_with_places host.new.outbox.places host.old) }
{
    let received = received_at_host(&frame);
    end_own(
        rt,
        locks,
        received,
        &mut host.outbox,
        &mut host.ends.records,
        frame,
    )
}

/// The home of a packet that was taken has an entry of it.
/// It has if it has a case for it. What follows waits in its host's outbox, and the record of a completion goes
/// out there.
#[tactic(auto, using(crate::proofs::Growing::same_hosts))]
pub(crate) fn end_at_home<R: Wait>(
    rt: &R,
    locks: &Locks,
    hosts: &mut [DomainHost],
    frame: Frame,
) -> Result<(), NotTaken>
    ensures ended { OnOk result (HostChanges frame.domain (EndsOwnAt frame) hosts.old hosts.new) }
    ensures given { IfErr result (λ u. frame_not_taken u ≡ frame) }
    ensures stray { IfErr result (λ u. u ≡ not_taken.Stray frame → IsForeign locks.now hosts.old frame) }
    ensures err { OnErr result (AreSameHosts hosts.old hosts.new) }
{
    let Some(place) = host_place(hosts, frame.domain()) else {
        return Err(NotTaken::Stray(frame));
    };
    end_at(rt, locks, &mut hosts[place], frame)
}
