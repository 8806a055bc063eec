//! The rings of begins of a domain.

ghost use Rattle.std.specs.Prelude.{◌≡◌, ◌++◌, ◌∷◌, [], IfOk, OnOk};
ghost use Rattle.std.specs.List.{flat_map};
ghost use Rattle.thread_totals.specs.Begins.{AddUp, host_ring, ring_count, rings_by, rings_of};

use crate::ring_count::{RingCount, count_of};
use fab_types::{DomainId, NoMemory, Origin, same_origin};
use injector::BeginRing;
use layout::Start;
use std::alloc::Global;
use thread_staff::{Parts, Remains};
use thread_workers::DomainHost;

fn add(rings: &mut Vec<RingCount>, ring: &BeginRing) -> Result<(), NoMemory>
    ensures more { OnOk result (rings.new.items ≡ rings.old.items ++ ring_count ring.now ∷ []) }
    ensures sums { AddUp rings.old.items → OnOk result (AddUp rings.new.items) }
{
    rings.push(count_of(ring))?;
    Ok(())
}

/// Those of a domain's host.
fn add_hosts(
    rings: &mut Vec<RingCount>,
    domain: DomainId,
    hosts: &[DomainHost],
) -> Result<(), NoMemory>
    ensures more { OnOk result (rings.new.items ≡ rings.old.items ++ flat_map (host_ring domain) hosts.now) }
    ensures sums { AddUp rings.old.items → OnOk result (AddUp rings.new.items) }
{
    for host in hosts {
        if same_origin(host.outbox.origin(), Origin::Host(domain)) {
            add(rings, &host.ends.begins)?;
        }
    }
    Ok(())
}

/// Those that a worker serves this domain from.
fn add_by(rings: &mut Vec<RingCount>, start: &Start, remains: &Remains) -> Result<(), NoMemory>
    ensures more { OnOk result (rings.new.items ≡ rings.old.items ++ rings_by start.now remains.now) }
    ensures sums { AddUp rings.old.items → OnOk result (AddUp rings.new.items) }
{
    match &remains.parts {
        Parts::Port(_) => Ok(()),
        Parts::Function(left) => {
            if start.owns_function(left.function) {
                add(rings, &left.begins)?;
            }
            Ok(())
        }
        Parts::Host(left) => add_hosts(rings, start.domain(), &left.hosts),
    }
}

/// What workers counted of the rings that this domain was served from.
pub(crate) fn rings_of(
    alloc: Global,
    start: &Start,
    remains: &[Remains],
) -> Result<Vec<RingCount>, NoMemory>
    ensures rings { IfOk result (λ rings. rings.items ≡ rings_of start.now remains.now) }
    ensures sums { IfOk result (λ rings. AddUp rings.items) }
{
    let mut rings = Vec::new(alloc);
    for worker in remains {
        add_by(&mut rings, start, worker)?;
    }
    Ok(rings)
}
