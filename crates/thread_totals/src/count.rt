//! All domains are counted.

ghost use Rattle.std.specs.Prelude.{◌≡◌, ◌↔◌, [], IfOk, IsTrue, List, map};
ghost use Rattle.frame_log.specs.Descriptor.{Descriptor};
ghost use Rattle.thread_totals.specs.Balance.{AreBalanced, IsBalanced};
ghost use Rattle.thread_totals.specs.Counts.{totals_of};
ghost use Rattle.thread_totals.specs.Named.{AreNoted};
ghost use Rattle.thread_totals.specs.Standing.{frames_left};

use crate::crossing::have_once;
use crate::packet_name::PacketName;
use crate::ring_count::are_accepted;
use crate::rings::rings_of;
use crate::standing::standing;
use crate::totals::{Totals, totals_of};
use domain::Domain;
use fab_types::NoMemory;
use frame_log::Frame;
use std::alloc::Global;
use switch_output::VettedFrame;
use thread_rings::RingTally;
use thread_staff::Remains;

/// What counts of each domain, in their order, and whether all of it adds up.
#[derive(Drop)]
pub struct Count {
    /// The numbers of each domain.
    pub totals: Vec<Totals>,
    /// Was nothing of any domain lost or doubled?
    /// The packets of each that stand anywhere have the numbers that it has in flight, each once, and each begin
    /// that was taken for it is in its journal, refused or held.
    pub is_balanced: bool,
}

/// The same of one domain.
#[derive(Clone, Copy)]
struct DomainCount {
    totals: Totals,
    is_balanced: bool,
}

/// Counts a domain, where packets of these names stand.
fn count_one(
    alloc: Global,
    domain: &Domain,
    names: &[PacketName],
    remains: &[Remains],
) -> Result<DomainCount, NoMemory>
    ensures totals { (frames : List Descriptor) → AreNoted [] frames names.now → IfOk result (λ count. count.totals ≡ totals_of frames remains.now domain.now) }
    ensures balanced { (frames : List Descriptor) → AreNoted [] frames names.now → IfOk result (λ count. IsTrue count.is_balanced ↔ IsBalanced frames remains.now domain.now) }
{
    let rings = rings_of(alloc, domain.start(), remains)?;
    let totals = totals_of(alloc, domain, names, &rings)?;
    let is_balanced = have_once(alloc, domain, names)? && are_accepted(totals.begins, &rings);
    Ok(DomainCount {
        totals,
        is_balanced,
    })
}

/// Counts what a fabric left of these domains. That is what stood in its workers' hands, and in the rings of links and
/// between the ports of switches. It answers `NoMemory` where memory was refused.
pub fn count_all(
    alloc: Global,
    remains: &[Remains],
    links: &[RingTally<Frame>],
    pairs: &[RingTally<VettedFrame>],
    domains: &[Domain],
) -> Result<Count, NoMemory>
    ensures totals { IfOk result (λ count. count.totals.items ≡ map (totals_of (frames_left remains.now links.now pairs.now) remains.now) domains.now) }
    ensures balanced { IfOk result (λ count. IsTrue count.is_balanced ↔ AreBalanced (frames_left remains.now links.now pairs.now) remains.now domains.now) }
{
    let names = standing(alloc, remains, links, pairs)?;
    let mut totals = Vec::new(alloc);
    let mut is_balanced = true;
    for domain in domains {
        let count = count_one(alloc, domain, &names, remains)?;
        totals.push(count.totals)?;
        is_balanced = is_balanced && count.is_balanced;
    }
    Ok(Count {
        totals,
        is_balanced,
    })
}
