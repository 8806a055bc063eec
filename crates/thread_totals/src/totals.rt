//! What counts of a domain.

ghost use Rattle.std.specs.Prelude.{◌≡◌, [], IfOk, List, count_by, is_some};
ghost use Rattle.frame_log.specs.Descriptor.{Descriptor};
ghost use Rattle.thread_totals.specs.Counts.{totals_with};
ghost use Rattle.thread_totals.specs.Crossing.{all_left};
ghost use Rattle.thread_totals.specs.Named.{AreNoted, is_made_by};

use crate::crossing::flying;
use crate::packet_name::PacketName;
use crate::ring_count::{RingCount, held_in, refused_in, taken_in};
use domain::{Domain, emissions_are_consumed_once};
use fab_types::{DomainId, NoMemory};
use std::alloc::Global;

/// What counts of a domain at the stop of a fabric in threads.
#[derive(Clone, Copy, Debug, PartialEq, Eq)]
pub struct Totals {
    /// How many packets the domain made.
    pub emitted: u64,
    /// How many of these an entry of its journal ended.
    pub consumed: u64,
    /// How many stand in an outbox, a queue, a ring or a worker's hand.
    pub found: u64,
    /// How many begins workers took out of its injectors' rings.
    /// These are the injectors of its functions and of its host. This count and that of the
    /// refused ones stop at what 64 bits hold.
    pub taken: u64,
    /// How many begins are in its journal.
    pub begins: u64,
    /// How many it refused.
    pub refused: u64,
    /// How many workers took and still have.
    pub held: u64,
}

/// How many of these packets a domain made.
fn found_of(domain: DomainId, names: &[PacketName]) -> u64
    ensures { result ≡ count_by (is_made_by domain) names.now }
{
    names.iter().filter(|name| name.domain == domain).count() as u64
}

fn count_flying(flying: &[bool]) -> u64
    ensures { result ≡ all_left flying.now }
{
    flying.iter().filter(|is_flying| **is_flying).count() as u64
}

/// How many of the packets that a domain made are in flight.
fn waiting(alloc: Global, domain: &Domain) -> Result<u64, NoMemory>
    ensures { IfOk result (λ waiting. waiting ≡ count_by is_some domain.now.state.flight) }
{
    let flying = flying(alloc, domain)?;
    Ok(count_flying(&flying))
}

/// What counts of a domain, whose packets are among these and whose begins were counted so.
pub(crate) fn totals_of(
    alloc: Global,
    domain: &Domain,
    names: &[PacketName],
    rings: &[RingCount],
) -> Result<Totals, NoMemory>
    ensures { (frames : List Descriptor) → AreNoted [] frames names.now → IfOk result (λ totals. totals ≡ totals_with rings.now frames domain.now) }
{
    // for the proof: what an entry ended is no more in flight
    let _ = domain.journal();
    emissions_are_consumed_once();
    let emitted = domain.made();
    let waiting = waiting(alloc, domain)?;
    Ok(Totals {
        emitted,
        consumed: emitted - waiting,
        found: found_of(domain.start().domain(), names),
        taken: taken_in(rings),
        begins: u64::from(domain.counts().begins),
        refused: refused_in(rings),
        held: held_in(rings),
    })
}
