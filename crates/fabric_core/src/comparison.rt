//! Two runs, compared by the journal of one domain.

ghost use Rattle.std.specs.Prelude.{◌≡◌, ◌↔◌, Err, IfOk, IsTrue, None, is_some};
ghost use Rattle.domains.specs.Agents.{AreReplayed};
ghost use Rattle.fab_types.specs.declared.faults.runs.CompareFault.{CompareFault};
ghost use Rattle.platform.specs.Owners.{owns_port};
ghost use Rattle.fabric_core.specs.Comparisons.{Compares, IsRun, journal_of};
ghost use Rattle.fabric_core.specs.Isolation.{domain_of};
ghost use Rattle.fabric_core.specs.World.{world_of};

use crate::event::Event;
use crate::fabric::Fabric;
use fab_types::{CompareFault, DomainId, NoMemory};
use layout::Layout;
use platform::{DownstreamPort, owns_port};
use std::alloc::Global;

/// What a comparison of two runs answers, with the fabric after each.
#[derive(Drop)]
pub enum Comparison {
    /// The domain's journals differ.
    JournalsDiffer(Fabric, Fabric),
    /// The domain's journals are equal, and with them its states.
    /// That is all that a state holds: memory, registers, records, open Tags, counts, and what is in flight.
    Equal(Fabric, Fabric),
}

/// Does the layout's fabric have the domain?
#[tactic(auto, using(crate::proofs::effect::Numbers::has_domain))]
pub(crate) fn has_domain(layout: &Layout, domain: DomainId) -> bool
    ensures { result ≡ is_some (domain_of (world_of layout.now) domain) }
{
    // for the proof: the number is 1 to 31
    let _ = domain.get();
    owns_port(layout.ports(), domain)
}

/// The layout's fabric after these events.
fn ran(alloc: Global, layout: &Layout, events: &[Event]) -> Result<Fabric, NoMemory>
    ensures run { IfOk result (λ fabric. IsRun (world_of layout.now) events.now fabric) }
    ensures alone { IfOk result (λ fabric. AreReplayed fabric.agents.domains) }
{
    let mut fabric = Fabric::new(alloc, layout)?;
    let _outcomes = fabric.run(alloc, events)?;
    Ok(fabric)
}

/// Has the domain the same journal in both?
fn has_same_journal(one: &Fabric, other: &Fabric, domain: DomainId) -> bool
    ensures { IsTrue result ↔ (journal_of domain other.now ≡ journal_of domain one.now) }
{
    match (one.domain(domain), other.domain(domain)) {
        (Some(one), Some(other)) => one.has_same_journal(other),
        (None, None) => true,
        _ => false,
    }
}

/// Runs two lists of events, and compares one domain's journals after them.
/// Each list is run in a fresh fabric of the layout. It answers both fabrics. Where the journals are equal, so
/// is all that the domain's state holds, since that is what its machine alone makes of its journal.
///
/// `NoDomain` where the domain owns no port of the layout, which is tested before anything else; `NoMemory`
/// where memory was refused to the fabrics or to the lists of their outcomes. An event to which memory was
/// refused changed nothing, and the run went on.
pub fn compare_runs(
    alloc: Global,
    layout: &Layout,
    events: &[Event],
    others: &[Event],
    domain: DomainId,
) -> Result<Comparison, CompareFault>
    ensures domain { (result ≡ Err CompareFault.NoDomain) ↔ (domain_of (world_of layout.now) domain ≡ None) }
    ensures compared { IfOk result (λ comparison. Compares domain (world_of layout.now) events.now others.now comparison) }
{
    if !has_domain(layout, domain) {
        return Err(CompareFault::NoDomain);
    }
    let Ok(one) = ran(alloc, layout, events) else {
        return Err(CompareFault::NoMemory);
    };
    let Ok(other) = ran(alloc, layout, others) else {
        return Err(CompareFault::NoMemory);
    };
    if has_same_journal(&one, &other, domain) {
        Ok(Comparison::Equal(one, other))
    } else {
        Ok(Comparison::JournalsDiffer(one, other))
    }
}
