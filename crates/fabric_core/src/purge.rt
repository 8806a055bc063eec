//! A run, and a run without the events of other domains.

ghost use Rattle.std.specs.Prelude.{◌≡◌, ◌↔◌, ◌&&◌, ◌||◌, Err, IfOk, None, OnOk};
ghost use Rattle.fab_types.specs.declared.faults.runs.CompareFault.{CompareFault};
ghost use Rattle.fabric_core.specs.Events.{StepsTo};
ghost use Rattle.fabric_core.specs.Isolation.{domain_of, is_event_of};
ghost use Rattle.fabric_core.specs.Purging.{BothStep, StepsIf};
ghost use Rattle.fabric_core.specs.TakenOut.{AreBothRuns, is_moved, returns_credits};
ghost use Rattle.fabric_core.specs.World.{world_of};

use crate::comparison::has_domain;
use crate::event::Event;
use crate::fabric::Fabric;
use crate::laws::other_domains_can_be_taken_out;
use fab_types::{CompareFault, DomainId, NoMemory, Outcome};
use layout::Layout;
use std::alloc::Global;

fn is_event_of(fabric: &Fabric, domain: DomainId, event: &Event) -> bool
    ensures { result ≡ is_event_of fabric.now domain event.now }
{
    match fabric.home(event) {
        Some(home) => home == domain,
        None => false,
    }
}

/// Is an event left that had this outcome?
fn is_left(event: &Event, is_own: bool, outcome: Outcome) -> bool
    ensures { result ≡ returns_credits event.now || (is_own && is_moved outcome) }
{
    matches!(event, Event::Credit(_)) || (is_own && matches!(outcome, Outcome::Moved))
}

/// What comes of an event. Of all that a step promises it has the one clause that runs are made of.
fn outcome_of(fabric: &mut Fabric, event: &Event) -> Outcome
    ensures { StepsTo fabric.old event.now result fabric.new }
{
    fabric.step(event)
}

/// The second fabric makes an event where it is left.
fn follow(second: &mut Fabric, event: &Event, is_left: bool) -> Result<(), NoMemory>
    ensures { OnOk result (StepsIf is_left event.now second.old second.new) }
{
    if is_left && matches!(outcome_of(second, event), Outcome::NoMemory) {
        return Err(NoMemory);
    }
    Ok(())
}

/// One event: the first fabric makes it, and the second makes it where it is left.
fn advance(
    first: &mut Fabric,
    second: &mut Fabric,
    event: &Event,
    domain: DomainId,
) -> Result<(), NoMemory>
    ensures { OnOk result (BothStep domain event.now first.old first.new second.old second.new) }
{
    let is_own = is_event_of(first, domain, event);
    let outcome = outcome_of(first, event);
    follow(second, event, is_left(event, is_own, outcome))
}

/// Runs a list of events, and then what is left of it.
/// Each is run in a fresh fabric of the layout. The events are left that return credits, and of the others those
/// of the domain that moved. It answers both fabrics.
///
/// In a guarded layout each event that is left moves in the second run too, but that one that returns credits may
/// find none to return; and the domain has the same in both fabrics: its state, its journal, the place of each
/// of its packets, and the violations by its functions. So it can't tell the other domains' events from none.
///
/// `NoDomain` where the domain owns no port of the layout, which is tested before anything else; `NoMemory`
/// where memory was refused to the fabrics, or to an event of the second run. An event of the first run to
/// which memory was refused changed nothing, and isn't left.
pub fn purge_run(
    alloc: Global,
    layout: &Layout,
    events: &[Event],
    domain: DomainId,
) -> Result<(Fabric, Fabric), CompareFault>
    ensures domain { (result ≡ Err CompareFault.NoDomain) ↔ (domain_of (world_of layout.now) domain ≡ None) }
    ensures runs { IfOk result (λ fabrics. AreBothRuns domain (world_of layout.now) events.now fabrics.0 fabrics.1) }
{
    if !has_domain(layout, domain) {
        return Err(CompareFault::NoDomain);
    }
    let Ok(mut first) = Fabric::new(alloc, layout) else {
        return Err(CompareFault::NoMemory);
    };
    let Ok(mut second) = Fabric::new(alloc, layout) else {
        return Err(CompareFault::NoMemory);
    };
    for event in events {
        let Ok(()) = advance(&mut first, &mut second, event, domain) else {
            return Err(CompareFault::NoMemory);
        };
    }
    // for the proof: what holds of every platform, and what a domain has of what is left
    let _ = layout.ports();
    other_domains_can_be_taken_out();
    Ok((first, second))
}
