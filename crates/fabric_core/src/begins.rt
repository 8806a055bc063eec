//! Begins: what functions and hosts ask for.

ghost use Rattle.std.specs.Prelude.{◌≢◌, List};
ghost use Rattle.fab_types.specs.declared.violation.Violation.{Violation};
ghost use Rattle.frame_log.specs.Descriptor.{Descriptor};
ghost use Rattle.interconnect.specs.Views.{InterconnectView};
ghost use Rattle.fabric_core.specs.declared.event.Event.TheVariants.{Mmio, Submit, Tick};
ghost use Rattle.fabric_core.specs.Events.{StepsTo};
ghost use Rattle.fabric_core.specs.World.{world_over};

use domains::Agents;
use fab_types::{
    Bdf, BeginFault, DomainId, HostAccess, MmioFault, Outcome, PacketBytes, SubmitFault, TickFault,
};

pub(crate) fn submit(agents: &mut Agents, function: Bdf, bytes: &PacketBytes) -> Outcome
    ensures steps { (h : InterconnectView) (violations : List Violation) (strays : List Descriptor) → StepsTo (world_over h agents.old violations strays) (Submit function bytes.now) result (world_over h agents.new violations strays) }
    ensures begun { result ≢ Outcome.Idle }
{
    match agents.submit(function, bytes) {
        Ok(()) => Outcome::Moved,
        Err(SubmitFault::NoMemory) => Outcome::NoMemory,
        Err(fault) => Outcome::Refused(BeginFault::Submit(fault)),
    }
}

pub(crate) fn tick(agents: &mut Agents, function: Bdf) -> Outcome
    ensures steps { (h : InterconnectView) (violations : List Violation) (strays : List Descriptor) → StepsTo (world_over h agents.old violations strays) (Tick function) result (world_over h agents.new violations strays) }
    ensures begun { result ≢ Outcome.Idle }
{
    match agents.tick(function) {
        Ok(()) => Outcome::Moved,
        Err(TickFault::NoMemory) => Outcome::NoMemory,
        Err(fault) => Outcome::Refused(BeginFault::Tick(fault)),
    }
}

pub(crate) fn mmio(agents: &mut Agents, domain: DomainId, access: &HostAccess) -> Outcome
    ensures steps { (h : InterconnectView) (violations : List Violation) (strays : List Descriptor) → StepsTo (world_over h agents.old violations strays) (Mmio domain access.now) result (world_over h agents.new violations strays) }
    ensures begun { result ≢ Outcome.Idle }
{
    match agents.mmio(domain, access) {
        Ok(()) => Outcome::Moved,
        Err(MmioFault::NoMemory) => Outcome::NoMemory,
        Err(fault) => Outcome::Refused(BeginFault::Mmio(fault)),
    }
}
