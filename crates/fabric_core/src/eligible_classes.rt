//! Of which classes a packet may leave a station (PCIe 4.0, 2.4.1).

ghost use Rattle.std.specs.Prelude.{◌≡◌, List, is_some};
ghost use Rattle.fab_types.specs.declared.class.Class.{Class};
ghost use Rattle.fab_types.specs.declared.violation.Violation.{Violation};
ghost use Rattle.frame_log.specs.Descriptor.{Descriptor};
ghost use Rattle.domains.specs.Agents.{AgentsView};
ghost use Rattle.interconnect.specs.Views.{channels};
ghost use Rattle.topology.specs.Links.{sender_of};
ghost use Rattle.fabric_core.specs.declared.station.Station.TheVariants.{Link, Port};
ghost use Rattle.fabric_core.specs.Isolation.{home_of_taken};
ghost use Rattle.fabric_core.specs.EligibleClasses.{AreEligible, has};
ghost use Rattle.fabric_core.specs.Arrivals.{taken_at};
ghost use Rattle.fabric_core.specs.World.{world_over};

use crate::ends::top_link;
use crate::station::Station;
use domains::Agents;
use fab_types::{Direction, Origin, PortId, Way};
use interconnect::Interconnect;
use port_queue::EligibleClasses;

fn from_port(interconnect: &Interconnect, port: PortId) -> EligibleClasses
    ensures { (agents : AgentsView) (violations : List Violation) (strays : List Descriptor) → AreEligible (world_over interconnect.now agents violations strays) (Port port) result }
{
    match interconnect.input(port) {
        Some(end) => interconnect.direction_at(end).eligible_at_receiver(),
        None => EligibleClasses::NONE,
    }
}

fn from_link(interconnect: &Interconnect, direction: Direction) -> EligibleClasses
    ensures { (agents : AgentsView) (violations : List Violation) (strays : List Descriptor) → AreEligible (world_over interconnect.now agents violations strays) (Link direction) result }
{
    match interconnect.sender(direction) {
        Some(end) => interconnect.direction_at(end).eligible_at_sender(),
        None => EligibleClasses::NONE,
    }
}

fn from_end_of(interconnect: &Interconnect, direction: Direction) -> EligibleClasses
    ensures { (class : Class) → has result class ≡ is_some (home_of_taken (taken_at (channels interconnect.now) class (sender_of (interconnect.now.tree).links direction))) }
{
    match interconnect.sender(direction) {
        Some(end) => interconnect.direction_at(end).eligible_at_receiver(),
        None => EligibleClasses::NONE,
    }
}

pub(crate) fn eligible_classes(
    interconnect: &Interconnect,
    agents: &Agents,
    station: &Station,
) -> EligibleClasses
    ensures { (violations : List Violation) (strays : List Descriptor) → AreEligible (world_over interconnect.now agents.now violations strays) station.now result }
{
    match station {
        Station::FunctionOutbox(function) => agents.eligible_classes(Origin::Function(*function)),
        Station::HostOutbox(domain) => agents.eligible_classes(Origin::Host(*domain)),
        Station::Port(port) => from_port(interconnect, *port),
        Station::Link(direction) => from_link(interconnect, *direction),
        Station::Host => from_end_of(interconnect, top_link(Way::Up)),
        Station::Function(function) => from_end_of(
            interconnect,
            Direction {
                lower: *function,
                way: Way::Down,
            },
        ),
    }
}
