//! Whose an event is: which domain begins something, or made the packet that would be taken.

ghost use Rattle.std.specs.Prelude.{◌≡◌, List};
ghost use Rattle.std.specs.Option.{option_and_then};
ghost use Rattle.domains.specs.Agents.{AgentsView};
ghost use Rattle.fab_types.specs.declared.violation.Violation.{Violation};
ghost use Rattle.frame_log.specs.Descriptor.{Descriptor};
ghost use Rattle.interconnect.specs.Passes.{input_of};
ghost use Rattle.interconnect.specs.Views.{channels};
ghost use Rattle.topology.specs.Links.{sender_of};
ghost use Rattle.fabric_core.specs.Arrivals.{taken_at};
ghost use Rattle.fabric_core.specs.Isolation.{home, home_of_taken, home_sent, home_travelling, number_of};
ghost use Rattle.fabric_core.specs.World.{world_over};
ghost use Rattle.domains.specs.Domains.{domain_at, place_of};

use crate::ends::top_link;
use crate::event::Event;
use domains::Agents;
use fab_types::{Class, Direction, DomainId, PortId, Way};
use interconnect::Interconnect;

/// Of the eligible packet of a class that waits at the receiver of a direction.
fn home_received(
    interconnect: &Interconnect,
    direction: Direction,
    class: Class,
) -> Option<DomainId>
    ensures { result ≡ home_of_taken (taken_at (channels interconnect.now) class (sender_of (interconnect.now.tree).links direction)) }
{
    match interconnect.sender(direction) {
        Some(end) => interconnect.home_received_at(end, class),
        None => None,
    }
}

/// Of the eligible packet of a class that came into a port.
fn home_passed(interconnect: &Interconnect, port: PortId, class: Class) -> Option<DomainId>
    ensures { result ≡ home_of_taken (taken_at (channels interconnect.now) class (input_of (interconnect.now.tree).places port)) }
{
    match interconnect.input(port) {
        Some(end) => interconnect.home_received_at(end, class),
        None => None,
    }
}

/// Of the eligible packet of a class that waits at the sender of a direction.
fn home_sent(interconnect: &Interconnect, direction: Direction, class: Class) -> Option<DomainId>
    ensures { (agents : AgentsView) (violations : List Violation) (strays : List Descriptor) → result ≡ option_and_then (home_sent (world_over interconnect.now agents violations strays) class) (sender_of (interconnect.now.tree).links direction) }
{
    match interconnect.sender(direction) {
        Some(end) => interconnect.home_sent_at(end, class),
        None => None,
    }
}

/// Of the oldest packet on the wire of a direction.
fn home_travelling(interconnect: &Interconnect, direction: Direction) -> Option<DomainId>
    ensures { (agents : AgentsView) (violations : List Violation) (strays : List Descriptor) → result ≡ option_and_then (home_travelling (world_over interconnect.now agents violations strays)) (sender_of (interconnect.now.tree).links direction) }
{
    match interconnect.sender(direction) {
        Some(end) => interconnect.home_travelling_at(end),
        None => None,
    }
}

fn number_of(agents: &Agents, domain: DomainId) -> Option<DomainId>
    ensures { result ≡ number_of (domain_at agents.now.domains (place_of agents.now.domains domain)) }
{
    match agents.domain(domain) {
        Some(home) => Some(home.start().domain()),
        None => None,
    }
}

/// The domain that an event is of, if it is of one: of a begin the one whose function or host begins, and of an event
/// that takes a packet the one that made it.
pub(crate) fn home(interconnect: &Interconnect, agents: &Agents, event: &Event) -> Option<DomainId>
    ensures { (violations : List Violation) (strays : List Descriptor) → result ≡ home (world_over interconnect.now agents.now violations strays) event.now }
{
    match event {
        Event::Submit(function, _) => agents.home_of_function(*function),
        Event::Tick(function) => agents.home_of_function(*function),
        Event::Mmio(domain, _) => number_of(agents, *domain),
        Event::Enter(origin, class) => agents.home(*origin, *class),
        Event::Pass(port, class) => home_passed(interconnect, *port, *class),
        Event::Send(direction, class) => home_sent(interconnect, *direction, *class),
        Event::Take(direction) => home_travelling(interconnect, *direction),
        Event::Credit(_) => None,
        Event::Root(class) => home_received(interconnect, top_link(Way::Up), *class),
        Event::Arrive(function, class) => {
            let down = Direction {
                lower: *function,
                way: Way::Down,
            };
            home_received(interconnect, down, *class)
        }
    }
}
