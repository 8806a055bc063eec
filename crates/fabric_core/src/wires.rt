//! Packets leave outboxes, and travel on links.

ghost use Rattle.std.specs.Prelude.{◌≡◌, List, if◌then◌else◌};
ghost use Rattle.fab_types.specs.declared.violation.Violation.{Violation};
ghost use Rattle.fab_types.specs.declared.outcome.Outcome.TheVariants.{Idle, Moved};
ghost use Rattle.frame_log.specs.Descriptor.{Descriptor};
ghost use Rattle.fabric_core.specs.declared.event.Event.TheVariants.{Credit, Enter, Send, Take};
ghost use Rattle.fabric_core.specs.Events.{StepsTo, link_of};
ghost use Rattle.domains.specs.Agents.{AgentsView};
ghost use Rattle.fabric_core.specs.World.{world_over};

use domains::Agents;
use fab_types::{Bdf, Class, Direction, Origin, Outcome, Way};
use interconnect::Interconnect;

/// The link between the host and the top switch.
pub(crate) const TOP_SWITCH: u16 = 0x0100;

/// The direction by which packets leave an outbox.
fn link_of(origin: Origin) -> Direction
    ensures { result ≡ link_of origin }
{
    match origin {
        Origin::Function(function) => Direction {
            lower: function,
            way: Way::Up,
        },
        Origin::Host(_) => Direction {
            lower: Bdf::from_bits(TOP_SWITCH),
            way: Way::Down,
        },
    }
}

/// What this origin emitted goes to the sender of its link.
pub(crate) fn enter(
    interconnect: &mut Interconnect,
    agents: &mut Agents,
    origin: Origin,
    class: Class,
) -> Outcome
    ensures { (violations : List Violation) (strays : List Descriptor) → StepsTo (world_over interconnect.old agents.old violations strays) (Enter origin class) result (world_over interconnect.new agents.new violations strays) }
{
    let from = origin;
    let Some(end) = interconnect.sender(link_of(from)) else {
        return Outcome::Idle;
    };
    if interconnect.is_full_at(end, class) {
        return Outcome::Idle;
    }
    match agents.take(origin, class) {
        Some(frame) => {
            interconnect.put_at(end, frame);
            Outcome::Moved
        }
        None => Outcome::Idle,
    }
}

fn moved_if(has_moved: bool) -> Outcome
    ensures { result ≡ (if has_moved then Moved else Idle) }
{
    if has_moved {
        Outcome::Moved
    } else {
        Outcome::Idle
    }
}

pub(crate) fn send(interconnect: &mut Interconnect, direction: Direction, class: Class) -> Outcome
    ensures { (agents : AgentsView) (violations : List Violation) (strays : List Descriptor) → StepsTo (world_over interconnect.old agents violations strays) (Send direction class) result (world_over interconnect.new agents violations strays) }
{
    moved_if(interconnect.send(direction, class))
}

pub(crate) fn deliver(interconnect: &mut Interconnect, direction: Direction) -> Outcome
    ensures { (agents : AgentsView) (violations : List Violation) (strays : List Descriptor) → StepsTo (world_over interconnect.old agents violations strays) (Take direction) result (world_over interconnect.new agents violations strays) }
{
    moved_if(interconnect.deliver(direction))
}

pub(crate) fn update_fc(interconnect: &mut Interconnect, direction: Direction) -> Outcome
    ensures { (agents : AgentsView) (violations : List Violation) (strays : List Descriptor) → StepsTo (world_over interconnect.old agents violations strays) (Credit direction) result (world_over interconnect.new agents violations strays) }
{
    moved_if(interconnect.update_fc(direction))
}
