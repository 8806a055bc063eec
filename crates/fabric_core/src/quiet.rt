//! Where nothing can move in a fabric, before something is put there.

ghost use Rattle.std.specs.Prelude.{◌≡◌, List};
ghost use Rattle.fab_types.specs.declared.violation.Violation.{Violation};
ghost use Rattle.frame_log.specs.Descriptor.{Descriptor};
ghost use Rattle.domains.specs.Agents.{waiting_of};
ghost use Rattle.link.specs.Quiet.{none_eligible};
ghost use Rattle.fabric_core.specs.Stations.{is_quiet};
ghost use Rattle.fabric_core.specs.World.{world_over};

use crate::ends::top_link;
use crate::station::Station;
use domains::Agents;
use fab_types::{Direction, Origin, Way};
use interconnect::Interconnect;

/// May no packet leave the outbox of this origin, whatever its class? The oldest always may, so then none waits.
fn is_outbox_empty(agents: &Agents, origin: &Origin) -> bool
    ensures { result ≡ none_eligible (waiting_of agents.now.outboxes origin.now) }
{
    agents.is_outbox_empty(*origin)
}

pub(crate) fn is_quiet(interconnect: &Interconnect, agents: &Agents, station: &Station) -> bool
    ensures { (violations : List Violation) (strays : List Descriptor) → result ≡ is_quiet (world_over interconnect.now agents.now violations strays) station.now }
{
    match station {
        Station::FunctionOutbox(function) => {
            is_outbox_empty(agents, &Origin::Function(*function))
        }
        Station::HostOutbox(domain) => is_outbox_empty(agents, &Origin::Host(*domain)),
        Station::Port(port) => interconnect.is_input_empty(*port),
        Station::Link(direction) => interconnect.is_quiet(*direction),
        Station::Host => interconnect.is_ingress_empty(top_link(Way::Up)),
        Station::Function(function) => interconnect.is_ingress_empty(Direction {
            lower: *function,
            way: Way::Down,
        }),
    }
}
