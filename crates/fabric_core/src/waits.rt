//! Where a packet waits for a place.

ghost use Rattle.std.specs.Prelude.{◌≡◌, List};
ghost use Rattle.fab_types.specs.declared.violation.Violation.{Violation};
ghost use Rattle.frame_log.specs.Descriptor.{Descriptor};
ghost use Rattle.domains.specs.Agents.{AgentsView};
ghost use Rattle.interconnect.specs.Views.{IsSameRest, channels};
ghost use Rattle.fabric_core.specs.Waits.{waits};
ghost use Rattle.fabric_core.specs.World.{world_over};

use crate::station::Station;
use fab_types::Class;
use interconnect::Interconnect;

pub(crate) fn waits(interconnect: &mut Interconnect, station: &Station, class: Class) -> bool
    ensures value { (agents : AgentsView) (violations : List Violation) (strays : List Descriptor) → result ≡ waits (world_over interconnect.old agents violations strays) station.now class }
    ensures same { channels interconnect.new ≡ channels interconnect.old }
    ensures rest { IsSameRest interconnect.old interconnect.new }
{
    match station {
        Station::Port(port) => interconnect.waits(*port, class),
        Station::FunctionOutbox(_)
        | Station::HostOutbox(_)
        | Station::Link(_)
        | Station::Host
        | Station::Function(_) => false,
    }
}
