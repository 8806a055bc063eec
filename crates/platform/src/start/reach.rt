//! Which function or host an ID leads to.

ghost use Rattle.std.specs.Prelude.{◌≡◌, ◌<◌, if◌then◌else◌, slice_set, true};
ghost use Rattle.std.specs.List.{list_all};
ghost use Rattle.std.specs.Option.{option_copied};
ghost use Rattle.platform.specs.Reach.{holds_bus_if_any, is_noted, line_at, reach};
ghost use Rattle.platform.specs.Owners.{first_port, holds_bus};

use crate::owners::port_with_secondary;
use crate::parts::{DownstreamPort, EndpointFunction};
use crate::start::Start;
use fab_types::{Bdf, Origin};

/// Is the bus below the function's first port?
fn is_below(ports: &[DownstreamPort], line: &EndpointFunction, bus: u8) -> bool
    ensures { result ≡ holds_bus_if_any (first_port ports.now line.now.id) bus }
{
    match port_with_secondary(ports, line.id.bus()) {
        Some(port) => port.holds_bus(bus),
        None => false,
    }
}

/// Notes this bus if it is one of those that are sought.
fn note_if(is_sought: bool, buses: &mut [bool; 256], bus: u8)
    ensures noted { buses.new ≡ (if is_sought then slice_set buses.old bus true else buses.old) }
    ensures fits { bus < 256 }
{
    if is_sought {
        buses[usize::from(bus)] = true;
    }
}

/// Which buses are directly below a port that has this one below it?
fn first_buses(ports: &[DownstreamPort], bus: u8) -> [bool; 256]
    ensures { list_all (is_noted result bus) ports.now ≡ true }
{
    let mut buses = [false; 256];
    for port in ports {
        note_if(port.holds_bus(bus), &mut buses, port.secondary);
    }
    buses
}

/// The same of a function, whose ports needn't be gone through where its bus isn't noted.
fn is_reached(
    ports: &[DownstreamPort],
    first_buses: &[bool; 256],
    line: &EndpointFunction,
    bus: u8,
) -> bool
    requires { list_all (is_noted first_buses.now bus) ports.now ≡ true }
    ensures { result ≡ holds_bus_if_any (first_port ports.now line.now.id) bus }
{
    first_buses[usize::from(line.id.bus())] && is_below(ports, line, bus)
}

/// The line of the function whose first port has the bus below it.
pub(crate) fn line_at<'a>(
    ports: &[DownstreamPort],
    functions: &'a [EndpointFunction],
    bus: u8,
) -> Option<&'a EndpointFunction>
    ensures { option_copied result ≡ line_at ports.now functions.now bus }
{
    let first_buses = first_buses(ports, bus);
    functions
        .iter()
        .find(|line| is_reached(ports, &first_buses, line, bus))
}

impl Start {
    /// The function or host that an ID leads to, if any.
    /// It is the domain's host, if the ID is that host's, or the function whose first port has the ID's bus
    /// below it.
    pub fn reach(&self, id: Bdf) -> Option<Origin>
        ensures { result ≡ reach self.now id }
    {
        if id == self.domain().host() {
            return Some(Origin::Host(self.domain()));
        }
        match self.bus(id.bus()).function {
            Some(line) => Some(Origin::Function(line.id)),
            None => None,
        }
    }
}
