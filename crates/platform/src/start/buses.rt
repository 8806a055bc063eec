//! What each bus number leads to, found once.

ghost use Rattle.std.specs.Prelude.{◌≡◌, IfOk, None, Some, if◌then◌else◌};
ghost use Rattle.platform.specs.Owners.{owner_of_bus};
ghost use Rattle.platform.specs.Buses.{IsBusTable, bar_at, bus_entry, controls_egress_above, is_below, leads_to};

use crate::owners::{owner_of_bus, port_with_secondary};
use crate::parts::{DownstreamPort, EndpointFunction};
use crate::start::reach::line_at;
use fab_types::{Bdf, DomainId, NoMemory};
use std::alloc::Global;

/// What a bus number leads to.
#[derive(Clone, Copy, Debug, PartialEq, Eq)]
pub(crate) struct BusEntry {
    /// The port directly above the bus.
    pub(crate) first_port: Option<DownstreamPort>,
    /// The owner of the ports above the bus.
    pub(crate) owner: Option<DomainId>,
    /// The line of the function whose first port has the bus below it.
    pub(crate) function: Option<EndpointFunction>,
    /// Is the bus directly below a port of the domain?
    pub(crate) is_own: bool,
    /// Does a port above the bus control egress?
    pub(crate) controls_egress: bool,
}

impl BusEntry {
    /// Does the bus lead to the function of this ID?
    pub(crate) fn leads_to(&self, id: Bdf) -> bool
        ensures { result ≡ leads_to self.now.function id }
    {
        match self.function {
            Some(line) => line.id == id,
            None => false,
        }
    }

    /// The BAR of the function of this ID, if the bus leads to it.
    pub(crate) fn bar_of(&self, id: Bdf) -> Option<u32>
        ensures { result ≡ bar_at self.now.function id }
    {
        match self.function {
            Some(line) => bar_if(line.id == id, line.bar),
            None => None,
        }
    }
}

fn bar_if(is_sought: bool, bar: u32) -> Option<u32>
    ensures { result ≡ (if is_sought then Some bar else None) }
{
    if is_sought { Some(bar) } else { None }
}

/// Is this bus directly below a port of the domain?
fn is_below(ports: &[DownstreamPort], domain: DomainId, bus: u8) -> bool
    ensures { result ≡ is_below ports.now domain bus }
{
    ports
        .iter()
        .any(|port| port.owner == domain && port.secondary == bus)
}

/// Does a port that has this bus below it control egress?
fn controls_egress_above(ports: &[DownstreamPort], bus: u8) -> bool
    ensures { result ≡ controls_egress_above ports.now bus }
{
    ports.iter().any(|port| port.holds_bus(bus) && port.controls.controls_egress())
}

fn bus_entry(
    ports: &[DownstreamPort],
    functions: &[EndpointFunction],
    domain: DomainId,
    bus: u8,
) -> BusEntry
    ensures { result ≡ bus_entry ports.now functions.now domain bus }
{
    BusEntry {
        first_port: port_with_secondary(ports, bus).copied(),
        owner: owner_of_bus(ports, bus),
        function: line_at(ports, functions, bus).copied(),
        is_own: is_below(ports, domain, bus),
        controls_egress: controls_egress_above(ports, bus),
    }
}

/// What each bus number leads to, for this domain.
pub(crate) fn bus_table(
    alloc: Global,
    ports: &[DownstreamPort],
    functions: &[EndpointFunction],
    domain: DomainId,
) -> Result<Vec<BusEntry>, NoMemory>
    ensures { IfOk result (λ table. IsBusTable ports.now functions.now domain table.items) }
{
    Ok(
        (0..=u8::MAX)
            .map(|bus| bus_entry(ports, functions, domain, bus))
            .collect(alloc)?,
    )
}
