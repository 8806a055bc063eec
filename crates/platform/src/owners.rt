//! Who owns an ID, and which port stands above a function.

ghost use Rattle.std.specs.Prelude.{◌≡◌, ◌==◌, ◌&&◌, option_map};
ghost use Rattle.std.specs.List.{find, list_any};
ghost use Rattle.std.specs.Option.{option_copied};
ghost use Rattle.platform.specs.Owners.{bar_of, first_port, holds_address, holds_bus, is_function, is_own_function, owner_of, owner_of_bus, owner_of_parts, owns_port};

use crate::parts::{DownstreamPort, EndpointFunction};
use fab_types::{Bdf, DomainId};

impl DownstreamPort {
    /// Is the bus one of those below this port?
    pub fn holds_bus(&self, bus: u8) -> bool
        ensures { result ≡ holds_bus self.now bus }
    {
        self.secondary <= bus && bus <= self.subordinate
    }

    /// Is the address in this port's window?
    pub fn holds_address(&self, address: u64) -> bool
        ensures { result ≡ holds_address self.now address }
    {
        u64::from(self.base) <= address && address <= u64::from(self.limit)
    }
}

/// The owner of the first port whose buses have this one.
/// That port is the nearest to the root.
pub fn owner_of_bus(ports: &[DownstreamPort], bus: u8) -> Option<DomainId>
    ensures { result ≡ owner_of_bus ports.now bus }
{
    ports
        .iter()
        .find(|port| port.holds_bus(bus))
        .map(|port| port.owner)
}

/// The first of these ports with this secondary bus number.
pub fn port_with_secondary(ports: &[DownstreamPort], bus: u8) -> Option<&DownstreamPort>
    ensures { option_copied result ≡ find (λ port. port.secondary == bus) ports.now }
{
    ports.iter().find(|port| port.secondary == bus)
}

/// Is one of these functions the one of this ID?
pub fn is_function(functions: &[EndpointFunction], id: Bdf) -> bool
    ensures { result ≡ is_function functions.now id }
{
    functions.iter().any(|line| line.id == id)
}

/// The BAR of the function of this ID, if it is one of these (PCIe 4.0, 7.5.1.2.1).
pub fn bar_of(functions: &[EndpointFunction], id: Bdf) -> Option<u32>
    ensures { result ≡ bar_of functions.now id }
{
    functions
        .iter()
        .find(|line| line.id == id)
        .map(|line| line.bar)
}

/// Does the domain own one of these ports?
pub fn owns_port(ports: &[DownstreamPort], domain: DomainId) -> bool
    ensures { result ≡ owns_port ports.now domain }
{
    ports.iter().any(|port| port.owner == domain)
}

fn owner_of_number(ports: &[DownstreamPort], domain: u8) -> Option<DomainId>
    ensures { result ≡ option_map (λ port. port.owner) (find (λ port. port.owner == domain) ports.now) }
{
    ports
        .iter()
        .find(|port| port.owner.get() == domain)
        .map(|port| port.owner)
}

fn owner_of_parts(ports: &[DownstreamPort], bus: u8, device: u8, function: u8) -> Option<DomainId>
    ensures { result ≡ owner_of_parts ports.now bus device function }
{
    if bus != 0 {
        return owner_of_bus(ports, bus);
    }
    if function != 0 {
        return owner_of_bus(ports, bus);
    }
    match owner_of_number(ports, device) {
        Some(owner) => Some(owner),
        None => owner_of_bus(ports, bus),
    }
}

/// The domain that owns an ID, by the ports of a platform.
/// It is the domain whose host has the ID, if that owns a port, or the one that owns the ports above its bus.
pub fn owner_of(ports: &[DownstreamPort], id: Bdf) -> Option<DomainId>
    ensures { result ≡ owner_of ports.now id }
{
    owner_of_parts(ports, id.bus(), id.device(), id.function())
}
