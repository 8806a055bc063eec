//! The ports of a platform, and who owns an ID.

ghost use Rattle.std.specs.Prelude.{◌≡◌, IfOk};
ghost use Rattle.platform.specs.Owners.{owner_of, owner_of_bus};
ghost use Rattle.bridge.specs.Owners.{owner_of_host, owners_of_buses, owners_of_hosts};

use fab_types::{Bdf, DomainId, NoMemory};
use platform::{DownstreamPort, owner_of};
use std::alloc::Global;
use std::marker::Model;

/// The downstream ports of a platform. The owner of an ID is not searched for: tables have it. A contract sees the ports.
#[derive(Debug, Drop)]
pub(crate) struct OwnedPorts {
    ports: Vec<DownstreamPort>,
    // by bus number: the owner of the ports above the bus
    buses: Vec<Option<DomainId>>,
    // by device number: the owner of that device of bus 0, function 0, which is the ID of a host
    hosts: Vec<Option<DomainId>>,
}

impl Model for OwnedPorts {
    ghost use Rattle.std.specs.Prelude.{List};
    ghost use Rattle.platform.specs.declared.parts.DownstreamPort.{DownstreamPort};

    ghost Value = { List DownstreamPort };

    ghost use Rattle.bridge.specs.OwnedPorts.{AreOwnedPorts};

    ghost view = { λ s. s.ports.items };

    ghost invariant = { AreOwnedPorts };
}

fn owner_of_bus(ports: &[DownstreamPort], bus: u8) -> Option<DomainId>
    ensures { result ≡ owner_of_bus ports.now bus }
{
    ports
        .iter()
        .find(|port| port.holds_bus(bus))
        .map(|port| port.owner)
}

fn owner_of_host(ports: &[DownstreamPort], device: u8) -> Option<DomainId>
    ensures { result ≡ owner_of_host ports.now device }
{
    owner_of(ports, Bdf::from_bits(u16::from(device) * 8))
}

fn owners_of_buses(
    alloc: Global,
    ports: &[DownstreamPort],
) -> Result<Vec<Option<DomainId>>, NoMemory>
    ensures { IfOk result (λ owners. owners.items ≡ owners_of_buses ports.now) }
{
    Ok(
        (0..=u8::MAX)
            .map(|bus| owner_of_bus(ports, bus))
            .collect(alloc)?,
    )
}

fn owners_of_hosts(
    alloc: Global,
    ports: &[DownstreamPort],
) -> Result<Vec<Option<DomainId>>, NoMemory>
    ensures { IfOk result (λ owners. owners.items ≡ owners_of_hosts ports.now) }
{
    Ok(
        (0..32u8)
            .map(|device| owner_of_host(ports, device))
            .collect(alloc)?,
    )
}

impl OwnedPorts {
    /// These ports, with the tables of their owners.
    pub(crate) fn new(alloc: Global, ports: &[DownstreamPort]) -> Result<OwnedPorts, NoMemory>
        ensures { IfOk result (λ owned. owned ≡ ports.now) }
    {
        Ok(OwnedPorts {
            ports: Vec::from_slice(alloc, ports)?,
            buses: owners_of_buses(alloc, ports)?,
            hosts: owners_of_hosts(alloc, ports)?,
        })
    }

    /// The ports.
    pub(crate) fn as_slice(&self) -> &[DownstreamPort]
        ensures { result.now ≡ self.now }
    {
        &self.ports
    }

    /// The domain that owns an ID.
    pub(crate) fn owner(&self, id: Bdf) -> Option<DomainId>
        ensures { result ≡ owner_of self.now id }
    {
        if id.bus() == 0 && id.function() == 0 {
            self.hosts[usize::from(id.device())]
        } else {
            self.buses[usize::from(id.bus())]
        }
    }
}
