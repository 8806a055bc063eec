//! The ports of a switch, found by the addresses in their windows.

ghost use Rattle.std.specs.Prelude.{◌≡◌, ◌≤◌, ◌<◌, ◌-◌, All, IfOk, option_map};
ghost use Rattle.std.specs.List.{find};
ghost use Rattle.std.specs.Option.{option_copied};
ghost use Rattle.platform.specs.Owners.{holds_address};
ghost use Rattle.bridge.specs.Windows.{megabyte_of, place_reaching, places_from, reaches};

use fab_types::{NoMemory, PortId};
use platform::DownstreamPort;
use std::alloc::Global;
use std::marker::Model;

/// Windows begin and end at whole megabytes (PCIe 4.0, 7.5.1.3).
const MEGABYTE: u64 = 0x10_0000;

/// The ports of a switch, with a table of their windows by megabyte. A contract sees the ports.
#[derive(Debug, Drop)]
pub(crate) struct WindowedPorts {
    ports: Vec<DownstreamPort>,
    // the first megabyte of the table: no window reaches below it
    first: u64,
    // by megabyte from the first on: the place of the first port whose window reaches into it; no window reaches past them
    places: Vec<Option<usize>>,
}

impl Model for WindowedPorts {
    ghost use Rattle.std.specs.Prelude.{List};
    ghost use Rattle.platform.specs.declared.parts.DownstreamPort.{DownstreamPort};

    ghost Value = { List DownstreamPort };

    ghost use Rattle.bridge.specs.WindowedPorts.{AreWindowedPorts};

    ghost view = { λ s. s.ports.items };

    ghost invariant = { AreWindowedPorts };
}

fn reaches(port: &DownstreamPort, megabyte: u64) -> bool
    ensures { result ≡ reaches megabyte port.now }
{
    u64::from(port.base) / MEGABYTE <= megabyte && megabyte <= u64::from(port.limit) / MEGABYTE
}

fn place_reaching(ports: &[DownstreamPort], megabyte: u64) -> Option<usize>
    ensures { result ≡ place_reaching ports.now megabyte }
{
    ports.iter().position(|port| reaches(port, megabyte))
}

fn first_megabyte(ports: &[DownstreamPort]) -> u64
    ensures { All (λ port. result ≤ megabyte_of port.base) ports.now }
{
    ports
        .iter()
        .map(|port| u64::from(port.base) / MEGABYTE)
        .min()
        .unwrap_or(0)
}

fn past_megabyte(ports: &[DownstreamPort]) -> u64
    ensures { All (λ port. megabyte_of port.limit < result) ports.now }
{
    ports
        .iter()
        .map(|port| u64::from(port.limit) / MEGABYTE + 1)
        .max()
        .unwrap_or(0)
}

fn places_between(
    alloc: Global,
    ports: &[DownstreamPort],
    first: u64,
    past: u64,
) -> Result<Vec<Option<usize>>, NoMemory>
    ensures { IfOk result (λ places. places.items ≡ places_from ports.now first (past - first)) }
{
    Ok(
        (first..past)
            .map(|megabyte| place_reaching(ports, megabyte))
            .collect(alloc)?,
    )
}

fn port_to_address(ports: &[DownstreamPort], address: u64) -> Option<PortId>
    ensures { result ≡ option_map (λ port. port.id) (find (λ port. holds_address port address) ports.now) }
{
    ports
        .iter()
        .find(|port| port.holds_address(address))
        .map(|port| port.id)
}

impl WindowedPorts {
    /// These ports, with the table of their windows.
    pub(crate) fn new(alloc: Global, ports: Vec<DownstreamPort>) -> Result<WindowedPorts, NoMemory>
        ensures { IfOk result (λ windowed. windowed ≡ ports.items) }
    {
        let first = first_megabyte(&ports);
        let places = places_between(alloc, &ports, first, past_megabyte(&ports))?;
        Ok(WindowedPorts {
            ports,
            first,
            places,
        })
    }

    /// The ports.
    pub(crate) fn as_slice(&self) -> &[DownstreamPort]
        ensures { result.now ≡ self.now }
    {
        &self.ports
    }

    /// The first port whose window reaches into the megabyte of an address.
    fn port_near(&self, address: u64) -> Option<&DownstreamPort>
        ensures { option_copied result ≡ find (reaches (megabyte_of address)) self.now }
    {
        let place = (address / MEGABYTE).checked_sub(self.first)?;
        let entry = *self.places.get(place as usize)?;
        self.ports.get(entry?)
    }

    /// The port whose window has the address.
    pub(crate) fn port_to_address(&self, address: u64) -> Option<PortId>
        ensures { result ≡ option_map (λ port. port.id) (find (λ port. holds_address port address) self.now) }
    {
        let port = self.port_near(address)?;
        if port.holds_address(address) {
            return Some(port.id);
        }
        // another port may have it where windows aren't whole megabytes, as they are in each layout that was read
        port_to_address(&self.ports, address)
    }
}
