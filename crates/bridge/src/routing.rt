//! The switches of a platform, and where their ports send packets.

ghost use Rattle.std.specs.Prelude.{◌≡◌, ◌==◌, ℕ, ◌≤◌, count_by, All, true, Some, IfOk, option_map};
ghost use Rattle.std.specs.List.{list_all};
ghost use Rattle.std.specs.Option.{option_copied};
ghost use Rattle.fab_types.specs.Id.{bus_of};
ghost use Rattle.platform.specs.declared.parts.DownstreamPort.{DownstreamPort};
ghost use Rattle.platform.specs.Egress.{goes_directly};
ghost use Rattle.platform.specs.Owners.{owner_of};
ghost use Rattle.platform.specs.Share.{is_guarded_port};
ghost use Rattle.bridge.specs.Groups.{route_across, route_into, route_among};
ghost use Rattle.bridge.specs.Routes.{bus_table, is_holder, route_of, switch_at, switch_bus, exit_at, target_of, holds};

use crate::owners::OwnedPorts;
use crate::route::Route;
use crate::switch::SwitchRoutes;
use crate::switches::SwitchTable;
use crate::target::{Target, holds};
use fab_types::{Bdf, DomainId, Header, NoMemory, PortId};
use layout::Layout;
use platform::{DownstreamPort, Switch, goes_directly};
use std::alloc::Global;
use std::marker::Model;

/// The switches of a platform and their ports. A contract sees their lines.
#[derive(Debug)]
pub struct Bridge {
    // the lines, in the order of the layout: what a contract sees
    lines: Vec<Switch>,
    ports: OwnedPorts,
    // each switch with its own ports, among which a route is found
    switches: SwitchTable,
    // are all five controls set on each port?
    is_guarded: bool,
}

impl Model for Bridge {
    ghost use Rattle.bridge.specs.Bridges.{Routes, routes_of, IsBridge};

    ghost Value = { Routes };

    ghost view = { routes_of };

    ghost invariant = { IsBridge };
}

// written out: a derived one would put all its vectors into the proof of whoever drops a bridge
impl Drop for Bridge {
    fn drop(self) {
        let Bridge {
            lines: _,
            ports: _,
            switches: _,
            is_guarded: _,
        } = self;
    }
}

fn route_across(switch: &SwitchRoutes, own: &DownstreamPort, target: Option<Target>) -> Route
    ensures { result ≡ route_across switch.now own.now target }
{
    if holds(own, target) {
        return Route::OwnEgress;
    }
    switch.route(Route::Up, target)
}

fn route_into(switch: Option<&SwitchRoutes>, target: Option<Target>) -> Route
    ensures { result ≡ route_into (option_copied switch.entry) target }
{
    match switch {
        Some(switch) => switch.route(Route::Nobody, target),
        None => Route::Nobody,
    }
}

fn route_among(switches: &SwitchTable, ingress: PortId, target: Option<Target>) -> Route
    ensures { result ≡ route_among switches.now ingress target }
{
    if let Some(switch) = switches.on_bus(ingress.id().bus()) {
        if let Some(own) = switch.port_at(ingress) {
            return route_across(switch, &own, target);
        }
    }
    route_into(switches.at(ingress), target)
}

impl Bridge {
    ghost use Rattle.bridge.specs.Bridges.{of_platform};

    /// The switches of a layout. It answers `NoMemory` where memory was refused. No other call takes
    /// memory.
    pub fn new(alloc: Global, layout: &Layout) -> Result<Bridge, NoMemory>
        ensures { IfOk result (λ bridge. bridge ≡ of_platform layout.now) }
    {
        let lines = Vec::from_slice(alloc, layout.switches())?;
        let ports = OwnedPorts::new(alloc, layout.ports())?;
        let switches = SwitchTable::new(alloc, &lines, ports.as_slice())?;
        Ok(Bridge {
            lines,
            ports,
            switches,
            is_guarded: layout.is_guarded(),
        })
    }

    /// Where the switch of this upstream port sends completions, by bus number.
    /// At each of the 256 bus numbers is its downstream port whose buses, from the secondary to the subordinate
    /// bus, have that number, if there is one (PCIe 4.0, 2.2.4.2 and 7.5.1.3). None where the layout has no
    /// such switch.
    pub fn bus_table(&self, switch: PortId) -> Option<&[Option<PortId>]>
        ensures { option_copied result ≡ option_map (bus_table self.now.ports) (switch_at self.now.switches switch) }
    {
        self.switches.at(switch).map(|switch| switch.bus_table())
    }

    /// Where a packet with this header goes that came into a switch.
    /// It came in at `ingress`, a downstream port or the upstream port of the switch. A port that the layout
    /// hasn't sends it to nobody.
    pub fn route(&self, ingress: PortId, header: &Header) -> Route
        ensures exact { result ≡ route_of self.now.switches self.now.ports ingress header.now }

        // At most one port on a bus has the target below it.
        ensures once { (bus : ℕ) → count_by (is_holder bus (target_of header.now)) self.now.ports ≤ 1 }

        // If a port of the switch has it below, the answer is that port.
        ensures held { All (λ port. switch_bus self.now.switches self.now.ports ingress ≡ Some (bus_of port.id)
            → holds port (target_of header.now) ≡ true → result ≡ exit_at ingress port.id) self.now.ports }
    {
        route_among(&self.switches, ingress, Target::of(header))
    }

    /// The domain that owns an ID, if any does.
    /// It is the domain whose host has the ID, if that owns a port, or the one that owns the ports above its
    /// bus.
    pub fn owner(&self, id: Bdf) -> Option<DomainId>
        ensures { result ≡ owner_of self.now.ports id }
    {
        self.ports.owner(id)
    }

    /// Does a request of this sender for this address go directly to this function?
    /// It does where a port above the sender lets it through to another port of its switch, by ACS P2P Egress
    /// Control (PCIe 4.0, 6.12.1.1).
    pub fn goes_directly(&self, sender: Bdf, address: u64, function: Bdf) -> bool
        ensures { result ≡ goes_directly self.now.ports sender address function }
    {
        goes_directly(self.ports.as_slice(), sender, address, function)
    }

    /// Are all five ACS controls set on each downstream port (PCIe 4.0, 6.12.1)?
    pub fn is_guarded(&self) -> bool
        ensures { result ≡ list_all is_guarded_port self.now.ports }
    {
        self.is_guarded
    }
}
