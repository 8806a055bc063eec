//! A switch and its own ports.

ghost use Rattle.std.specs.Prelude.{◌≡◌, ◌==◌, IfOk, option_map};
ghost use Rattle.fab_types.specs.Id.{bus_of};
ghost use Rattle.platform.specs.Tree.{is_on_bus};
ghost use Rattle.platform.specs.Tree.{port_at, internal_bus};
ghost use Rattle.bridge.specs.Routes.{to_holder};
ghost use Rattle.bridge.specs.Groups.{Group, group_of, holder_of, port_to_bus_of, bus_table_of};

use crate::route::Route;
use crate::target::Target;
use crate::windows::WindowedPorts;
use fab_types::{NoMemory, PortId};
use platform::{DownstreamPort, Switch, find_port, internal_bus, is_on_bus};
use std::alloc::Global;
use std::marker::Model;

/// A switch and the ports on its internal bus. A contract sees their lines.
#[derive(Debug, Drop)]
pub(crate) struct SwitchRoutes {
    line: Switch,
    ports: WindowedPorts,
    // by bus number: the port that has the bus below it
    table: Vec<Option<PortId>>,
}

impl Model for SwitchRoutes {
    ghost Value = { Group };

    ghost view = { λ s. record { line = s.line; ports = s.ports } };

    ghost invariant = { λ s. s.table.items ≡ bus_table_of s.ports };
}

fn port_to_bus(ports: &[DownstreamPort], bus: u8) -> Option<PortId>
    ensures { result ≡ port_to_bus_of ports.now bus }
{
    ports
        .iter()
        .find(|port| port.holds_bus(bus))
        .map(|port| port.id)
}

fn bus_table_of(alloc: Global, ports: &[DownstreamPort]) -> Result<Vec<Option<PortId>>, NoMemory>
    ensures { IfOk result (λ table. table.items ≡ bus_table_of ports.now) }
{
    Ok(
        (0..=u8::MAX)
            .map(|bus| port_to_bus(ports, bus))
            .collect(alloc)?,
    )
}

impl SwitchRoutes {
    /// The switch of this line, with its ports among these.
    pub(crate) fn new(
        alloc: Global,
        line: Switch,
        ports: &[DownstreamPort],
    ) -> Result<SwitchRoutes, NoMemory>
        ensures { IfOk result (λ switch. switch ≡ group_of ports.now line) }
    {
        let bus = internal_bus(&line);
        let ports: Vec<DownstreamPort> = ports
            .iter()
            .copied()
            .filter(|port| is_on_bus(bus, port))
            .collect(alloc)?;
        let table = bus_table_of(alloc, &ports)?;
        Ok(SwitchRoutes {
            line,
            ports: WindowedPorts::new(alloc, ports)?,
            table,
        })
    }

    /// Is its upstream port this one?
    pub(crate) fn has_upstream_port(&self, id: PortId) -> bool
        ensures { result ≡ (self.now.line.id == id) }
    {
        self.line.id == id.id()
    }

    /// Is its upstream port on this bus?
    pub(crate) fn is_below_bus(&self, bus: u8) -> bool
        ensures { result ≡ (bus_of self.now.line.id == bus) }
    {
        self.line.id.bus() == bus
    }

    /// Its port of this ID.
    pub(crate) fn port_at(&self, id: PortId) -> Option<DownstreamPort>
        ensures { result ≡ port_at self.now.ports id }
    {
        find_port(self.ports.as_slice(), id).copied()
    }

    /// By bus number: its port that has the bus below it.
    pub(crate) fn bus_table(&self) -> &[Option<PortId>]
        ensures { result.now ≡ bus_table_of self.now.ports }
    {
        &self.table
    }

    fn port_to_bus(&self, bus: u8) -> Option<PortId>
        ensures { result ≡ port_to_bus_of self.now.ports bus }
    {
        self.table[usize::from(bus)]
    }

    fn holder(&self, target: Option<Target>) -> Option<PortId>
        ensures { result ≡ option_map (λ port. port.id) (holder_of self.now target) }
    {
        match target {
            Some(Target::Bus(bus)) => self.port_to_bus(bus),
            Some(Target::Address(address)) => self.ports.port_to_address(address),
            None => None,
        }
    }

    /// To its port that has the target below it, if there is one.
    pub(crate) fn route(&self, otherwise: Route, target: Option<Target>) -> Route
        ensures { result ≡ to_holder otherwise (holder_of self.now target) }
    {
        match self.holder(target) {
            Some(id) => Route::Port(id),
            None => otherwise,
        }
    }
}
