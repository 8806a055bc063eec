//! Where switches, ports and functions stand (PCIe 4.0, 7.5.1.3).

ghost use Rattle.std.specs.Prelude.{◌≡◌, ◌==◌};
ghost use Rattle.std.specs.List.{find};
ghost use Rattle.std.specs.Option.{option_copied};
ghost use Rattle.platform.specs.Tree.{is_on_bus, port_at, id_below, port_leading_to, is_switch, has_root, internal_bus, switch_on, port_above, port_above_bus, is_third_level, is_taken, domain_of};

use crate::owners::{is_function, port_with_secondary};
use crate::parts::{DownstreamPort, EndpointFunction, Switch};
use fab_types::{Bdf, PortId};

/// The downstream port of this ID, lent.
pub fn find_port(ports: &[DownstreamPort], id: PortId) -> Option<&DownstreamPort>
    ensures { option_copied result ≡ port_at ports.now id }
{
    ports.iter().find(|port| port.id == id)
}

/// The downstream port of this ID.
pub fn port_at(ports: &[DownstreamPort], id: Bdf) -> Option<DownstreamPort>
    ensures { result ≡ port_at ports.now id }
{
    find_port(ports, PortId::new(id)).copied()
}

/// The ID of whatever stands directly below a port.
pub fn id_below(port: &DownstreamPort) -> Bdf
    ensures { result ≡ id_below port.now }
{
    Bdf::from_bits(u16::from(port.secondary) * 256)
}

fn find_port_leading_to(ports: &[DownstreamPort], id: Bdf) -> Option<&DownstreamPort>
    ensures { option_copied result ≡ port_leading_to ports.now id }
{
    ports.iter().find(|port| id_below(port) == id)
}

/// The port directly above what has this ID.
pub fn port_leading_to(ports: &[DownstreamPort], id: Bdf) -> Option<DownstreamPort>
    ensures { result ≡ port_leading_to ports.now id }
{
    find_port_leading_to(ports, id).copied()
}

/// Is it the upstream port of a switch?
pub fn is_switch(switches: &[Switch], id: Bdf) -> bool
    ensures { result ≡ is_switch switches.now id }
{
    switches.iter().any(|switch| switch.id == id)
}

/// Is there a switch below the root port?
pub fn has_root(switches: &[Switch]) -> bool
    ensures { result ≡ has_root switches.now }
{
    switches.iter().any(|switch| switch.above.is_none())
}

/// The bus of a switch's downstream ports.
pub fn internal_bus(switch: &Switch) -> u16
    ensures { result ≡ internal_bus switch.now }
{
    u16::from(switch.id.bus()) + 1
}

/// Is it a port on this bus?
/// Then it is one of the switch whose internal bus that is.
pub fn is_on_bus(bus: u16, port: &DownstreamPort) -> bool
    ensures { result ≡ is_on_bus bus port.now }
{
    u16::from(port.id.id().bus()) == bus
}

fn find_switch(switches: &[Switch], bus: u8) -> Option<&Switch>
    ensures { option_copied result ≡ switch_on switches.now bus }
{
    switches
        .iter()
        .find(|switch| internal_bus(switch) == u16::from(bus))
}

/// The switch whose downstream ports have this bus.
pub fn switch_on(switches: &[Switch], bus: u8) -> Option<Switch>
    ensures { result ≡ switch_on switches.now bus }
{
    find_switch(switches, bus).copied()
}

/// The port above a switch, if it isn't the top one.
pub fn port_above(ports: &[DownstreamPort], switch: &Switch) -> Option<DownstreamPort>
    ensures { result ≡ port_above ports.now switch.now }
{
    let above = switch.above?;
    port_at(ports, above.id())
}

#[tactic(auto, unfolding(crate::specs::Tree::port_above_bus))]
fn port_above_bus(switches: &[Switch], ports: &[DownstreamPort], bus: u8) -> Option<DownstreamPort>
    ensures { result ≡ port_above_bus switches.now ports.now bus }
{
    let switch = switch_on(switches, bus)?;
    port_above(ports, &switch)
}

/// Do two switches stand above the one whose ports have this bus?
#[tactic(auto, unfolding(crate::specs::Tree::is_third_level))]
pub fn is_third_level(switches: &[Switch], ports: &[DownstreamPort], bus: u8) -> bool
    ensures { result ≡ is_third_level switches.now ports.now bus }
{
    match port_above_bus(switches, ports, bus) {
        Some(port) => port_above_bus(switches, ports, port.id.id().bus()).is_some(),
        None => false,
    }
}

/// Does something stand there already?
pub fn is_taken(switches: &[Switch], functions: &[EndpointFunction], id: Bdf) -> bool
    ensures { result ≡ is_taken switches.now functions.now id }
{
    is_switch(switches, id) || is_function(functions, id)
}

/// The domain of a function, or 0, which is no domain.
/// It is the owner of the port directly above the function.
#[tactic(auto, unfolding(crate::specs::Tree::domain_of))]
pub fn domain_of(ports: &[DownstreamPort], function: Bdf) -> u8
    ensures { result ≡ domain_of ports.now function }
{
    match port_with_secondary(ports, function.bus()) {
        Some(port) => port.owner.get(),
        None => 0,
    }
}
