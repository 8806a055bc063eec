//! The nodes of a tree, and the outputs that lead out of them.

ghost use Rattle.std.specs.Prelude.{◌≡◌, ◌==◌, ◌<◌, true, Contains, IfSome, length};
ghost use Rattle.std.specs.List.{position};
ghost use Rattle.platform.specs.Tree.{internal_bus, is_taken};
ghost use Rattle.topology.specs.Nodes.{root_end, ports_on, outputs_of_switch, downstream_end, upstream_end};

use fab_types::{Bdf, PortId};
use layout::Layout;
use platform::{DownstreamPort, EndpointFunction, Switch, internal_bus, is_on_bus};

/// Where packets are sent from in one direction of a link.
/// It is a node of the tree, and one of its outputs. The nodes are the host, the switches and the
/// functions, in this order. The host and a function have output 0 alone; out of a switch output 0
/// leads up, and the outputs from 1 on lead down.
#[derive(Clone, Copy, Debug, PartialEq, Eq)]
pub struct LinkEnd {
    /// The number of the node.
    pub node: usize,
    /// The number of the output.
    pub output: usize,
}

/// The root port.
pub(crate) fn root_end() -> LinkEnd
    ensures { result ≡ root_end }
{
    LinkEnd { node: 0, output: 0 }
}

/// Where a port stands among the ports of its switch.
fn place_on(ports: &[DownstreamPort], bus: u16, id: PortId) -> Option<usize>
    ensures place { result ≡ position (λ port. port.id == id) (ports_on ports.now bus) }
    ensures within { IfSome result (λ place. place < length ports.now) }
{
    ports
        .iter()
        .filter(|port| is_on_bus(bus, port))
        .position(|port| port.id == id)
}

/// How many outputs lead out of a switch.
pub(crate) fn outputs_of_switch(ports: &[DownstreamPort], switch: &Switch) -> usize
    ensures { result ≡ outputs_of_switch ports.now switch.now }
{
    let bus = internal_bus(switch);
    1 + ports.iter().filter(|port| is_on_bus(bus, port)).count()
}

fn switch_on(switches: &[Switch], bus: u16) -> Option<usize>
    ensures { result ≡ position (λ switch. internal_bus switch == bus) switches.now }
{
    switches
        .iter()
        .position(|switch| internal_bus(switch) == bus)
}

fn switch_with(switches: &[Switch], id: Bdf) -> Option<usize>
    ensures { result ≡ position (λ switch. switch.id == id) switches.now }
{
    switches.iter().position(|switch| switch.id == id)
}

fn function_with(functions: &[EndpointFunction], id: Bdf) -> Option<usize>
    ensures { result ≡ position (λ function. function.id == id) functions.now }
{
    functions.iter().position(|function| function.id == id)
}

/// Where packets are sent down from a downstream port of the layout.
pub(crate) fn downstream_end(layout: &Layout, port: &DownstreamPort) -> LinkEnd
    requires { Contains (layout.now).ports port.now }
    ensures { result ≡ downstream_end layout.now port.now }
{
    let bus = u16::from(port.id.id().bus());
    let Some(switch) = switch_on(layout.switches(), bus) else {
        unreachable!();
    };
    let Some(place) = place_on(layout.ports(), bus, port.id) else {
        unreachable!();
    };
    LinkEnd {
        node: 1 + switch,
        output: 1 + place,
    }
}

/// Where packets are sent up from the upstream port of a switch, or from a function, that the layout has.
pub(crate) fn upstream_end(layout: &Layout, id: Bdf) -> LinkEnd
    requires { is_taken (layout.now).switches (layout.now).functions id ≡ true }
    ensures { result ≡ upstream_end layout.now id }
{
    if let Some(place) = switch_with(layout.switches(), id) {
        return LinkEnd {
            node: 1 + place,
            output: 0,
        };
    }
    let Some(place) = function_with(layout.functions(), id) else {
        unreachable!();
    };
    LinkEnd {
        node: 1 + layout.switches().len() + place,
        output: 0,
    }
}
