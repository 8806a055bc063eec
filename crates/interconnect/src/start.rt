//! The links and the ports of a layout at the start.

ghost use Rattle.std.specs.Prelude.{◌≡◌, ◌++◌, ◌∷◌, [], IfOk, OnOk, map};
ghost use Rattle.platform.specs.Tree.{is_on_bus};
ghost use Rattle.platform.specs.Tree.{id_below};
ghost use Rattle.topology.specs.Nodes.{ports_on};
ghost use Rattle.port.specs.Configs.{downstream_config, upstream_config};
ghost use Rattle.interconnect.specs.Starts.{function_outputs, idle_port, nodes_of, ports_of, host_outputs, switch_outputs, unused_below};

use crate::credits::first_credits;
use crate::node::Node;
use fab_types::{Bdf, NoMemory};
use layout::Layout;
use link::Simplex;
use platform::{DownstreamPort, Switch, id_below, internal_bus, is_on_bus};
use port::Port;
use std::alloc::Global;
use std::iter::once;

/// Either direction of the link with this lower end.
fn unused_below(alloc: Global, layout: &Layout, lower: Bdf) -> Result<Simplex, NoMemory>
    ensures { IfOk result (λ simplex. simplex ≡ unused_below layout.now lower) }
{
    Simplex::new(alloc, first_credits(layout, lower))
}

/// The host.
fn host_node(alloc: Global, layout: &Layout) -> Result<Node, NoMemory>
    ensures { IfOk result (λ node. node ≡ host_outputs layout.now) }
{
    function_node(alloc, layout, Bdf::from_bits(0x0100))
}

/// A function, or the host, above the link with this lower end.
fn function_node(alloc: Global, layout: &Layout, lower: Bdf) -> Result<Node, NoMemory>
    ensures { IfOk result (λ node. node ≡ unused_below layout.now lower ∷ []) }
{
    let outputs = once(unused_below(alloc, layout, lower)?).collect(alloc)?;
    Ok(Node { outputs })
}

fn add_outputs_down(
    alloc: Global,
    layout: &Layout,
    bus: u16,
    outputs: &mut Vec<Simplex>,
) -> Result<(), NoMemory>
    ensures { OnOk result (outputs.new.items ≡ outputs.old.items ++ map (λ port. unused_below layout.now (id_below port)) (ports_on layout.now.ports bus)) }
{
    for port in layout.ports() {
        if is_on_bus(bus, port) {
            outputs.push(unused_below(alloc, layout, id_below(port))?)?;
        }
    }
    Ok(())
}

fn switch_node(alloc: Global, layout: &Layout, switch: &Switch) -> Result<Node, NoMemory>
    ensures { IfOk result (λ node. node ≡ switch_outputs layout.now switch.now) }
{
    let mut outputs = Vec::new(alloc);
    outputs.push(unused_below(alloc, layout, switch.id)?)?;
    add_outputs_down(alloc, layout, internal_bus(switch), &mut outputs)?;
    Ok(Node { outputs })
}

fn add_switches(alloc: Global, layout: &Layout, nodes: &mut Vec<Node>) -> Result<(), NoMemory>
    ensures { OnOk result (nodes.new.items ≡ nodes.old.items ++ map (switch_outputs layout.now) layout.now.switches) }
{
    for switch in layout.switches() {
        nodes.push(switch_node(alloc, layout, switch)?)?;
    }
    Ok(())
}

fn add_functions(alloc: Global, layout: &Layout, nodes: &mut Vec<Node>) -> Result<(), NoMemory>
    ensures { OnOk result (nodes.new.items ≡ nodes.old.items ++ map (function_outputs layout.now) layout.now.functions) }
{
    for function in layout.functions() {
        nodes.push(function_node(alloc, layout, function.id)?)?;
    }
    Ok(())
}

/// The host, the switches and the functions, on whose links nothing was sent.
pub(crate) fn nodes_of(alloc: Global, layout: &Layout) -> Result<Vec<Node>, NoMemory>
    ensures { IfOk result (λ nodes. nodes.items ≡ nodes_of layout.now) }
{
    let mut nodes = Vec::new(alloc);
    nodes.push(host_node(alloc, layout)?)?;
    add_switches(alloc, layout, &mut nodes)?;
    add_functions(alloc, layout, &mut nodes)?;
    Ok(nodes)
}

fn add_upstream(alloc: Global, layout: &Layout, ports: &mut Vec<Port>) -> Result<(), NoMemory>
    ensures { OnOk result (ports.new.items ≡ ports.old.items ++ map (λ switch. idle_port (upstream_config layout.now switch)) layout.now.switches) }
{
    for switch in layout.switches() {
        ports.push(Port::upstream(alloc, layout, switch)?)?;
    }
    Ok(())
}

fn add_downstream(alloc: Global, layout: &Layout, ports: &mut Vec<Port>) -> Result<(), NoMemory>
    ensures { OnOk result (ports.new.items ≡ ports.old.items ++ map (λ port. idle_port (downstream_config layout.now port)) layout.now.ports) }
{
    for line in layout.ports() {
        let Some(port) = Port::downstream(alloc, layout, line)? else {
            unreachable!();
        };
        ports.push(port)?;
    }
    Ok(())
}

/// The upstream ports, and then the downstream ports, each of which holds nothing.
pub(crate) fn ports_of(alloc: Global, layout: &Layout) -> Result<Vec<Port>, NoMemory>
    ensures { IfOk result (λ ports. ports.items ≡ ports_of layout.now) }
{
    let mut ports = Vec::new(alloc);
    add_upstream(alloc, layout, &mut ports)?;
    add_downstream(alloc, layout, &mut ports)?;
    Ok(ports)
}
