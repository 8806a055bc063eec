//! The ports of switches.

ghost use Rattle.std.specs.Prelude.{◌≡◌, ◌++◌, Contains, IfOk, OnOk, map};
ghost use Rattle.topology.specs.Places.{upstream_place, downstream_place, places_of};

use crate::links::end_above_switch;
use crate::nodes::{LinkEnd, downstream_end, upstream_end};
use fab_types::{NoMemory, PortId};
use layout::Layout;
use platform::{DownstreamPort, Switch, id_below, is_taken};
use std::alloc::Global;

/// Where a port of a switch stands.
#[derive(Clone, Copy, Debug, PartialEq, Eq)]
pub struct PortPlace {
    /// The ID of the port.
    pub id: PortId,
    /// The node of its switch, whose outputs it puts packets into.
    pub node: usize,
    /// Where the packets are sent from that come into it, if anything can send any.
    pub input: Option<LinkEnd>,
}

fn upstream_place(layout: &Layout, switch: &Switch) -> PortPlace
    requires { Contains (layout.now).switches switch.now }
    ensures { result ≡ upstream_place layout.now switch.now }
{
    PortPlace {
        id: PortId::new(switch.id),
        node: upstream_end(layout, switch.id).node,
        input: Some(end_above_switch(layout, switch)),
    }
}

fn input_of(layout: &Layout, port: &DownstreamPort) -> Option<LinkEnd>
    ensures { result ≡ (downstream_place layout.now port.now).input }
{
    if is_taken(layout.switches(), layout.functions(), id_below(port)) {
        Some(upstream_end(layout, id_below(port)))
    } else {
        None
    }
}

fn downstream_place(layout: &Layout, port: &DownstreamPort) -> PortPlace
    requires { Contains (layout.now).ports port.now }
    ensures { result ≡ downstream_place layout.now port.now }
{
    PortPlace {
        id: port.id,
        node: downstream_end(layout, port).node,
        input: input_of(layout, port),
    }
}

fn add_upstream_places(layout: &Layout, places: &mut Vec<PortPlace>) -> Result<(), NoMemory>
    ensures { OnOk result (places.new.items ≡ places.old.items ++ map (upstream_place layout.now) (layout.now).switches) }
{
    for switch in layout.switches() {
        places.push(upstream_place(layout, switch))?;
    }
    Ok(())
}

fn add_downstream_places(layout: &Layout, places: &mut Vec<PortPlace>) -> Result<(), NoMemory>
    ensures { OnOk result (places.new.items ≡ places.old.items ++ map (downstream_place layout.now) (layout.now).ports) }
{
    for port in layout.ports() {
        places.push(downstream_place(layout, port))?;
    }
    Ok(())
}

/// All ports of switches: the upstream ports, and then the downstream ports.
pub(crate) fn places_of(alloc: Global, layout: &Layout) -> Result<Vec<PortPlace>, NoMemory>
    ensures { IfOk result (λ places. places.items ≡ places_of layout.now) }
{
    let mut places = Vec::new(alloc);
    add_upstream_places(layout, &mut places)?;
    add_downstream_places(layout, &mut places)?;
    Ok(places)
}
