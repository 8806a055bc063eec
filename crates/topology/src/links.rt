//! Links.

ghost use Rattle.std.specs.Prelude.{◌≡◌, ◌++◌, Contains, IfOk, OnOk, map};
ghost use Rattle.platform.specs.Tree.{port_above};
ghost use Rattle.topology.specs.Links.{end_above, link_of_switch, link_of_function, links_of, sending_end};

use crate::nodes::{LinkEnd, downstream_end, root_end, upstream_end};
use fab_types::{Bdf, NoMemory, Way};
use layout::Layout;
use platform::{DownstreamPort, EndpointFunction, Switch, port_above, port_leading_to};
use std::alloc::Global;

/// A link of the tree, with the ends that send on it.
/// It joins a function, or the upstream port of a switch, to the port above it.
#[derive(Clone, Copy, Debug, PartialEq, Eq)]
pub struct Link {
    /// The function or upstream port at its lower end.
    pub lower: Bdf,
    /// Where packets are sent down from.
    pub above: LinkEnd,
    /// Where packets are sent up from.
    pub below: LinkEnd,
}

/// Where packets are sent down to a switch from. Without a port above it hangs below the root port.
pub(crate) fn end_above_switch(layout: &Layout, switch: &Switch) -> LinkEnd
    ensures { result ≡ end_above layout.now (port_above (layout.now).ports switch.now) }
{
    match port_above(layout.ports(), switch) {
        Some(port) => downstream_end(layout, &port),
        None => root_end(),
    }
}

fn link_of_switch(layout: &Layout, switch: &Switch) -> Link
    requires { Contains (layout.now).switches switch.now }
    ensures { result ≡ link_of_switch layout.now switch.now }
{
    Link {
        lower: switch.id,
        above: end_above_switch(layout, switch),
        below: upstream_end(layout, switch.id),
    }
}

fn link_of_function(layout: &Layout, function: &EndpointFunction) -> Link
    requires { Contains (layout.now).functions function.now }
    ensures { result ≡ link_of_function layout.now function.now }
{
    let Some(port) = port_leading_to(layout.ports(), function.id) else {
        unreachable!();
    };
    Link {
        lower: function.id,
        above: downstream_end(layout, &port),
        below: upstream_end(layout, function.id),
    }
}

fn add_switch_links(layout: &Layout, links: &mut Vec<Link>) -> Result<(), NoMemory>
    ensures { OnOk result (links.new.items ≡ links.old.items ++ map (link_of_switch layout.now) (layout.now).switches) }
{
    for switch in layout.switches() {
        links.push(link_of_switch(layout, switch))?;
    }
    Ok(())
}

fn add_function_links(layout: &Layout, links: &mut Vec<Link>) -> Result<(), NoMemory>
    ensures { OnOk result (links.new.items ≡ links.old.items ++ map (link_of_function layout.now) (layout.now).functions) }
{
    for function in layout.functions() {
        links.push(link_of_function(layout, function))?;
    }
    Ok(())
}

/// All links: those of switches, and then those of functions.
pub(crate) fn links_of(alloc: Global, layout: &Layout) -> Result<Vec<Link>, NoMemory>
    ensures { IfOk result (λ links. links.items ≡ links_of layout.now) }
{
    let mut links = Vec::new(alloc);
    add_switch_links(layout, &mut links)?;
    add_function_links(layout, &mut links)?;
    Ok(links)
}

impl Link {
    /// Where packets of one direction are sent from.
    pub fn sending_end(&self, way: Way) -> LinkEnd
        ensures { result ≡ sending_end way self.now }
    {
        match way {
            Way::Up => self.below,
            Way::Down => self.above,
        }
    }
}
