//! The ways between the ports of switches.

ghost use Rattle.std.specs.Prelude.{◌≡◌, ◌++◌, IfOk, OnOk, map};
ghost use Rattle.std.specs.List.{flat_map};
ghost use Rattle.topology.specs.Nodes.{ports_on};
ghost use Rattle.thread_plan.specs.Routes.{lanes_of, pair_routes, routes_between, routes_from, switch_routes};
ghost use Rattle.thread_plan.specs.Workers.{downstream_worker};

use crate::route::Route;
use fab_types::{NoMemory, PortId};
use layout::Layout;
use platform::{Switch, internal_bus, is_on_bus};
use std::alloc::Global;
use thread_crew::WorkerId;

fn add_lanes_down(layout: &Layout, bus: u16, lanes: &mut Vec<WorkerId>) -> Result<(), NoMemory>
    ensures { OnOk result (lanes.new.items ≡ lanes.old.items ++ map downstream_worker (ports_on layout.now.ports bus)) }
{
    for port in layout.ports() {
        if is_on_bus(bus, port) {
            lanes.push(WorkerId::Port(port.id))?;
        }
    }
    Ok(())
}

/// The ports of a switch, the upstream port first.
fn lanes_of(alloc: Global, layout: &Layout, switch: &Switch) -> Result<Vec<WorkerId>, NoMemory>
    ensures { IfOk result (λ lanes. lanes.items ≡ lanes_of layout.now switch.now) }
{
    let mut lanes = Vec::new(alloc);
    lanes.push(WorkerId::Port(PortId::new(switch.id)))?;
    add_lanes_down(layout, internal_bus(switch), &mut lanes)?;
    Ok(lanes)
}

fn add_routes_from(
    lanes: &[WorkerId],
    from: &WorkerId,
    routes: &mut Vec<Route>,
) -> Result<(), NoMemory>
    ensures { OnOk result (routes.new.items ≡ routes.old.items ++ routes_from lanes.now from.now) }
{
    for to in lanes {
        routes.push(Route::between(from, to))?;
    }
    Ok(())
}

fn add_routes_between(lanes: &[WorkerId], routes: &mut Vec<Route>) -> Result<(), NoMemory>
    ensures { OnOk result (routes.new.items ≡ routes.old.items ++ routes_between lanes.now) }
{
    for from in lanes {
        add_routes_from(lanes, from, routes)?;
    }
    Ok(())
}

fn add_switch(
    alloc: Global,
    layout: &Layout,
    switch: &Switch,
    routes: &mut Vec<Route>,
) -> Result<(), NoMemory>
    ensures { OnOk result (routes.new.items ≡ routes.old.items ++ switch_routes layout.now switch.now) }
{
    let lanes = lanes_of(alloc, layout, switch)?;
    add_routes_between(&lanes, routes)
}

fn add_switches(alloc: Global, layout: &Layout, routes: &mut Vec<Route>) -> Result<(), NoMemory>
    ensures { OnOk result (routes.new.items ≡ routes.old.items ++ flat_map (switch_routes layout.now) layout.now.switches) }
{
    for switch in layout.switches() {
        add_switch(alloc, layout, switch, routes)?;
    }
    Ok(())
}

/// From each port of a switch to each, itself too.
pub(crate) fn pair_routes(alloc: Global, layout: &Layout) -> Result<Vec<Route>, NoMemory>
    ensures { IfOk result (λ routes. routes.items ≡ pair_routes layout.now) }
{
    let mut routes = Vec::new(alloc);
    add_switches(alloc, layout, &mut routes)?;
    Ok(routes)
}
