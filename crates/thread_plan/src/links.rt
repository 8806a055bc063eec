//! The ways along links.

ghost use Rattle.std.specs.Prelude.{◌≡◌, ◌++◌, IfOk, OnOk};
ghost use Rattle.std.specs.List.{flat_map};
ghost use Rattle.thread_plan.specs.Routes.{both_ways, link_routes, route, up_from_function, up_from_switch, up_routes, worker_above};

use crate::route::Route;
use fab_types::{NoMemory, PortId};
use layout::Layout;
use platform::{DownstreamPort, EndpointFunction, Switch, port_above, port_leading_to};
use std::alloc::Global;
use thread_crew::WorkerId;

fn worker_above(port: Option<DownstreamPort>) -> WorkerId
    ensures { result ≡ worker_above port }
{
    match port {
        Some(port) => WorkerId::Port(port.id),
        None => WorkerId::Host,
    }
}

fn up_from_switch(layout: &Layout, switch: &Switch) -> Route
    ensures { result ≡ up_from_switch layout.now switch.now }
{
    Route {
        from: WorkerId::Port(PortId::new(switch.id)),
        to: worker_above(port_above(layout.ports(), switch)),
    }
}

fn up_from_function(layout: &Layout, function: &EndpointFunction) -> Route
    ensures { result ≡ up_from_function layout.now function.now }
{
    Route {
        from: WorkerId::Function(function.id),
        to: worker_above(port_leading_to(layout.ports(), function.id)),
    }
}

/// Up each link: those of switches, and then those of functions.
fn up_routes(alloc: Global, layout: &Layout) -> Result<Vec<Route>, NoMemory>
    ensures { IfOk result (λ routes. routes.items ≡ up_routes layout.now) }
{
    let of_switches = layout
        .switches()
        .iter()
        .map(|line| up_from_switch(layout, line));
    let of_functions = layout
        .functions()
        .iter()
        .map(|line| up_from_function(layout, line));
    Ok(of_switches.chain(of_functions).collect(alloc)?)
}

fn add_both_ways(
    lower: &WorkerId,
    upper: &WorkerId,
    routes: &mut Vec<Route>,
) -> Result<(), NoMemory>
    ensures { OnOk result (routes.new.items ≡ routes.old.items ++ both_ways (route lower.now upper.now)) }
{
    routes.push(Route::between(lower, upper))?;
    routes.push(Route::between(upper, lower))?;
    Ok(())
}

fn add_links(ups: &[Route], routes: &mut Vec<Route>) -> Result<(), NoMemory>
    ensures { OnOk result (routes.new.items ≡ routes.old.items ++ flat_map both_ways ups.now) }
{
    for up in ups {
        add_both_ways(&up.from, &up.to, routes)?;
    }
    Ok(())
}

/// Up each link, and then down it.
pub(crate) fn link_routes(alloc: Global, layout: &Layout) -> Result<Vec<Route>, NoMemory>
    ensures { IfOk result (λ routes. routes.items ≡ link_routes layout.now) }
{
    let ups = up_routes(alloc, layout)?;
    let mut routes = Vec::new(alloc);
    add_links(&ups, &mut routes)?;
    Ok(routes)
}
