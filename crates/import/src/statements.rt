//! The line that a device has in a layout.

ghost use Rattle.std.specs.Prelude.{◌≡◌, ◌<◌, ◌^◌, IfOk};
ghost use Rattle.fab_types.specs.Id.{id_of};
ghost use Rattle.text_writers.specs.StatedLines.{IsStated};
ghost use Rattle.import.specs.Statements.{function_line, line_id, only_at, port_bus, port_line, statement_of, switch_line, unreached};

use crate::controls::controls_of;
use crate::devices::Source;
use crate::domains::owner_of;
use crate::pages::page_from;
use crate::places::bridge_to;
use crate::reason::Reason;
use crate::role::{LowWindow, Role, port_window};
use crate::tree::{Tree, role_at, upstream_to};
use fab_types::Bdf;
use layout_line::{EgressText, FunctionText, LayoutLine, PortText, SwitchText};
use lspci::{Device, Dump};
use platform::{DownstreamPort, port_leading_to};

/// The ID of function 0 of a device.
fn id_on(bus: u8, device: u8) -> Bdf
    requires { device < 32 }
    ensures value { result ≡ id_of bus device 0 }
    ensures small { result < 2 ^ 16 }
{
    Bdf::from_bits(u16::from(bus) * 256 + u16::from(device) * 8)
}

/// Bus 02, if this port is one of the top switch in the layout.
fn only_at(only: Option<Bdf>, id: Bdf) -> Option<u8>
    ensures { result ≡ only_at only id }
{
    match only {
        Some(only) => { if only == id { Some(2) } else { None } }
        None => Some(2),
    }
}

/// The bus of a port in the layout: 02 of those of the top switch, and of another switch's ports the bus behind that of
/// its upstream port.
fn port_bus(dump: &Dump, tree: &Tree, id: Bdf) -> Option<u8>
    ensures { result ≡ port_bus dump.now tree.now id }
{
    if id.bus() == tree.bus {
        return only_at(tree.only, id);
    }
    let upstream = upstream_to(dump, tree.segment, id.bus())?;
    tree.bus_in(upstream.location.id.bus())?.checked_add(1)
}

/// The ID that a port of the machine has in the layout, if it stands there.
pub fn line_id(dump: &Dump, tree: &Tree, id: Bdf) -> Option<Bdf>
    ensures { result ≡ line_id dump.now tree.now id }
{
    let bus = port_bus(dump, tree, id)?;
    Some(id_on(bus, id.device()))
}

fn port_line(
    source: &Source<'_>,
    vectors: &[EgressText],
    ports: &[DownstreamPort],
    device: &Device,
) -> Result<LayoutLine, Reason>
    ensures value { result ≡ port_line source.now.dump.now source.now.tree source.now.owners.now vectors.now ports.now device.now }
    ensures fits { IfOk result IsStated }
{
    let id = device.location.id;
    if id.function() != 0 {
        return Err(Reason::Function);
    }
    let (dump, tree) = (source.dump, &source.tree);
    let space = dump.space(device);
    let bus = port_bus(dump, tree, id).ok_or(Reason::Outside)?;
    let buses = space.buses().ok_or(Reason::Kind)?;
    let secondary = tree.bus_in(buses.secondary).ok_or(Reason::Buses)?;
    let window = port_window(&space).ok_or(Reason::Window)?;
    let place = id_on(bus, id.device());
    Ok(LayoutLine::Port(PortText {
        id: place,
        secondary,
        subordinate: tree.last_bus_in(buses.subordinate),
        base: window.base,
        limit: window.limit,
        controls: controls_of(&space, vectors, place),
        owner: u32::from(owner_of(tree, source.owners, ports, &device.location, &buses, bus)),
    }))
}

fn switch_line(tree: &Tree, ports: &[DownstreamPort], device: &Device) -> Result<LayoutLine, Reason>
    ensures value { result ≡ switch_line tree.now ports.now device.now }
    ensures fits { IfOk result IsStated }
{
    let id = device.location.id;
    let bus = tree.bus_in(id.bus()).ok_or(Reason::Outside)?;
    let place = id_on(bus, 0);
    let above = port_leading_to(ports, place).ok_or(Reason::Unreached)?;
    if id.device() != 0 || id.function() != 0 {
        return Err(Reason::Function);
    }
    Ok(LayoutLine::Switch(SwitchText {
        id: place,
        above: above.id.id(),
    }))
}

/// Why no port of the layout leads to a bus.
fn unreached(dump: &Dump, segment: u32, bus: u8) -> Reason
    ensures { result ≡ unreached dump.now segment bus }
{
    match bridge_to(dump, segment, bus) {
        Some(_) => Reason::Unreached,
        None => Reason::Integrated,
    }
}

fn function_line(
    dump: &Dump,
    tree: &Tree,
    ports: &[DownstreamPort],
    device: &Device,
) -> Result<LayoutLine, Reason>
    ensures value { result ≡ function_line dump.now tree.now ports.now device.now }
    ensures fits { IfOk result IsStated }
{
    let id = device.location.id;
    let Some(bus) = tree.bus_in(id.bus()) else {
        return Err(unreached(dump, tree.segment, id.bus()));
    };
    let place = id_on(bus, 0);
    let Some(above) = port_leading_to(ports, place) else {
        return Err(unreached(dump, tree.segment, id.bus()));
    };
    if id.device() != 0 || id.function() != 0 {
        return Err(Reason::Function);
    }
    let window = LowWindow {
        base: above.base,
        limit: above.limit,
    };
    let bar = page_from(&dump.space(device), &window, 6, 0).ok_or(Reason::Page)?;
    Ok(LayoutLine::Function(FunctionText { id: place, bar }))
}

/// The line of a device behind those of these ports, in a layout with these vectors, or why it has none.
#[tactic(auto, unfolding(crate::specs::Statements::statement_of))]
pub fn statement_of(
    source: &Source<'_>,
    vectors: &[EgressText],
    ports: &[DownstreamPort],
    device: &Device,
) -> Result<LayoutLine, Reason>
    ensures value { result ≡ statement_of source.now.dump.now source.now.tree source.now.owners.now vectors.now ports.now device.now }
    ensures fits { IfOk result IsStated }
{
    let (dump, tree) = (source.dump, &source.tree);
    match role_at(dump, device) {
        Role::RootPort | Role::Downstream => port_line(source, vectors, ports, device),
        Role::Upstream => switch_line(tree, ports, device),
        Role::Endpoint => function_line(dump, tree, ports, device),
        Role::Other => Err(Reason::Kind),
    }
}
