//! The stations of a fabric, in the order of a sweep.

ghost use Rattle.std.specs.Prelude.{◌≡◌, ◌++◌, IfOk, OnOk, map};
ghost use Rattle.std.specs.List.{flat_map};
ghost use Rattle.fabric_core.specs.Stations.{events_at};
ghost use Rattle.fabric_core.specs.declared.station.Station.TheVariants as station;
ghost use Rattle.platform.specs.Rising.{IsRising};
ghost use Rattle.sweeps.specs.Sweeps.{IsSweep, both_ways, host_outbox};

use domain::Domain;
use fab_types::{Bdf, Direction, NoMemory, PortId, Way};
use fabric_core::Station;
use layout::Layout;
use platform::rising;
use std::alloc::{AllocError, Global};

/// The functions of a layout, by rising ID.
fn functions_of(alloc: Global, layout: &Layout) -> Result<Vec<Bdf>, AllocError>
    ensures { IfOk result (λ ids. IsRising (map (λ line. line.id) layout.now.functions) ids.items) }
{
    let ids = layout
        .functions()
        .iter()
        .map(|line| line.id)
        .collect(alloc)?;
    rising(ids)
}

/// The upstream and downstream ports of all switches, by rising ID.
fn ports_of(alloc: Global, layout: &Layout) -> Result<Vec<Bdf>, AllocError>
    ensures { IfOk result (λ ids. IsRising (map (λ line. line.id) layout.now.switches ++ map (λ line. line.id) layout.now.ports) ids.items) }
{
    let upstream = layout.switches().iter().map(|line| line.id);
    let downstream = layout.ports().iter().map(|line| line.id.id());
    let ids = upstream.chain(downstream).collect(alloc)?;
    rising(ids)
}

/// The lower ends of all links, by rising ID.
fn links_of(alloc: Global, layout: &Layout) -> Result<Vec<Bdf>, AllocError>
    ensures { IfOk result (λ ids. IsRising (map (λ line. line.id) layout.now.switches ++ map (λ line. line.id) layout.now.functions) ids.items) }
{
    let switches = layout.switches().iter().map(|line| line.id);
    let functions = layout.functions().iter().map(|line| line.id);
    let ids = switches.chain(functions).collect(alloc)?;
    rising(ids)
}

/// Each place where packets wait or travel, once, in the order of a sweep.
/// The places are those of a layout's fabric. The domains are those of the fabric, by rising number.
pub fn stations(
    alloc: Global,
    layout: &Layout,
    domains: &[Domain],
) -> Result<Vec<Station>, NoMemory>
    ensures { IfOk result (λ stations. IsSweep layout.now domains.now (flat_map events_at stations.items)) }
{
    let functions = functions_of(alloc, layout)?;
    let mut stations = Vec::new(alloc);
    add_outboxes(&mut stations, &functions)?;
    add_hosts(&mut stations, domains)?;
    add_ports(&mut stations, &ports_of(alloc, layout)?)?;
    add_links(&mut stations, &links_of(alloc, layout)?)?;
    stations.push(Station::Host)?;
    add_functions(&mut stations, &functions)?;
    Ok(stations)
}

fn add_outboxes(stations: &mut Vec<Station>, functions: &[Bdf]) -> Result<(), AllocError>
    ensures { OnOk result (stations.new.items ≡ stations.old.items ++ map station.FunctionOutbox functions.now) }
{
    for function in functions {
        stations.push(Station::FunctionOutbox(*function))?;
    }
    Ok(())
}

fn add_hosts(stations: &mut Vec<Station>, domains: &[Domain]) -> Result<(), AllocError>
    ensures { OnOk result (stations.new.items ≡ stations.old.items ++ map host_outbox domains.now) }
{
    for domain in domains {
        stations.push(Station::HostOutbox(domain.start().domain()))?;
    }
    Ok(())
}

fn add_ports(stations: &mut Vec<Station>, ports: &[Bdf]) -> Result<(), AllocError>
    ensures { OnOk result (stations.new.items ≡ stations.old.items ++ map station.Port ports.now) }
{
    for port in ports {
        stations.push(Station::Port(PortId::new(*port)))?;
    }
    Ok(())
}

fn add_link(stations: &mut Vec<Station>, lower: Bdf) -> Result<(), AllocError>
    ensures { OnOk result (stations.new.items ≡ stations.old.items ++ both_ways lower) }
{
    let (up, down) = (Way::Up, Way::Down);
    stations.push(Station::Link(Direction { lower, way: up }))?;
    stations.push(Station::Link(Direction { lower, way: down }))?;
    Ok(())
}

fn add_links(stations: &mut Vec<Station>, lower_ends: &[Bdf]) -> Result<(), AllocError>
    ensures { OnOk result (stations.new.items ≡ stations.old.items ++ flat_map both_ways lower_ends.now) }
{
    for lower in lower_ends {
        add_link(stations, *lower)?;
    }
    Ok(())
}

fn add_functions(stations: &mut Vec<Station>, functions: &[Bdf]) -> Result<(), AllocError>
    ensures { OnOk result (stations.new.items ≡ stations.old.items ++ map station.Function functions.now) }
{
    for function in functions {
        stations.push(Station::Function(*function))?;
    }
    Ok(())
}
