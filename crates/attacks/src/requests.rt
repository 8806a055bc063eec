//! The requests that a function may try where a domain is to be harmed.

ghost use Rattle.std.specs.Prelude.{◌≡◌, IfOk, Some, option_map};
ghost use Rattle.std.specs.List.{filter_map};
ghost use Rattle.attacks.specs.Tries.{by_address, on_frames, on_pages, past_host, requests, tries, tries_below};

use crate::accesses::{direct, on_frame, on_registers, translated};
use crate::answers::answered;
use crate::attack::{Attack, Way};
use crate::closings::closings;
use crate::names::in_names;
use crate::path::{is_blocked, turn_of};
use fab_types::{Bdf, NoMemory, PortId};
use layout::{Layout, Start};
use platform::{DownstreamPort, EndpointFunction, port_with_secondary};
use std::alloc::{AllocError, Global};

/// The requests by which a function may try to harm another domain in this way.
///
/// Where reads are answered, it is the harmed domain's function that submits them, and the other domain answers. They stand in
/// the order in which they are to be tried. A request is left out that a control of a port above the function stops whatever
/// else there is.
///
/// It answers `NoMemory` where memory was refused.
pub fn tries(
    alloc: Global,
    layout: &Layout,
    way: Way,
    function: Bdf,
    other: &Start,
) -> Result<Vec<Attack>, NoMemory>
    ensures { IfOk result (λ attacks. attacks.items ≡ tries layout.now way function other.now) }
{
    match way {
        Way::TagClosed => {
            let reads = requests(alloc, layout, Way::Completion, function, other)?;
            Ok(closings(alloc, other.maps(), &reads)?)
        }
        _ => requests(alloc, layout, way, function, other),
    }
}

/// The requests that do so by themselves.
fn requests(
    alloc: Global,
    layout: &Layout,
    way: Way,
    function: Bdf,
    victim: &Start,
) -> Result<Vec<Attack>, NoMemory>
    ensures { IfOk result (λ attacks. attacks.items ≡ requests layout.now way function victim.now) }
{
    match port_with_secondary(layout.ports(), function.bus()) {
        Some(first) => tries_below(alloc, layout, way, function, victim, first),
        None => Ok(Vec::new(alloc)),
    }
}

/// The same of a function with this port directly above it.
fn tries_below(
    alloc: Global,
    layout: &Layout,
    way: Way,
    function: Bdf,
    victim: &Start,
    first: &DownstreamPort,
) -> Result<Vec<Attack>, NoMemory>
    ensures { IfOk result (λ attacks. attacks.items ≡ tries_below layout.now way function victim.now (Some first.now)) }
{
    let ports = layout.ports();
    let mut attacks = on_frames(alloc, ports, first.id, way, function, victim)?;
    let on_pages = on_pages(alloc, ports, way, function, victim)?;
    let in_names = in_names(alloc, ports, first.id, way, function, victim)?;
    let answered = answered(alloc, layout, way, function, victim)?;
    attacks.extend_from_slice(&on_pages)?;
    attacks.extend_from_slice(&in_names)?;
    attacks.extend_from_slice(&answered)?;
    Ok(attacks)
}

/// What reads or writes a frame by its own address.
fn by_address(port: PortId, way: Way, function: Bdf, frame: u16) -> Option<Attack>
    ensures { result ≡ by_address port way function frame }
{
    let does = on_frame(way, frame)?;
    Some(translated(port, function, u64::from(frame), does))
}

fn by_addresses(
    alloc: Global,
    port: PortId,
    way: Way,
    function: Bdf,
    frames: &[u16],
) -> Result<Vec<Attack>, AllocError>
    ensures { IfOk result (λ attacks. attacks.items ≡ filter_map (by_address port way function) frames.now) }
{
    frames
        .iter()
        .filter_map(|frame| by_address(port, way, function, *frame))
        .collect(alloc)
}

/// What reads or writes the domain's frames by their own addresses.
fn on_frames(
    alloc: Global,
    ports: &[DownstreamPort],
    port: PortId,
    way: Way,
    function: Bdf,
    victim: &Start,
) -> Result<Vec<Attack>, AllocError>
    ensures { IfOk result (λ attacks. attacks.items ≡ on_frames ports.now port way function victim.now) }
{
    if is_blocked(ports, function.bus()) {
        return Ok(Vec::new(alloc));
    }
    by_addresses(alloc, port, way, function, victim.frames())
}

/// What reads or writes the register page of a function past the host.
fn past_host(
    ports: &[DownstreamPort],
    way: Way,
    function: Bdf,
    line: &EndpointFunction,
) -> Option<Attack>
    ensures { result ≡ past_host ports.now way function line.now }
{
    let does = on_registers(way, line.id)?;
    let turn = turn_of(ports, function.bus(), u64::from(line.bar))?;
    Some(direct(turn.id, function, u64::from(line.bar) / 4096, does))
}

/// What reads or writes register pages of the domain past the host.
fn on_pages(
    alloc: Global,
    ports: &[DownstreamPort],
    way: Way,
    function: Bdf,
    victim: &Start,
) -> Result<Vec<Attack>, AllocError>
    ensures { IfOk result (λ attacks. attacks.items ≡ on_pages ports.now way function victim.now) }
{
    victim
        .functions()
        .iter()
        .filter(|line| victim.owns_function(line.id))
        .filter_map(|line| past_host(ports, way, function, line))
        .collect(alloc)
}
