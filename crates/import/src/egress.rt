//! Egress Control Vectors, as far as a layout of version 2 can say them.

ghost use Rattle.std.specs.Prelude.{◌≡◌, ◌==◌, ◌<◌, IfOk, OnOk};
ghost use Rattle.std.specs.List.{find, list_any};
ghost use Rattle.std.specs.Option.{option_copied};
ghost use Rattle.import.specs.Egress.{are_own, clear_bit, has_function_on, is_own, lets_through, passing, place_of, port_at, sibling_of, vector_of, vectors_among, vectors_of, with_sibling};

use crate::controls::sets_egress;
use crate::devices::{Devices, Source};
use crate::places::left_out_at;
use crate::role::is_port;
use crate::statements::line_id;
use crate::tree::role_at;
use fab_types::{Bdf, NoMemory};
use layout::Layout;
use layout_line::EgressText;
use lspci::{ConfigSpace, Device};
use platform::{DownstreamPort, EndpointFunction};
use std::alloc::Global;

/// The ID that a device has as a port of the layout, if it is one.
fn place_of(source: &Source<'_>, made: &Devices, device: &Device) -> Option<Bdf>
    ensures { result ≡ place_of source.now.dump.now source.now.tree (made.now).left_out device.now }
{
    if !is_port(role_at(source.dump, device)) {
        return None;
    }
    match left_out_at(&made.left_out, &device.location) {
        Some(_) => None,
        None => line_id(source.dump, &source.tree, device.location.id),
    }
}

/// May requests go directly from a port to that other port? They may where the vector's bit isn't known to be 1.
fn lets_through(port: &ConfigSpace<'_>, other: &ConfigSpace<'_>) -> bool
    ensures { result ≡ lets_through port.now.bytes.now other.now.bytes.now }
{
    match other.port_number() {
        Some(number) => !matches!(port.egress_bit(number), Some(true)),
        None => true,
    }
}

fn port_at(ports: &[DownstreamPort], id: Bdf) -> Option<&DownstreamPort>
    ensures { option_copied result ≡ port_at ports.now id }
{
    ports.iter().find(|port| port.id.id() == id)
}

fn has_function_on(functions: &[EndpointFunction], bus: u8) -> bool
    ensures { result ≡ has_function_on functions.now bus }
{
    functions.iter().any(|function| function.id.bus() == bus)
}

fn are_own(
    functions: &[EndpointFunction],
    one: Option<&DownstreamPort>,
    other: Option<&DownstreamPort>,
) -> bool
    ensures { result ≡ are_own functions.now (option_copied one.entry) (option_copied other.entry) }
{
    match (one, other) {
        (Some(one), Some(other)) => one.owner == other.owner
            && has_function_on(functions, other.secondary),
        _ => false,
    }
}

/// Have these two ports one owner, and the other a function directly below it?
fn is_own(layout: &Layout, one: Bdf, other: Bdf) -> bool
    ensures { result ≡ is_own layout.now one other }
{
    let ports = layout.ports();
    are_own(
        layout.functions(),
        port_at(ports, one),
        port_at(ports, other),
    )
}

/// The vector with the bit of this device cleared.
fn clear_bit(vector: u32, device: u8) -> u32
    requires { device < 32 }
    ensures { result ≡ clear_bit vector device }
{
    if (vector >> device) % 2 == 1 {
        vector.saturating_sub(1 << device)
    } else {
        vector
    }
}

/// The vector once a port may be let through to another, if the layout can say so.
fn passing(layout: &Layout, one: Bdf, other: Bdf, vector: u32) -> Option<u32>
    ensures { result ≡ passing layout.now one other vector }
{
    if is_own(layout, one, other) {
        Some(clear_bit(vector, other.device()))
    } else {
        None
    }
}

/// The ID in the layout of a device that is another port of the same switch.
fn sibling_of(source: &Source<'_>, made: &Devices, one: Bdf, device: &Device) -> Option<Bdf>
    ensures { result ≡ sibling_of source.now.dump.now source.now.tree (made.now).left_out one device.now }
{
    let other = place_of(source, made, device)?;
    if other.bus() == one.bus() && other != one {
        Some(other)
    } else {
        None
    }
}

/// The vector once this device was looked at, which may be another port of the same switch.
#[tactic(auto, unfolding(crate::specs::Egress::with_sibling))]
fn with_sibling(
    source: &Source<'_>,
    made: &Devices,
    space: &ConfigSpace<'_>,
    one: Bdf,
    vector: u32,
    device: &Device,
) -> Option<u32>
    ensures { result ≡ with_sibling source.now.dump.now source.now.tree made.now space.now.bytes.now one vector device.now }
{
    match sibling_of(source, made, one, device) {
        Some(other) if lets_through(space, &source.dump.space(device)) => {
            passing(made.draft.layout(), one, other, vector)
        }
        _ => Some(vector),
    }
}

/// The vector of a port that controls egress, if the layout can say it.
fn vector_of(
    source: &Source<'_>,
    made: &Devices,
    space: &ConfigSpace<'_>,
    one: Bdf,
) -> Option<EgressText>
    ensures { result ≡ vector_of source.now.dump.now source.now.tree made.now space.now.bytes.now one }
{
    let mut vector = 0xffff_ffff;
    for device in source.dump.devices() {
        vector = with_sibling(source, made, space, one, vector, device)?;
    }
    Some(EgressText { port: one, vector })
}

/// The vector of a device that is a port of the layout and controls egress, if the layout can say it.
#[tactic(auto, unfolding(crate::specs::Egress::vectors_among))]
fn vector_at(source: &Source<'_>, made: &Devices, device: &Device) -> Option<EgressText>
    ensures { result ≡ vectors_among source.now.dump.now source.now.tree made.now device.now }
{
    let space = source.dump.space(device);
    if !sets_egress(&space) {
        return None;
    }
    let one = place_of(source, made, device)?;
    vector_of(source, made, &space, one)
}

/// The vectors that the layout can say: each lets requests through to ports of the same owner alone that have a
/// function directly below.
pub fn vectors_of(
    alloc: Global,
    source: &Source<'_>,
    made: &Devices,
) -> Result<Vec<EgressText>, NoMemory>
    ensures { IfOk result (λ vectors. vectors.items ≡ vectors_of source.now.dump.now source.now.tree made.now) }
{
    let vectors = source
        .dump
        .devices()
        .iter()
        .filter_map(|device| vector_at(source, made, device))
        .collect(alloc)?;
    Ok(vectors)
}
