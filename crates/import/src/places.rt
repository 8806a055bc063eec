//! Why a device has no place in a layout, before its own line is looked at: where it stands in the machine.

ghost use Rattle.std.specs.Prelude.{◌≡◌, ◌&&◌};
ghost use Rattle.std.specs.List.{find};
ghost use Rattle.std.specs.Option.{option_copied};
ghost use Rattle.import.specs.Places.{beside, blocked, bridge_to, by_asked, first_reason, is_above, is_bridge_to, is_among, left_out_at, of_other_segment, standing, through, why_not};

use crate::reason::{LeftOut, MachineId, Reason, Why};
use crate::refusals::is_only;
use crate::role::{is_root, is_upstream, is_virtual};
use crate::tree::{Asked, Tree, is_at, role_at};
use fab_types::Bdf;
use lspci::{Device, Dump, HeaderKind, Location};

/// Of another segment than the layout.
fn of_other_segment(dump: &Dump, tree: &Tree, device: &Device) -> Reason
    ensures { result ≡ of_other_segment dump.now tree.now device.now }
{
    if tree.asked.is_none() && is_root(role_at(dump, device)) {
        Reason::OtherRoot
    } else {
        Reason::Segment
    }
}

/// Where all root ports of bus 00 are asked for.
fn beside(dump: &Dump, tree: &Tree, device: &Device) -> Option<Reason>
    ensures { result ≡ beside dump.now tree.now device.now }
{
    if is_root(role_at(dump, device)) && device.location.id.bus() != tree.bus {
        Some(Reason::OtherRoot)
    } else {
        None
    }
}

/// Is it the root port that was asked for, or the upstream port directly below it?
fn is_above(dump: &Dump, asked: &Asked, device: &Device) -> bool
    ensures { result ≡ is_above dump.now asked.now device.now }
{
    let id = device.location.id;
    id == asked.root || id.bus() == asked.buses.secondary && is_upstream(role_at(dump, device))
}

/// Is it on one of the buses below the root port that was asked for?
fn is_among(asked: &Asked, id: Bdf) -> bool
    ensures { result ≡ is_among asked.now id }
{
    asked.buses.secondary <= id.bus() && id.bus() <= asked.buses.subordinate
}

/// Where one root port is asked for. It is the only port of the top switch, or the ports of a switch below it are.
fn by_asked(dump: &Dump, only: Option<Bdf>, asked: &Asked, device: &Device) -> Option<Reason>
    ensures { result ≡ by_asked dump.now only asked.now device.now }
{
    let id = device.location.id;
    if only.is_some() && is_only(only, id) {
        return None;
    }
    if is_above(dump, asked, device) {
        return Some(Reason::Above);
    }
    if is_among(asked, id) {
        None
    } else {
        Some(Reason::Outside)
    }
}

/// Why it has no place by where it stands, if that is why.
fn standing(dump: &Dump, tree: &Tree, device: &Device) -> Option<Reason>
    ensures { result ≡ standing dump.now tree.now device.now }
{
    if device.location.segment != tree.segment {
        return Some(of_other_segment(dump, tree, device));
    }
    match tree.asked {
        None => beside(dump, tree, device),
        Some(asked) => by_asked(dump, tree.only, &asked, device),
    }
}

/// By where it stands, or since it is a virtual function.
fn first_reason(dump: &Dump, tree: &Tree, device: &Device) -> Option<Reason>
    ensures { result ≡ first_reason dump.now tree.now device.now }
{
    match standing(dump, tree, device) {
        Some(reason) => Some(reason),
        None => {
            if is_virtual(&dump.space(device)) {
                Some(Reason::Virtual)
            } else {
                None
            }
        }
    }
}

/// Is it the bridge directly above this bus?
#[tactic(auto, unfolding(crate::specs::Places::is_bridge_to))]
fn is_bridge_to(dump: &Dump, segment: u32, bus: u8, device: &Device) -> bool
    ensures { result ≡ is_bridge_to dump.now segment bus device.now }
{
    let space = dump.space(device);
    match (space.kind(), space.buses()) {
        (Some(HeaderKind::Bridge), Some(buses)) => {
            device.location.segment == segment
                && device.location.id.bus() < bus
                && buses.secondary == bus
        }
        _ => false,
    }
}

/// The bridge directly above a bus.
pub fn bridge_to(dump: &Dump, segment: u32, bus: u8) -> Option<Device>
    ensures { result ≡ bridge_to dump.now segment bus }
{
    for device in dump.devices() {
        if is_bridge_to(dump, segment, bus, device) {
            return Some(*device);
        }
    }
    None
}

/// What was left out of what stands at this place.
pub fn left_out_at(left_out: &[LeftOut], location: &Location) -> Option<LeftOut>
    ensures { result ≡ left_out_at left_out.now location.now }
{
    for part in left_out {
        if part.location.segment == location.segment && part.location.id == location.id {
            return Some(*part);
        }
    }
    None
}

/// Why what is below a bridge has no place, where the bridge has none.
fn through(above: &LeftOut) -> Option<Why>
    ensures { result ≡ through above.now }
{
    match above.why.reason {
        Reason::Above => None,
        Reason::Outside | Reason::Segment => Some(Why {
            port: None,
            reason: above.why.reason,
        }),
        Reason::Kind | Reason::Conventional => Some(Why {
            port: None,
            reason: Reason::Conventional,
        }),
        reason => Some(Why {
            port: Some(above.why.port.unwrap_or(MachineId::of(&above.location))),
            reason,
        }),
    }
}

/// Why it has no place since the bridge above has none, if that is why.
fn blocked(dump: &Dump, left_out: &[LeftOut], device: &Device) -> Option<Why>
    ensures { result ≡ blocked dump.now left_out.now device.now }
{
    let location = device.location;
    let bridge = bridge_to(dump, location.segment, location.id.bus())?;
    let above = left_out_at(left_out, &bridge.location)?;
    through(&above)
}

/// Why it has no place, whatever its own line were, if it has none. What is above it was looked at before.
pub fn why_not(dump: &Dump, tree: &Tree, left_out: &[LeftOut], device: &Device) -> Option<Why>
    ensures { result ≡ why_not dump.now tree.now left_out.now device.now }
{
    match first_reason(dump, tree, device) {
        Some(reason) => Some(Why { port: None, reason }),
        None => blocked(dump, left_out, device),
    }
}
