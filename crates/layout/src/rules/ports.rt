//! What is wrong with a `port` line.

ghost use Rattle.std.specs.Prelude.{◌≡◌, ◌≤◌, ◌<◌, IfNone, false};
ghost use Rattle.fab_types.specs.Id.{bus_of};
ghost use Rattle.layout.specs.Rules.{has_bad_fields, has_vectors, last_controls, is_past_port_limits, buses_meet, windows_meet, last_bus, buses_are_outside, window_is_outside, owner_differs, port_fault_below, port_fault_on, port_fault};

use crate::layout::Layout;
use crate::rules::links::is_within;
use fab_types::LayoutCause;
use layout_line::PortText;
use platform::{DownstreamPort, LayoutVersion, Switch, is_on_bus, port_above, port_at, switch_on};

#[tactic(auto, unfolding(crate::specs::Rules::has_bad_fields))]
fn has_bad_fields(ports: &[DownstreamPort], port: &PortText) -> bool
    ensures { result ≡ has_bad_fields ports.now port.now }
{
    port.id.function() != 0
        || port_at(ports, port.id).is_some()
        || port.subordinate < port.secondary
        || port.base % 0x10_0000 != 0
        || port.limit % 0x10_0000 != 0xf_ffff
        || port.limit <= port.base
}

#[tactic(auto, unfolding(crate::specs::Rules::is_past_port_limits))]
fn is_past_port_limits(ports: &[DownstreamPort], port: &PortText) -> bool
    ensures value { result ≡ is_past_port_limits ports.now port.now }
    ensures owner { result ≡ false → (1 ≤ port.now.owner) × (port.now.owner ≤ 31) }
{
    let bus = u16::from(port.id.bus());
    !is_within(1, 31, port.owner) || 8 <= ports.iter().filter(|other| is_on_bus(bus, other)).count()
}

#[tactic(auto, unfolding(crate::specs::Rules::buses_meet))]
fn buses_meet(ports: &[DownstreamPort], port: &PortText) -> bool
    ensures { result ≡ buses_meet ports.now port.now }
{
    let bus = u16::from(port.id.bus());
    ports.iter().any(|other| {
        is_on_bus(bus, other)
            && other.secondary <= port.subordinate
            && port.secondary <= other.subordinate
    })
}

#[tactic(auto, unfolding(crate::specs::Rules::windows_meet))]
fn windows_meet(ports: &[DownstreamPort], port: &PortText) -> bool
    ensures { result ≡ windows_meet ports.now port.now }
{
    let bus = u16::from(port.id.bus());
    ports.iter().any(|other| {
        is_on_bus(bus, other) && other.base <= port.limit && port.base <= other.limit
    })
}

#[tactic(auto, unfolding(crate::specs::Rules::has_vectors))]
fn has_vectors(ports: &[DownstreamPort], bus: u8) -> bool
    ensures { result ≡ has_vectors ports.now bus }
{
    let bus = u16::from(bus);
    ports.iter().any(|other| is_on_bus(bus, other) && other.egress_vector.is_some())
}

fn last_controls(version: LayoutVersion) -> u8
    ensures value { result ≡ last_controls version }
    ensures known { result < 64 }
{
    match version {
        LayoutVersion::One => 0x1f,
        LayoutVersion::Two => 0x3f,
    }
}

fn last_bus(above: &Option<DownstreamPort>) -> u8
    ensures { result ≡ last_bus above.now }
{
    match above {
        Some(above) => above.subordinate,
        None => 255,
    }
}

fn buses_are_outside(above: &Option<DownstreamPort>, port: &PortText) -> bool
    ensures { result ≡ buses_are_outside above.now port.now }
{
    !(port.id.bus() < port.secondary && port.subordinate <= last_bus(above))
}

fn window_is_outside(above: &Option<DownstreamPort>, port: &PortText) -> bool
    ensures { result ≡ window_is_outside above.now port.now }
{
    match above {
        Some(above) => !(above.base <= port.base && port.limit <= above.limit),
        None => false,
    }
}

fn owner_differs(above: &Option<DownstreamPort>, port: &PortText) -> bool
    ensures { result ≡ owner_differs above.now port.now }
{
    match above {
        Some(above) => port.owner != u32::from(above.owner.get()),
        None => false,
    }
}

#[tactic(auto, unfolding(crate::specs::Rules::port_fault_below))]
fn port_fault_below(
    version: LayoutVersion,
    ports: &[DownstreamPort],
    above: Option<DownstreamPort>,
    port: &PortText,
) -> Option<LayoutCause>
    ensures value { result ≡ port_fault_below version ports.now above port.now }
    ensures ranges { IfNone result ((1 ≤ port.now.owner) × (port.now.owner ≤ 31) × (port.now.controls < 64)) }
{
    if has_bad_fields(ports, port) || has_vectors(ports, port.id.bus()) {
        return Some(LayoutCause::Line);
    }
    if is_past_port_limits(ports, port) {
        return Some(LayoutCause::Limit);
    }
    if buses_meet(ports, port) {
        return Some(LayoutCause::BusOverlap);
    }
    if buses_are_outside(&above, port) {
        return Some(LayoutCause::BusOutside);
    }
    if windows_meet(ports, port) {
        return Some(LayoutCause::WindowOverlap);
    }
    if window_is_outside(&above, port) {
        return Some(LayoutCause::WindowOutside);
    }
    if owner_differs(&above, port) {
        return Some(LayoutCause::OwnerMixed);
    }
    if last_controls(version) < port.controls {
        return Some(LayoutCause::AcsUnknown);
    }
    None
}

fn port_fault_on(layout: &Layout, port: &PortText, switch: Option<Switch>) -> Option<LayoutCause>
    ensures value { result ≡ port_fault_on layout.now port.now switch }
    ensures ranges { IfNone result ((1 ≤ port.now.owner) × (port.now.owner ≤ 31) × (port.now.controls < 64)) }
{
    let Some(switch) = switch else {
        return Some(LayoutCause::Line);
    };
    port_fault_below(
        layout.version(),
        layout.ports(),
        port_above(layout.ports(), &switch),
        port,
    )
}

impl Layout {
    /// `port ID SEC SUB BASE LIMIT ACS OWNER`: on the internal bus of an earlier switch.
    #[tactic(auto, unfolding(crate::specs::Rules::port_fault))]
    pub(crate) fn port_fault(&self, port: &PortText) -> Option<LayoutCause>
        ensures value { result ≡ port_fault self.now port.now }
        ensures ranges { IfNone result ((1 ≤ port.now.owner) × (port.now.owner ≤ 31) × (port.now.controls < 64)) }
    {
        port_fault_on(self, port, switch_on(self.switches(), port.id.bus()))
    }
}
