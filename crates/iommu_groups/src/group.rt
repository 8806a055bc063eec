//! Linux's walk from a device up to the port whose group it shares.

ghost use Rattle.std.specs.Prelude.{◌≡◌, ◌&&◌, ◌||◌, not};
ghost use Rattle.std.specs.List.{find, list_all};
ghost use Rattle.std.specs.Option.{option_copied};
ghost use Rattle.iommu_groups.specs.Groups.{group_of, has_required, id_or, is_path_enabled, is_stop};

use fab_types::{AcsControl, Bdf};
use platform::DownstreamPort;

/// Has a port all controls that Linux asks for?
fn has_required(controls: AcsControl) -> bool
    ensures { result ≡ has_required controls }
{
    controls.validates_source()
        && controls.redirects_requests()
        && controls.redirects_completions()
        && controls.forwards_upstream()
}

/// Has each port above what is on this bus all of them?
fn is_path_enabled(ports: &[DownstreamPort], bus: u8) -> bool
    ensures { result ≡ is_path_enabled ports.now bus }
{
    ports
        .iter()
        .all(|port| !port.holds_bus(bus) || has_required(port.controls))
}

/// Does the walk from what is on this bus end at this port?
fn is_stop(ports: &[DownstreamPort], bus: u8, port: &DownstreamPort) -> bool
    ensures { result ≡ is_stop ports.now bus port.now }
{
    port.holds_bus(bus)
        && !has_required(port.controls)
        && is_path_enabled(ports, port.id.id().bus())
}

/// The port where the walk up from what is on this bus ends, if it ends at one.
fn stop_of(ports: &[DownstreamPort], bus: u8) -> Option<&DownstreamPort>
    ensures { option_copied result ≡ find (is_stop ports.now bus) ports.now }
{
    ports.iter().find(|port| is_stop(ports, bus, port))
}

fn id_or(device: Bdf, port: Option<&DownstreamPort>) -> Bdf
    ensures { result ≡ id_or device (option_copied port.entry) }
{
    match port {
        Some(port) => port.id.id(),
        None => device,
    }
}

/// The device whose group Linux puts this one in.
/// It is the port highest above that lacks a control that Linux asks for, or the device itself.
pub fn group_of(ports: &[DownstreamPort], device: Bdf) -> Bdf
    ensures { result ≡ group_of ports.now device }
{
    id_or(device, stop_of(ports, device.bus()))
}
