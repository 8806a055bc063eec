//! What the ports above a function do with its requests.

ghost use Rattle.std.specs.Prelude.{◌≡◌, ◌&&◌, ◌||◌, not};
ghost use Rattle.std.specs.List.{find, list_any};
ghost use Rattle.std.specs.Option.{option_copied};
ghost use Rattle.attacks.specs.Paths.{is_blocked, is_turn, is_validated, is_validated_below, passes_to, turn_of};

use platform::{DownstreamPort, holder_beside};

/// Does a port above what is on this bus validate sources?
pub(crate) fn is_validated(ports: &[DownstreamPort], bus: u8) -> bool
    ensures { result ≡ is_validated ports.now bus }
{
    ports.iter().any(|port| port.holds_bus(bus) && port.controls.validates_source())
}

/// Does a port above what is on this bus block translated addresses?
pub(crate) fn is_blocked(ports: &[DownstreamPort], bus: u8) -> bool
    ensures { result ≡ is_blocked ports.now bus }
{
    ports.iter().any(|port| port.holds_bus(bus) && port.controls.blocks_translated())
}

/// Does a request go from a port to this other port of its switch, if there is one?
fn passes_to(port: &DownstreamPort, other: Option<DownstreamPort>) -> bool
    ensures { result ≡ passes_to port.now other }
{
    match other {
        None => false,
        Some(other) => {
            port.lets_through(other.id)
                || (!port.controls.redirects_requests() && !port.controls.controls_egress())
        }
    }
}

fn is_turn(ports: &[DownstreamPort], bus: u8, address: u64, port: &DownstreamPort) -> bool
    ensures { result ≡ is_turn ports.now bus address port.now }
{
    port.holds_bus(bus)
        && !port.holds_address(address)
        && passes_to(port, holder_beside(ports, port, address))
}

/// The port at which a request for this address turns to another port of its switch.
/// It is submitted on this bus.
pub(crate) fn turn_of(ports: &[DownstreamPort], bus: u8, address: u64) -> Option<&DownstreamPort>
    ensures { option_copied result ≡ turn_of ports.now bus address }
{
    ports.iter().find(|port| is_turn(ports, bus, address, port))
}

/// Does this port validate sources, or one between it and what is on this bus?
pub(crate) fn is_validated_below(ports: &[DownstreamPort], bus: u8, turn: &DownstreamPort) -> bool
    ensures { result ≡ is_validated_below ports.now bus turn.now }
{
    ports.iter().any(|port| {
        port.holds_bus(bus) && turn.holds_bus(port.secondary) && port.controls.validates_source()
    })
}
