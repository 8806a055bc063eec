//! Which ports of a switch a port lets requests through to.

ghost use Rattle.std.specs.Prelude.{◌≡◌, ◌<◌, drop};
ghost use Rattle.platform.specs.Egress.{direct_above, direct_at, direct_to, goes_directly, has_bit, holder_beside, is_peer, let_to, lets_through};

use crate::parts::DownstreamPort;
use crate::tree::{id_below, is_on_bus};
use fab_types::{Bdf, PortId};

fn has_bit(vector: Option<u32>, device: u8) -> bool
    requires { device < 32 }
    ensures { result ≡ has_bit vector device }
{
    match vector {
        Some(vector) => (vector >> device) % 2 == 1,
        None => true,
    }
}

impl DownstreamPort {
    /// May a request from below this port go directly to the other port?
    /// That is the port of its switch that has this ID. It may where ACS P2P Egress Control is set and the
    /// vector's bit for that port is 0 (PCIe 4.0, 6.12.1.1).
    pub fn lets_through(&self, other: PortId) -> bool
        ensures { result ≡ lets_through self.now other }
    {
        self.controls.controls_egress() && !has_bit(self.egress_vector, other.id().device())
    }
}

/// The port of the same switch whose window has the address.
pub fn holder_beside(
    ports: &[DownstreamPort],
    port: &DownstreamPort,
    address: u64,
) -> Option<DownstreamPort>
    ensures { result ≡ holder_beside ports.now port.now address }
{
    let bus = u16::from(port.id.id().bus());
    ports.iter().copied().find(|other| is_on_bus(bus, other) && other.holds_address(address))
}

fn let_to(port: &DownstreamPort, other: Option<DownstreamPort>) -> Option<Bdf>
    ensures { result ≡ let_to port.now other }
{
    match other {
        Some(other) if port.lets_through(other.id) => Some(id_below(&other)),
        _ => None,
    }
}

// (a port whose ACS P2P Egress Control is clear lets nothing through, so no other is looked for)
fn direct_at(ports: &[DownstreamPort], address: u64, port: &DownstreamPort) -> Option<Bdf>
    ensures { result ≡ direct_at ports.now address port.now }
{
    if !port.controls.controls_egress() || port.holds_address(address) {
        None
    } else {
        let_to(port, holder_beside(ports, port, address))
    }
}

fn direct_above(
    ports: &[DownstreamPort],
    bus: u8,
    address: u64,
    port: &DownstreamPort,
) -> Option<Bdf>
    ensures { result ≡ direct_above ports.now bus address port.now }
{
    if port.holds_bus(bus) {
        direct_at(ports, address, port)
    } else {
        None
    }
}

/// The function to which a request of this function goes directly, if any.
/// A port above the sender lets the request for this address through to another port of its switch; the answer
/// is the function below that.
pub fn direct_to(ports: &[DownstreamPort], function: Bdf, address: u64) -> Option<Bdf>
    ensures { result ≡ direct_to ports.now function address }
{
    for port in ports {
        if let Some(peer) = direct_above(ports, function.bus(), address, port) {
            return Some(peer);
        }
    }
    None
}

fn is_peer(function: Bdf, peer: Option<Bdf>) -> bool
    ensures { result ≡ is_peer function peer }
{
    match peer {
        Some(peer) => peer == function,
        None => false,
    }
}

/// Does a request of this sender for this address go directly to this function?
pub fn goes_directly(ports: &[DownstreamPort], sender: Bdf, address: u64, function: Bdf) -> bool
    ensures { result ≡ goes_directly ports.now sender address function }
{
    is_peer(function, direct_to(ports, sender, address))
}
