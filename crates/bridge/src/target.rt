//! What a packet is routed by.

ghost use Rattle.std.specs.Prelude.{◌≡◌};
ghost use Rattle.bridge.specs.Routes.{target_of, holds, holds_target};

use fab_types::Header;
use platform::DownstreamPort;

/// What decides where a packet goes.
#[derive(Clone, Copy, Debug, PartialEq, Eq)]
pub enum Target {
    /// A bus number (PCIe 4.0, 2.2.4.2).
    Bus(u8),
    /// An address in bytes (PCIe 4.0, 2.2.4.1).
    Address(u64),
}

impl Target {
    /// What a packet with this header is routed by.
    /// A memory request is by its address, a completion by the bus of the ID that it goes to. No other packet
    /// is routed.
    pub fn of(header: &Header) -> Option<Target>
        ensures { result ≡ target_of header.now }
    {
        match header {
            Header::Malformed => None,
            Header::Memory { address, .. } => Some(Target::Address(*address)),
            Header::OtherRequest { .. } => None,
            Header::Completion { target, .. } => Some(Target::Bus(target.bus())),
        }
    }

    /// Is it below this port?
    /// It is if it is a bus among the port's buses, or an address in its window.
    pub fn is_below(self, port: &DownstreamPort) -> bool
        ensures { result ≡ holds_target port.now self }
    {
        match self {
            Target::Bus(bus) => port.holds_bus(bus),
            Target::Address(address) => port.holds_address(address),
        }
    }
}

/// Is the target below this port? A packet without a target is below no port.
pub(crate) fn holds(port: &DownstreamPort, target: Option<Target>) -> bool
    ensures { result ≡ holds port.now target }
{
    match target {
        Some(target) => target.is_below(port),
        None => false,
    }
}
