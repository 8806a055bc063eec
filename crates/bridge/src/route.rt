use fab_types::PortId;

/// Where a packet goes from the port at which it came into a switch.
#[derive(Clone, Copy, Debug, PartialEq, Eq)]
pub enum Route {
    /// Out of the upstream port of the switch.
    Up,
    /// Out of this other downstream port of the switch.
    Port(PortId),
    /// Back out of the downstream port at which it came in.
    OwnEgress,
    /// No port of the switch takes it.
    Nobody,
}
