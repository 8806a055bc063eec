use fab_types::{Bdf, Class, Direction, DomainId, HostAccess, Origin, PacketBytes, PortId};

/// What may happen next in a fabric.
#[derive(Debug, Drop)]
pub enum Event {
    /// This function submits these bytes.
    Submit(Bdf, PacketBytes),
    /// The program of this function does its next line.
    Tick(Bdf),
    /// The host of this domain reads or writes a register page.
    Mmio(DomainId, HostAccess),
    /// What this origin emitted goes to the sender of its link.
    Enter(Origin, Class),
    /// This port takes a packet, and sends it on or has it refused.
    Pass(PortId, Class),
    /// The sender of a direction puts a packet on the wire and spends its credits.
    Send(Direction, Class),
    /// The oldest packet on the wire of a direction reaches the receiver.
    Take(Direction),
    /// The sender of a direction learns the receiver's present credits.
    Credit(Direction),
    /// The host takes a packet, and carries it, delivers it or sends it down again.
    Root(Class),
    /// This function takes a packet.
    Arrive(Bdf, Class),
}
