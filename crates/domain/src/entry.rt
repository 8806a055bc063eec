use fab_types::{Bdf, HostAccess, PacketBytes, Parties, Place};

/// What a domain did, as its journal keeps it.
/// It is a begin with its inputs, the end of a packet by its number alone, or what a packet did for which its
/// home's journal has no entry.
#[derive(Debug, Drop)]
pub enum Entry {
    /// This function submitted these bytes.
    Submit(Bdf, PacketBytes),
    /// This function's program had a tick.
    Tick(Bdf),
    /// The domain's host asked this of a register page.
    Mmio(HostAccess),
    /// The packet of this number was stopped by its sender's first port.
    Refuse(u64),
    /// The packet of this number reached its completer.
    Carry(u64),
    /// The completion of this number reached the function or host that it answers.
    Deliver(u64),
    /// A packet was taken that the journal of its home has no entry for.
    /// It was taken at this place. The entry also has who made it and for whom, and its bytes.
    Alien(Place, Parties, PacketBytes),
}
