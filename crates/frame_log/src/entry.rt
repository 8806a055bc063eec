use fab_types::{DomainId, PacketBytes};

/// What a log keeps of a packet (a TLP: PCIe 4.0, 2.1).
#[derive(Debug, PartialEq, Eq, Drop)]
pub struct TlpEntry {
    /// The domain that made the packet.
    pub domain: DomainId,
    /// The packet's number in that domain.
    pub number: u64,
    /// The packet's bytes, as its domain made them.
    pub bytes: PacketBytes,
}
