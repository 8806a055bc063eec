//! Why bytes are no packet.

ghost use Rattle.std.specs.Prelude.{◌≡◌};
ghost use Rattle.fab_types.specs.Faults.{malformed_number, malformed_name};

use thiserror::Error;

/// Why bytes are no well-formed packet: the first cause that applies, in this order.
#[derive(Clone, Copy, Debug, PartialEq, Eq, Error)]
pub enum Malformed {
    /// Fewer bytes than the header takes.
    #[error("the packet is shorter than its header")]
    Short,
    /// Fmt and Type together name no kind (PCIe 4.0, 2.2.1).
    #[error("format and type name no kind of packet")]
    Kind,
    /// The length does not fit the packet.
    /// The bytes are not header and payload, or the payload is too large, or the kind does not allow this
    /// Length.
    #[error("the length does not fit the packet")]
    Size,
    /// The byte enables break the rules of a memory request (PCIe 4.0, 2.2.5).
    #[error("the byte enables are not allowed")]
    Enables,
    /// A memory request crosses a boundary of 4,096 bytes (PCIe 4.0, 2.2.7).
    #[error("the request crosses a 4 KB boundary")]
    Crosses,
    /// A 4 DW header has an address below 4 GB (PCIe 4.0, 2.2.4.1).
    /// The packet is a memory request.
    #[error("a 4 DW header has an address below 4 GB")]
    HighForm,
    /// A field has a value that this profile does not allow.
    #[error("a header field has a value that is not allowed")]
    Field,
}

impl Malformed {
    /// The number of the refusal.
    pub fn number(&self) -> u8
        ensures { result ≡ malformed_number self.now }
    {
        match self {
            Malformed::Short => 1,
            Malformed::Kind => 2,
            Malformed::Size => 3,
            Malformed::Enables => 4,
            Malformed::Crosses => 5,
            Malformed::HighForm => 6,
            Malformed::Field => 7,
        }
    }

    /// The name of the refusal.
    pub fn name(&self) -> &'static str
        ensures { result.now ≡ malformed_name self.now }
    {
        match self {
            Malformed::Short => "Short",
            Malformed::Kind => "Kind",
            Malformed::Size => "Size",
            Malformed::Enables => "Enables",
            Malformed::Crosses => "Crosses",
            Malformed::HighForm => "HighForm",
            Malformed::Field => "Field",
        }
    }
}
