//! What a descriptor of a packet shows of it on its way.

use crate::cost::Cost;
use crate::id::Bdf;
use crate::origin::Origin;

/// The AT field of a memory request (PCIe 4.0, 10.2.1).
#[derive(Clone, Copy, Debug, PartialEq, Eq)]
pub enum AddressType {
    /// 00b: the address is untranslated.
    Untranslated,
    /// 01b: a translation of the address is asked for.
    TranslationRequest,
    /// 10b: the address is translated.
    Translated,
    /// 11b: a reserved value.
    Reserved,
}

/// Who made a completion.
#[derive(Clone, Copy, Debug, PartialEq, Eq)]
pub enum Answerer {
    /// The first port above the requester, of a request that it stops.
    Port,
    /// The host, of a request that it took.
    Host,
    /// The function that the request was for.
    Function(Bdf),
}

/// Who made a packet, and for whom.
#[derive(Clone, Copy, Debug, PartialEq, Eq)]
pub enum Parties {
    /// What this function sent.
    Upward(Bdf),
    /// A request of a domain's host to this function.
    Downward(Bdf),
    /// A completion: who made it, and to whom it goes, if it is anybody.
    Answer(Answerer, Option<Origin>),
}

/// The header fields by which ports route a packet and test it.
#[derive(Clone, Copy, Debug, PartialEq, Eq)]
pub enum Header {
    /// Of no well-formed packet.
    Malformed,
    /// Of a memory read or write or a FetchAdd, with its address in bytes.
    Memory {
        requester: Bdf,
        address_type: AddressType,
        address: u64,
    },
    /// Of a request of any other kind.
    OtherRequest {
        requester: Bdf,
    },
    /// Of a completion: the ID to which it is routed, and its attribute Relaxed Ordering.
    Completion {
        target: Bdf,
        relaxed_ordering: bool,
    },
}

/// What moves between ports in place of a packet's bytes.
#[derive(Clone, Copy, Debug, PartialEq, Eq)]
pub struct Head {
    /// Who made the packet, and for whom.
    pub parties: Parties,
    /// What it costs in flow control credits.
    pub cost: Cost,
    /// The header fields by which ports route and test it.
    pub header: Header,
}
