use crate::id::{Bdf, PortId};

/// The ACS test that a request failed (PCIe 4.0, 6.12.1.1).
#[derive(Clone, Copy, Debug, PartialEq, Eq)]
pub enum Check {
    /// V, ACS Source Validation: the Requester ID's bus is not below the port.
    SourceValidation,
    /// B, ACS Translation Blocking: the address is not an untranslated one.
    TranslationBlocking,
    /// E, ACS P2P Egress Control: the vector lets no request through to the other port.
    EgressControl,
}

/// An ACS violation (PCIe 4.0, 6.12.4): which port refused which function's request, and why.
#[derive(Clone, Copy, Debug, PartialEq, Eq)]
pub struct Violation {
    /// The port that refused the request.
    pub port: PortId,
    /// The test that the request failed.
    pub check: Check,
    /// The function that sent the request.
    pub sender: Bdf,
    /// The Requester ID that the request bore.
    pub requester: Bdf,
    /// Was the request posted (PCIe 4.0, 6.12.4)?
    /// Posted requests are discarded, others are answered Completer Abort.
    pub posted: bool,
}
