//! The tests of a request at a downstream port.

ghost use Rattle.std.specs.Prelude.{◌≡◌};
ghost use Rattle.acs.specs.Vetting.{requester_of, is_outside, is_translated, claims_translation, fails_source, fails_translation, verdict_of};

use fab_types::{AddressType, Bdf, Check, Header};
use platform::DownstreamPort;

/// What a downstream port says of a packet that comes up (PCIe 4.0, 6.12.1.1).
#[derive(Clone, Copy, Debug, PartialEq, Eq)]
pub enum Verdict {
    /// The packet may go on.
    Pass,
    /// An ACS violation: the request may not, since it failed this test.
    Violation(Check),
}

/// The Requester ID of a request. What carries no request has none.
pub fn requester_of(header: &Header) -> Option<Bdf>
    ensures { result ≡ requester_of header.now }
{
    match header {
        Header::Malformed => None,
        Header::Memory { requester, .. } => Some(*requester),
        Header::OtherRequest { requester } => Some(*requester),
        Header::Completion { .. } => None,
    }
}

fn is_outside(port: &DownstreamPort, requester: Option<Bdf>) -> bool
    ensures { result ≡ is_outside port.now requester }
{
    match requester {
        Some(requester) => !port.holds_bus(requester.bus()),
        None => false,
    }
}

fn is_translated(address_type: AddressType) -> bool
    ensures { result ≡ is_translated address_type }
{
    match address_type {
        AddressType::Untranslated => false,
        AddressType::TranslationRequest => true,
        AddressType::Translated => true,
        AddressType::Reserved => true,
    }
}

fn claims_translation(header: &Header) -> bool
    ensures { result ≡ claims_translation header.now }
{
    match header {
        Header::Malformed => false,
        Header::Memory { address_type, .. } => is_translated(*address_type),
        Header::OtherRequest { .. } => false,
        Header::Completion { .. } => false,
    }
}

fn fails_source(port: &DownstreamPort, header: &Header) -> bool
    ensures { result ≡ fails_source port.now header.now }
{
    port.controls.validates_source() && is_outside(port, requester_of(header))
}

fn fails_translation(port: &DownstreamPort, header: &Header) -> bool
    ensures { result ≡ fails_translation port.now header.now }
{
    port.controls.blocks_translated() && claims_translation(header)
}

/// Tests a packet that comes up to a downstream port (PCIe 4.0, 6.12.1.1).
/// The controls that are set there say which tests are made. Source Validation is the first, of each request.
/// Translation Blocking is the second, of memory reads and writes and FetchAdds alone; that is this project's
/// own, as the standard tests every memory request. Completions pass. Malformed packets pass too: they are
/// discarded before this test.
pub fn vet(port: &DownstreamPort, header: &Header) -> Verdict
    ensures { result ≡ verdict_of port.now header.now }
{
    if fails_source(port, header) {
        return Verdict::Violation(Check::SourceValidation);
    }
    if fails_translation(port, header) {
        return Verdict::Violation(Check::TranslationBlocking);
    }
    Verdict::Pass
}
