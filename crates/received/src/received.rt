//! What its home has to do with a packet that the host or a function takes (PCIe 4.0, 2.2.9 and 2.3.1).

ghost use Rattle.std.specs.Prelude.{◌≡◌};
ghost use Rattle.received.specs.Received.{completion_at_host, is_relayed, memory_at_function, received_at_function, received_at_host, received_by_function, received_by_host, request_at_function, request_at_host};

use bridge::Bridge;
use fab_types::{Bdf, DomainId, Header, Parties};
use frame_log::Frame;

/// What its home has to do with a packet that was taken.
#[derive(Clone, Copy, Debug, PartialEq, Eq)]
pub enum Received {
    /// The host sends it down again.
    Relayed,
    /// A request reached its completer.
    Request,
    /// A completion reached whom it answers.
    Completion,
    /// It has no case here.
    Unknown,
}

fn request_at_host(parties: Parties) -> Received
    ensures { result ≡ request_at_host parties }
{
    match parties {
        Parties::Upward(_) => Received::Request,
        Parties::Downward(_) => Received::Unknown,
        Parties::Answer(..) => Received::Unknown,
    }
}

fn request_at_function(parties: Parties) -> Received
    ensures { result ≡ request_at_function parties }
{
    match parties {
        Parties::Upward(_) => Received::Unknown,
        Parties::Downward(_) => Received::Request,
        Parties::Answer(..) => Received::Unknown,
    }
}

/// Bus 00 is the host's own.
fn completion_at_host(domain: DomainId, target: Bdf) -> Received
    ensures { result ≡ completion_at_host domain target }
{
    if target.bus() != 0 {
        Received::Relayed
    } else if target == domain.host() {
        Received::Completion
    } else {
        Received::Unknown
    }
}

/// Does the host send a packet with this header down again?
pub fn is_relayed(header: Header) -> bool
    ensures { result ≡ is_relayed header }
{
    match header {
        Header::Malformed => false,
        Header::Memory { .. } => false,
        Header::OtherRequest { .. } => false,
        Header::Completion { target, .. } => target.bus() != 0,
    }
}

fn received_by_host(domain: DomainId, parties: Parties, header: Header) -> Received
    ensures { result ≡ received_by_host domain parties header }
{
    match header {
        Header::Malformed => Received::Unknown,
        Header::Memory { .. } => request_at_host(parties),
        Header::OtherRequest { .. } => request_at_host(parties),
        Header::Completion { target, .. } => completion_at_host(domain, target),
    }
}

/// What its home has to do with a packet that the host takes.
/// A function's request is carried. A completion for another bus than 00 is sent down again, one for the host of its home
/// delivered.
pub fn received_at_host(frame: &Frame) -> Received
    ensures { result ≡ received_at_host frame.now }
{
    let head = frame.head();
    received_by_host(frame.domain(), head.parties, head.header)
}

/// A memory request of another function has come to it directly.
fn memory_at_function(bridge: &Bridge, function: Bdf, address: u64, parties: Parties) -> Received
    ensures { result ≡ memory_at_function bridge.now.ports function address parties }
{
    match parties {
        Parties::Upward(sender) => {
            if bridge.goes_directly(sender, address, function) {
                Received::Request
            } else {
                Received::Unknown
            }
        }
        Parties::Downward(_) | Parties::Answer(..) => request_at_function(parties),
    }
}

fn received_by_function(
    bridge: &Bridge,
    function: Bdf,
    parties: Parties,
    header: Header,
) -> Received
    ensures { result ≡ received_by_function bridge.now.ports function parties header }
{
    match header {
        Header::Malformed => Received::Unknown,
        Header::Memory { address, .. } => memory_at_function(bridge, function, address, parties),
        Header::OtherRequest { .. } => request_at_function(parties),
        Header::Completion { .. } => Received::Completion,
    }
}

/// What its home has to do with a packet that a function takes.
/// It has a case only where the function is its home's own (`is_own`): then a request of the host is carried, or one of
/// another function that goes directly there, and a completion is delivered.
pub fn received_at_function(bridge: &Bridge, function: Bdf, is_own: bool, frame: &Frame) -> Received
    ensures { result ≡ received_at_function bridge.now.ports function is_own frame.now }
{
    if is_own {
        let head = frame.head();
        received_by_function(bridge, function, head.parties, head.header)
    } else {
        Received::Unknown
    }
}
