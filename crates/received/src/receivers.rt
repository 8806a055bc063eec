//! Which domain gets a packet that its home has no case for at the host.

ghost use Rattle.std.specs.Prelude.{◌≡◌, ℕ, Option};
ghost use Rattle.received.specs.Receivers.{addressed_to, is_addition, receiver_at_host, receiver_by};

use bridge::Bridge;
use fab_types::{AddressType, Bdf, Class, Cost, DomainId, Header};
use frame_log::Frame;

// How many bytes a frame of memory has.
const FRAME: u64 = 4096;

/// Who knows whose each frame of memory is.
pub trait OwnsFrames {
    /// The domain that has the frame of memory of this number, if one does.
    ghost owner_of_frame: { Self → ℕ → Option ℕ };

    /// The domain that has the frame of memory of this number, if one does.
    fn owner_of_frame(&self, number: u64) -> Option<DomainId>
        ensures { result ≡ owner_of_frame self.now number };
}

/// Is it of a FetchAdd? Of the requests with an address that alone is non-posted and has data.
fn is_addition(cost: Cost) -> bool
    ensures { result ≡ is_addition cost }
{
    matches!(cost.class, Class::NonPosted) && cost.data.get() != 0
}

/// A memory request: the owner of its Requester ID, or of the frame of memory whose number is its page. A FetchAdd of a
/// frame by its number is nobody's.
fn addressed_to<O: OwnsFrames>(
    bridge: &Bridge,
    frames: &O,
    cost: Cost,
    requester: Bdf,
    address_type: AddressType,
    address: u64,
) -> Option<DomainId>
    ensures { result ≡ addressed_to bridge.now.ports (O.owner_of_frame frames.now) cost requester address_type address }
{
    match address_type {
        AddressType::Untranslated => bridge.owner(requester),
        AddressType::Translated if is_addition(cost) => None,
        AddressType::Translated => frames.owner_of_frame(address / FRAME),
        AddressType::TranslationRequest | AddressType::Reserved => None,
    }
}

fn receiver_by<O: OwnsFrames>(
    bridge: &Bridge,
    frames: &O,
    cost: Cost,
    header: Header,
) -> Option<DomainId>
    ensures { result ≡ receiver_by bridge.now.ports (O.owner_of_frame frames.now) cost header }
{
    match header {
        Header::Malformed => None,
        Header::Memory {
            requester,
            address_type,
            address,
        } => addressed_to(bridge, frames, cost, requester, address_type, address),
        Header::OtherRequest { .. } => None,
        Header::Completion { target, .. } => bridge.owner(target),
    }
}

/// The domain that a packet at the host is for, or else its home.
pub fn receiver_at_host<O: OwnsFrames>(bridge: &Bridge, frames: &O, frame: &Frame) -> DomainId
    ensures { result ≡ receiver_at_host bridge.now.ports (O.owner_of_frame frames.now) frame.now }
{
    let head = frame.head();
    match receiver_by(bridge, frames, head.cost, head.header) {
        Some(receiver) => receiver,
        None => frame.domain(),
    }
}
