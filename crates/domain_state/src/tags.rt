//! The Tags that packets open and close.

ghost use Rattle.std.specs.Prelude.{◌≡◌, if◌then◌else◌, Some, None};
ghost use Rattle.tlp_view.specs.Bytes.{packet_of};
ghost use Rattle.domain_state.specs.Tags.{completes, opens_tag};

use fab_types::Class;
use tlp_view::ReadPacket;

/// The Tag that a packet opens: that of a well-formed non-posted request.
pub fn tag_to_open(packet: &ReadPacket<'_>) -> Option<u8>
    ensures { result ≡ (if opens_tag packet.now then Some (packet_of packet.now).tag else None) }
{
    match packet.view() {
        Some(view) => match view.class() {
            Class::NonPosted => Some(view.tag()),
            Class::Posted | Class::Completion => None,
        },
        None => None,
    }
}

/// Is the packet a well-formed completion?
pub fn completes(packet: &ReadPacket<'_>) -> bool
    ensures { result ≡ completes packet.now }
{
    match packet.view() {
        Some(view) => view.kind().is_completion(),
        None => false,
    }
}
