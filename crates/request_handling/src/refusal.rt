//! What the first port of its sender does with a packet that it stops.

ghost use Rattle.std.specs.Prelude.{◌≡◌, ℕ, List, IfSome, option_map};
ghost use Rattle.fab_types.specs.declared.head.Parties.TheVariants.{Upward};
ghost use Rattle.tlp_view.specs.Bytes.{packet_of};
ghost use Rattle.tlp_view.specs.Malformed.{malformed};
ghost use Rattle.tlp_view.specs.Packet.{Packet};
ghost use Rattle.platform.specs.Owners.{first_port};
ghost use Rattle.platform.specs.Share.{Share};
ghost use Rattle.request_handling.specs.Carries.{answer_refusal, is_returned, refusal_by, refusal_of};
ghost use Rattle.request_handling.specs.Dispositions.{Suits, handling};
ghost use Rattle.request_handling.specs.Fates.{fate_at};

use crate::disposition::Disposition;
use crate::fate::{Fate, packet_fate, returns_completion};
use fab_types::{Answerer, Bdf};
use layout::Start;
use platform::DownstreamPort;
use tlp_view::{ReadPacket, TlpView};

/// How this packet of a function ends at this port of the layout, if it ends there.
pub(crate) fn refusal_at(
    start: &Start,
    port: &DownstreamPort,
    function: Bdf,
    packet: &ReadPacket<'_>,
) -> Option<Disposition>
    ensures value { (share : Share) (frames registers : List (ℕ × List ℕ)) → option_map (handling share frames registers (packet_of packet.now)) result ≡ refusal_by port.now.id function packet.now (fate_at start.now.ports function port.now packet.now) }
    ensures suits { IfSome result (λ d. Suits packet.now d) }
{
    let Some(view) = packet.view() else {
        return Some(Disposition::Discarded);
    };
    match packet_fate(start, function, port, view) {
        Fate::Vanish => Some(Disposition::Discarded),
        Fate::Refused(status) => Some(Disposition::RefusedByPort(port.id, function, status)),
        Fate::ToHost | Fate::Direct(_) => None,
    }
}

/// How this packet of a function ends at its first port, if it ends there.
pub fn refusal_of(start: &Start, function: Bdf, packet: &ReadPacket<'_>) -> Option<Disposition>
    ensures value { (frames registers : List (ℕ × List ℕ)) → option_map (handling start.now frames registers (packet_of packet.now)) result ≡ refusal_of start.now packet.now (Upward function) }
    ensures suits { IfSome result (λ d. Suits packet.now d) }
{
    match start.first_port(function) {
        Some(port) => refusal_at(start, &port, function, packet),
        None => Some(Disposition::Discarded),
    }
}

/// Would the first port of the function that made this completion send it back?
fn is_returned(start: &Start, answerer: Answerer, view: &TlpView) -> bool
    ensures { result ≡ is_returned start.now answerer view.now }
{
    let Answerer::Function(function) = answerer else {
        return false;
    };
    match start.first_port(function) {
        Some(port) => returns_completion(&port, view),
        None => false,
    }
}

/// How a completion of a function ends at its first port, if it ends there.
/// That is the first port of the function that made it. With Upstream Forwarding clear the port discards what
/// is for a bus below it (PCIe 4.0, 6.12.1.1). Completions of ports and of the host come to no such port.
pub fn refusal_of_completion(
    start: &Start,
    answerer: Answerer,
    packet: &ReadPacket<'_>,
) -> Option<Disposition>
    ensures value { (frames registers : List (ℕ × List ℕ)) (t : Packet) → option_map (handling start.now frames registers t) result ≡ answer_refusal start.now (malformed packet.now) answerer (packet_of packet.now) }
    ensures suits { IfSome result (λ d. Suits packet.now d) }
{
    let Some(view) = packet.view() else {
        return None;
    };
    if is_returned(start, answerer, view) {
        Some(Disposition::Discarded)
    } else {
        None
    }
}
