//! The descriptor's head of a packet.

ghost use Rattle.std.specs.Prelude.{◌≡◌, None};
ghost use Rattle.tlp_view.specs.Costs.{packet_cost};
ghost use Rattle.tlp_view.specs.Malformed.{malformed};
ghost use Rattle.request_handling.specs.Heads.{head_of, malformed_cost, packet_header, target_for};

use crate::answers::address_of;
use fab_types::{Answerer, Bdf, Class, Cost, Head, Header, Parties};
use tlp_view::{ReadPacket, TlpView};

/// To which ID a completion is routed.
/// A port's answer goes to the sender of what the port refused, whatever Requester ID that bore.
pub fn target_for(parties: Parties, requester: Bdf) -> Bdf
    ensures { result ≡ target_for parties requester }
{
    match parties {
        Parties::Answer(Answerer::Port, Some(sender)) => sender.id(),
        _ => requester,
    }
}

fn packet_header(parties: Parties, view: &TlpView) -> Header
    ensures { result ≡ packet_header parties view.now }
{
    let requester = view.requester();
    if view.kind().is_completion() {
        return Header::Completion {
            target: target_for(parties, requester),
            relaxed_ordering: view.attr().relaxed_ordering,
        };
    }
    match view.at() {
        Some(address_type) => Header::Memory {
            requester,
            address_type,
            address: address_of(view),
        },
        None => Header::OtherRequest { requester },
    }
}

fn packet_head(parties: Parties, view: &TlpView) -> Head
    ensures { result ≡ record { parties = parties; cost = packet_cost view.now; header = packet_header parties view.now } }
{
    let cost = view.cost();
    let these = parties;
    let header = packet_header(these, view);
    Head {
        parties,
        cost,
        header,
    }
}

fn malformed_head(parties: Parties) -> Head
    ensures { result ≡ record { parties = parties; cost = malformed_cost; header = Header.Malformed } }
{
    Head {
        parties,
        cost: Cost::without_data(Class::Posted),
        header: Header::Malformed,
    }
}

/// The head of a packet of well-formed bytes. Whether they are is not tested.
pub fn well_formed_head(parties: Parties, bytes: &[u8]) -> Head
    requires { malformed bytes.now ≡ None }
    ensures { result ≡ head_of (record { parties = parties; bytes = bytes.now }) }
{
    packet_head(parties, &TlpView::again(bytes))
}

/// What ports read of a packet: the parties, its cost and its header fields.
pub fn head_of(parties: Parties, packet: &ReadPacket<'_>) -> Head
    ensures { result ≡ head_of (record { parties = parties; bytes = packet.now }) }
{
    match packet.view() {
        Some(view) => packet_head(parties, view),
        None => malformed_head(parties),
    }
}
