//! What the host does with a request, and what a function does with one of the host.

ghost use Rattle.std.specs.Prelude.{◌≡◌, ◌/◌, ◌%◌, ℕ, List, true, None, Some, IfSome, if◌then◌else◌, option_map};
ghost use Rattle.platform.specs.Share.{Share};
ghost use Rattle.tlp_view.specs.Bytes.{packet_of};
ghost use Rattle.tlp_view.specs.declared.kind.Kind.TheVariants.{MRd};
ghost use Rattle.tlp_view.specs.Kinds.{has_address, is_fetch_add};
ghost use Rattle.tlp_view.specs.Packet.{Packet};
ghost use Rattle.tlp_view.specs.Runs.{is_write};
ghost use Rattle.request_handling.specs.declared.disposition.Disposition.TheVariants.{Accessed, Stored};
ghost use Rattle.function.specs.Accesses.{IsAccess};
ghost use Rattle.request_handling.specs.AtFunctions.{access_of, request_at_function};
ghost use Rattle.request_handling.specs.Carries.{carriage_by, forward, frame_for, is_carried, is_owner, serve, serve_add, serve_read, write_to};
ghost use Rattle.request_handling.specs.Dispositions.{IsServed, Suits, handling};
ghost use Rattle.platform.specs.Tables.{target_of};
ghost use Rattle.platform.specs.declared.parts.Access.TheVariants as access;
ghost use Rattle.request_handling.specs.Answers.{address_of};
ghost use Rattle.platform.specs.Owners.{bar_of};
ghost use Rattle.request_handling.specs.Fates.{fate, fate_at};

use crate::answers::address_of;
use crate::disposition::Disposition;
use crate::fate::{Fate, is_untranslated, packet_fate};
use crate::page::place;
use crate::requests::request_at_function;
use fab_types::{Bdf, DomainId};
use function::Functions;
use host_table::{HostTable, Target};
use layout::Start;
use platform::{Access, DownstreamPort};
use tlp_view::{Kind, ReadPacket, TlpView};

pub(crate) fn is_write(kind: Kind) -> bool
    ensures { result ≡ is_write kind }
{
    matches!(kind, Kind::MWr)
}

pub(crate) fn is_owner(owner: Option<DomainId>, domain: DomainId) -> bool
    ensures { result ≡ is_owner owner domain }
{
    match owner {
        Some(owner) => owner == domain,
        None => false,
    }
}

/// Does the request claim no translation, in the name of a requester of this domain?
fn is_carried(start: &Start, view: &TlpView) -> bool
    requires { has_address (view.now).kind ≡ true }
    ensures { result ≡ is_carried start.now view.now }
{
    match view.at() {
        Some(address_type) => {
            is_untranslated(address_type) && is_owner(start.owner(view.requester()), start.domain())
        }
        None => unreachable!(),
    }
}

/// The place of a request in its page.
fn place_in_page(view: &TlpView) -> usize
    requires { has_address (view.now).kind ≡ true }
    ensures { result ≡ address_of view.now % 4096 }
{
    (address_of(view) % 4096) as usize
}

/// The host writes to a frame.
pub(crate) fn to_frame(frame: u16, view: &TlpView) -> Disposition
    requires { has_address (view.now).kind ≡ true }
    ensures { result ≡ Stored frame (address_of view.now % 4096) }
{
    Disposition::Stored(frame, place_in_page(view))
}

/// A request goes on to the same place in this function's register page.
/// It does if the layout has the function.
fn forward(start: &Start, function: Bdf) -> Option<Disposition>
    ensures value { (frames registers : List (ℕ × List ℕ)) (t : Packet) → option_map (handling start.now frames registers t) result ≡ forward function t (bar_of start.now.functions function) }
    ensures served { IfSome result (λ d. (t : Packet) → IsAccess t → IsServed t d) }
{
    match start.bar_of(function) {
        Some(bar) => Some(Disposition::Forwarded(function, bar)),
        None => None,
    }
}

/// What the host does with a write.
#[tactic(auto, using(crate::proofs::WellMadeLemmas::write_access, crate::proofs::Addressed::write_addressed))]
fn serve_write(start: &Start, table: &HostTable, view: &TlpView) -> Option<Disposition>
    requires { is_write (view.now).kind ≡ true }
    ensures value { (frames registers : List (ℕ × List ℕ)) → option_map (handling start.now frames registers view.now) result ≡ write_to start.now view.now (target_of table.now view.now.requester (address_of view.now / 4096) access.Write) }
    ensures served { IfSome result (λ d. IsServed view.now d) }
{
    match table.lookup(view.requester(), address_of(view) / 4096, Access::Write) {
        Target::Frame(frame) => Some(to_frame(frame, view)),
        Target::Peer(function) => forward(start, function),
        Target::None => Some(Disposition::Blocked),
    }
}

/// What the host does with a read.
fn serve_read(start: &Start, table: &HostTable, view: &TlpView) -> Option<Disposition>
    requires table { table.now ≡ (start.now).maps }
    requires read { (view.now).kind ≡ MRd }
    ensures value { (frames registers : List (ℕ × List ℕ)) → option_map (handling start.now frames registers view.now) result ≡ serve_read start.now frames view.now }
    ensures served { IfSome result (λ d. IsServed view.now d) }
{
    if view.dw_length() > 64 {
        return Some(Disposition::RefusedByHost);
    }
    match table.lookup(view.requester(), address_of(view) / 4096, Access::Read) {
        Target::Frame(frame) => Some(Disposition::Shown(frame)),
        Target::Peer(function) => forward(start, function),
        Target::None => Some(Disposition::BlockedAndRefused),
    }
}

/// The frame that the page of this request is mapped to for this access.
fn frame_for(start: &Start, table: &HostTable, view: &TlpView, access: Access) -> Option<u16>
    requires table { table.now ≡ (start.now).maps }
    requires addressed { has_address (view.now).kind ≡ true }
    ensures { result ≡ frame_for start.now view.now access }
{
    match table.lookup(view.requester(), address_of(view) / 4096, access) {
        Target::Frame(frame) => Some(frame),
        Target::Peer(_) => None,
        Target::None => None,
    }
}

/// What the host does with a FetchAdd, which reads and writes (PCIe 4.0, 6.15).
#[tactic(auto, using(crate::proofs::Addressed::fetch_add_addressed))]
fn serve_add(start: &Start, table: &HostTable, view: &TlpView) -> Disposition
    requires table { table.now ≡ (start.now).maps }
    requires atomic { is_fetch_add (view.now).kind ≡ true }
    ensures value { (frames registers : List (ℕ × List ℕ)) → handling start.now frames registers view.now result ≡ serve_add start.now frames view.now }
    ensures served { IsServed view.now result }
{
    let to_read = frame_for(start, table, view, Access::Read);
    let to_write = frame_for(start, table, view, Access::Write);
    match (to_read, to_write) {
        (Some(_), Some(frame)) => Disposition::Added(frame, place_in_page(view)),
        (Some(_), None) => Disposition::BlockedAndRefused,
        (None, _) => Disposition::BlockedAndRefused,
    }
}

/// What the host does with a request for memory, by the table of its Requester ID.
#[tactic(auto, using(crate::proofs::Addressed::left_read))]
pub(crate) fn serve(start: &Start, table: &HostTable, view: &TlpView) -> Option<Disposition>
    requires table { table.now ≡ (start.now).maps }
    requires addressed { has_address (view.now).kind ≡ true }
    ensures value { (frames registers : List (ℕ × List ℕ)) → option_map (handling start.now frames registers view.now) result ≡ serve start.now frames view.now }
    ensures served { IfSome result (λ d. IsServed view.now d) }
{
    let kind = view.kind();
    if is_write(kind) {
        serve_write(start, table, view)
    } else if kind.is_fetch_add() {
        Some(serve_add(start, table, view))
    } else {
        serve_read(start, table, view)
    }
}

/// What the host does with a request for memory of this domain.
fn carried(start: &Start, table: &HostTable, view: &TlpView) -> Option<Disposition>
    requires table { table.now ≡ (start.now).maps }
    requires addressed { has_address (view.now).kind ≡ true }
    ensures value { (frames registers : List (ℕ × List ℕ)) → option_map (handling start.now frames registers view.now) result ≡ (if is_carried start.now view.now then serve start.now frames view.now else None) }
    ensures served { IfSome result (λ d. IsServed view.now d) }
{
    if is_carried(start, view) {
        serve(start, table, view)
    } else {
        None
    }
}

/// What a function does with a request of this domain that goes directly to it.
fn carried_directly(
    start: &Start,
    functions: &Functions,
    function: Bdf,
    view: &TlpView,
) -> Option<Disposition>
    requires addressed { has_address (view.now).kind ≡ true }
    ensures value { (frames : List (ℕ × List ℕ)) → option_map (handling start.now frames functions.now view.now) result ≡ (if is_carried start.now view.now then Some (request_at_function start.now functions.now function view.now) else None) }
    ensures served { IfSome result (λ d. IsServed view.now d) }
{
    if is_carried(start, view) {
        Some(request_at_function(start, functions, function, view))
    } else {
        None
    }
}

/// What the host, or the function that it goes to, does with what passes this first port of its sender.
fn carriage_past(
    port: &DownstreamPort,
    start: &Start,
    table: &HostTable,
    functions: &Functions,
    function: Bdf,
    packet: &ReadPacket<'_>,
) -> Option<Disposition>
    requires { table.now ≡ (start.now).maps }
    ensures value { (frames : List (ℕ × List ℕ)) → option_map (handling start.now frames functions.now (packet_of packet.now)) result ≡ carriage_by start.now frames functions.now packet.now (fate_at start.now.ports function port.now packet.now) }
    ensures suits { IfSome result (λ d. Suits packet.now d) }
{
    let Some(view) = packet.view() else {
        return None;
    };
    match packet_fate(start, function, port, view) {
        Fate::ToHost => carried(start, table, view),
        Fate::Direct(peer) => carried_directly(start, functions, peer, view),
        Fate::Vanish => None,
        Fate::Refused(_) => None,
    }
}

/// What the host, or the function to which it goes directly, does with this packet.
/// A function sent it. `None` where a port stops it, or nothing of the kind is carried.
pub fn carriage_up(
    start: &Start,
    table: &HostTable,
    functions: &Functions,
    function: Bdf,
    packet: &ReadPacket<'_>,
) -> Option<Disposition>
    requires { table.now ≡ (start.now).maps }
    ensures value { (frames : List (ℕ × List ℕ)) → option_map (handling start.now frames functions.now (packet_of packet.now)) result ≡ carriage_by start.now frames functions.now packet.now (fate start.now.ports function packet.now) }
    ensures suits { IfSome result (λ d. Suits packet.now d) }
{
    match start.first_port(function) {
        Some(port) => carriage_past(&port, start, table, functions, function, packet),
        None => None,
    }
}

/// What a function does with a request for its register page.
/// `None` exactly where it isn't one of these functions.
pub fn access_of(functions: &Functions, id: Bdf) -> Option<Disposition>
    ensures value { (share : Share) (frames : List (ℕ × List ℕ)) (t : Packet) → option_map (handling share frames functions.now t) result ≡ access_of share functions.now id t }
    ensures accessed { IfSome result (λ d. d ≡ Accessed id) }
{
    match place(functions, id) {
        Some(_) => Some(Disposition::Accessed(id)),
        None => None,
    }
}
