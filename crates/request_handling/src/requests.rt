//! What the host and a function do with an alien request.

ghost use Rattle.std.specs.Prelude.{◌≡◌, ◌==◌, ℕ, List, true};
ghost use Rattle.std.specs.List.{find};
ghost use Rattle.platform.specs.Share.{Share};
ghost use Rattle.tlp_view.specs.Bytes.{packet_of};
ghost use Rattle.tlp_view.specs.Kinds.{class_of_kind, has_address, is_memory};
ghost use Rattle.tlp_view.specs.View.{address_type_in};
ghost use Rattle.request_handling.specs.Answers.{function_refusal};
ghost use Rattle.request_handling.specs.AtFunctions.{is_access, lies_in, request_at_function, unserved};
ghost use Rattle.request_handling.specs.Dispositions.{IsServed, Suits, handling};
ghost use Rattle.request_handling.specs.Requests.{at_frame, at_port, by_number, by_table, frame_at, request_at_host, unserved_by_host};

use crate::answers::address_of;
use crate::carriage::{access_of, is_owner, is_write, serve, to_frame};
use crate::disposition::Disposition;
use crate::refusal::refusal_at;
use fab_types::{AddressType, Bdf, Class, Parties};
use function::Functions;
use host_table::HostTable;
use layout::Start;
use platform::DownstreamPort;
use tlp_view::{ReadPacket, TlpView};

/// The host refuses a non-posted request, and discards any other.
fn unserved_by_host(view: &TlpView) -> Disposition
    ensures value { (share : Share) (frames registers : List (ℕ × List ℕ)) → handling share frames registers view.now result ≡ unserved_by_host share view.now }
    ensures served { IsServed view.now result }
{
    match view.class() {
        Class::NonPosted => Disposition::RefusedByHost,
        Class::Posted | Class::Completion => Disposition::Discarded,
    }
}

/// The same at a function.
fn unserved_by_function(function: Bdf, view: &TlpView) -> Disposition
    ensures value { (share : Share) (frames registers : List (ℕ × List ℕ)) → handling share frames registers view.now result ≡ unserved (class_of_kind view.now.kind) (function_refusal share function view.now) }
    ensures served { IsServed view.now result }
{
    match view.class() {
        Class::NonPosted => Disposition::RefusedByFunction(function),
        Class::Posted | Class::Completion => Disposition::Discarded,
    }
}

/// By the table of the Requester ID, if that is one of this domain.
fn by_table(start: &Start, table: &HostTable, view: &TlpView) -> Disposition
    requires table { table.now ≡ (start.now).maps }
    requires addressed { has_address (view.now).kind ≡ true }
    ensures value { (frames registers : List (ℕ × List ℕ)) → handling start.now frames registers view.now result ≡ by_table start.now frames view.now }
    ensures served { IsServed view.now result }
{
    if is_owner(start.owner(view.requester()), start.domain()) {
        match serve(start, table, view) {
            Some(disposition) => disposition,
            None => Disposition::Discarded,
        }
    } else {
        unserved_by_host(view)
    }
}

/// A frame is written or read.
#[tactic(auto, using(crate::proofs::Addressed::memory_addressed, crate::proofs::Addressed::memory_read))]
fn at_frame(view: &TlpView, frame: u16) -> Disposition
    requires { is_memory (view.now).kind ≡ true }
    ensures value { (share : Share) (frames registers : List (ℕ × List ℕ)) → handling share frames registers view.now result ≡ at_frame share frames view.now frame }
    ensures served { IsServed view.now result }
{
    if is_write(view.kind()) {
        to_frame(frame, view)
    } else if view.dw_length() > 64 {
        Disposition::RefusedByHost
    } else {
        Disposition::Shown(frame)
    }
}

/// The frame whose number is the page.
fn frame_at(numbers: &[u16], page: u64) -> Option<u16>
    ensures { result ≡ frame_at numbers.now page }
{
    numbers
        .iter()
        .copied()
        .find(|number| u64::from(*number) == page)
}

/// No table is asked: the page is the number of the frame.
#[tactic(auto, using(crate::proofs::Addressed::memory_addressed))]
fn by_number(start: &Start, view: &TlpView) -> Disposition
    requires { is_memory (view.now).kind ≡ true }
    ensures value { (frames registers : List (ℕ × List ℕ)) → handling start.now frames registers view.now result ≡ by_number start.now frames view.now }
    ensures served { IsServed view.now result }
{
    match frame_at(start.frames(), address_of(view) / 4096) {
        Some(frame) => at_frame(view, frame),
        None => unserved_by_host(view),
    }
}

/// What the host does with a request that is alien there.
/// PCIe 4.0, 10.2.1 has the AT field.
pub fn request_at_host(start: &Start, table: &HostTable, view: &TlpView) -> Disposition
    requires { table.now ≡ (start.now).maps }
    ensures value { (frames registers : List (ℕ × List ℕ)) → handling start.now frames registers view.now result ≡ request_at_host start.now frames view.now (address_type_in view.now) }
    ensures served { IsServed view.now result }
{
    match view.at() {
        Some(AddressType::Untranslated) => by_table(start, table, view),
        Some(AddressType::Translated) if view.kind().is_memory() => by_number(start, view),
        Some(AddressType::Translated) => unserved_by_host(view),
        Some(AddressType::TranslationRequest) => unserved_by_host(view),
        Some(AddressType::Reserved) => unserved_by_host(view),
        None => unserved_by_host(view),
    }
}

/// Is the address in the register page that begins there?
fn lies_in(bar: Option<u32>, address: u64) -> bool
    ensures { result ≡ lies_in bar address }
{
    match bar {
        Some(bar) => address / 4096 == u64::from(bar / 4096),
        None => false,
    }
}

/// Is it a memory write, or a memory read of at most 64 DW?
fn is_access(view: &TlpView) -> bool
    ensures { result ≡ is_access view.now }
{
    view.kind().is_memory() && (is_write(view.kind()) || view.dw_length() <= 64)
}

/// What a function does with a request that came to it.
/// The request came directly, or is alien there.
#[tactic(auto, using(crate::proofs::WellMadeLemmas::is_an_access, crate::proofs::Addressed::access_addressed))]
pub fn request_at_function(
    start: &Start,
    functions: &Functions,
    id: Bdf,
    view: &TlpView,
) -> Disposition
    ensures value { (frames : List (ℕ × List ℕ)) → handling start.now frames functions.now view.now result ≡ request_at_function start.now functions.now id view.now }
    ensures served { IsServed view.now result }
{
    let bar = start.bar_of(id);
    if is_access(view) && lies_in(bar, address_of(view)) {
        match access_of(functions, id) {
            Some(disposition) => disposition,
            None => Disposition::Discarded,
        }
    } else {
        unserved_by_function(id, view)
    }
}

/// A port of the layout refuses what its own line refuses.
pub fn at_port(start: &Start, port: &DownstreamPort, bytes: &[u8], sender: Parties) -> Disposition
    ensures value { (share : Share) (frames registers : List (ℕ × List ℕ)) → handling share frames registers (packet_of bytes.now) result ≡ at_port start.now.ports port.now bytes.now sender }
    ensures suits { Suits bytes.now result }
{
    match sender {
        Parties::Upward(function) => {
            match refusal_at(start, port, function, &ReadPacket::new(bytes)) {
                Some(disposition) => disposition,
                None => Disposition::Discarded,
            }
        }
        Parties::Downward(_) | Parties::Answer(..) => Disposition::Discarded,
    }
}
