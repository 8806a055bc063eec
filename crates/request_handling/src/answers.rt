//! The completions by which ports and the host answer.

ghost use Rattle.std.specs.Prelude.{◌≡◌, ◌+◌, ◌*◌, ◌%◌, ◌≤◌, IfSome, length, option_map, true, unwrap_or};
ghost use Rattle.std.specs.Option.{option_copied};
ghost use Rattle.tlp_view.specs.Completions.{HeadFits, atomic_completion, completion_of, read_completion};
ghost use Rattle.tlp_view.specs.Kinds.{has_address, is_fetch_add};
ghost use Rattle.tlp_view.specs.declared.kind.Kind.TheVariants.{MRd};
ghost use Rattle.tlp_view.specs.Packet.{dw_count};
ghost use Rattle.request_handling.specs.Answers.{address_of, blank, forwarded, function_answer, function_read, function_refusal, host_data, host_operand, host_refusal, port_answer, reads_nothing, shown, stored_part};
ghost use Rattle.function.specs.Accesses.{IsAccess};

use crate::data_reply::DataReply;
use crate::handling::Reply;
use fab_types::{Answerer, Bdf, Origin, PortId, Status};
use function::Function;
use host_memory::HostMemory;
use layout::Start;
use tlp_view::{CompletionHead, CplBuf, RequestBuf, TlpView};

/// A port refuses a request of this function.
pub(crate) fn port_answer(port: PortId, function: Bdf, status: Status, view: &TlpView) -> Reply
    ensures { result ≡ port_answer port function status view.now }
{
    let head = CompletionHead::of_refusal(port.id(), status, view);
    Reply::answer(
        Answerer::Port,
        Some(Origin::Function(function)),
        CplBuf::new(head, 0),
    )
}

/// The host refuses a request.
pub(crate) fn host_refusal(start: &Start, view: &TlpView) -> Reply
    ensures { result ≡ host_refusal start.now view.now }
{
    let head = CompletionHead::of_refusal(Bdf::from_bits(0), Status::UR, view);
    Reply::answer(
        Answerer::Host,
        start.reach(view.requester()),
        CplBuf::new(head, 0),
    )
}

/// A function refuses a request.
pub(crate) fn function_refusal(start: &Start, function: Bdf, view: &TlpView) -> Reply
    ensures { result ≡ function_refusal start.now function view.now }
{
    let head = CompletionHead::of_refusal(function, Status::UR, view);
    let asker = start.reach(view.requester());
    Reply::answer(Answerer::Function(function), asker, CplBuf::new(head, 0))
}

/// The host answers a read of a frame of memory with the data that stand there. `None` where it shows 0 since none do, or
/// since it asks for no bytes.
pub(crate) fn host_read<'a>(
    start: &Start,
    memory: &'a HostMemory,
    frame: u16,
    view: &TlpView,
) -> Option<DataReply<'a>>
    requires read { (view.now).kind ≡ MRd }
    requires short { dw_count (view.now).length ≤ 64 }
    ensures value { result ≡ option_map (host_data start.now view.now) (stored_part memory.now frame view.now) }
    ensures shown { IfSome result (λ reply. reply ≡ host_data start.now view.now (shown memory.now frame view.now)) }
{
    let data = part_read(memory, frame, view)?;
    let head = CompletionHead::of_read(Bdf::from_bits(0), view);
    Some(DataReply::new(Answerer::Host, start.reach(view.requester()), head, data))
}

/// The same answer, whatever it shows.
pub(crate) fn host_data(start: &Start, memory: &HostMemory, frame: u16, view: &TlpView) -> Reply
    requires read { (view.now).kind ≡ MRd }
    requires short { dw_count (view.now).length ≤ 64 }
    ensures { result ≡ host_data start.now view.now (shown memory.now frame view.now) }
{
    Reply::answer(
        Answerer::Host,
        start.reach(view.requester()),
        completed_read(view, part_read(memory, frame, view)),
    )
}

/// The host answers a FetchAdd of a frame of memory with what stands there before it.
#[tactic(auto, using(crate::proofs::Addressed::fetch_add_addressed))]
pub(crate) fn host_operand(start: &Start, memory: &HostMemory, frame: u16, view: &TlpView) -> Reply
    requires { is_fetch_add (view.now).kind ≡ true }
    ensures { result ≡ host_operand start.now view.now (shown memory.now frame view.now) }
{
    Reply::answer(
        Answerer::Host,
        start.reach(view.requester()),
        completed_atomic(view, part_read(memory, frame, view)),
    )
}

/// The address of a request that has one.
pub(crate) fn address_of(view: &TlpView) -> u64
    requires { has_address (view.now).kind ≡ true }
    ensures { result ≡ address_of view.now }
{
    view.address().unwrap()
}

/// The same request to that place, for a function whose register page is there.
#[tactic(auto, using(crate::proofs::Addressed::access_addressed))]
pub(crate) fn forwarded(function: Bdf, bar: u32, view: &TlpView) -> Reply
    requires { IsAccess view.now }
    ensures { result ≡ forwarded function bar view.now }
{
    let place = address_of(view) % 4096;
    let page = u64::from(bar / 4096 * 4096);
    Reply::request(function, RequestBuf::moved(view, page + place))
}

/// A function answers a read of its register page with the data that stand there. `None` for a read of no bytes, which
/// shows 0.
pub(crate) fn function_read<'a>(
    start: &Start,
    function: &'a Function,
    view: &TlpView,
) -> Option<DataReply<'a>>
    requires read { (view.now).kind ≡ MRd }
    requires short { dw_count (view.now).length ≤ 64 }
    ensures { result ≡ function_read start.now (function.now).0 (function.now).1 view.now }
{
    let data = function.shown(view)?;
    let head = CompletionHead::of_read(function.id(), view);
    Some(DataReply::new(
        Answerer::Function(function.id()),
        start.reach(view.requester()),
        head,
        data,
    ))
}

/// A function answers a request for its register page, whatever it shows; a write has no answer.
pub(crate) fn function_answer(start: &Start, function: &Function, view: &TlpView) -> Option<Reply>
    requires { IsAccess view.now }
    ensures { result ≡ function_answer start.now (function.now).0 (function.now).1 view.now }
{
    let packet = function.answer(view)?;
    Some(Reply::answer(
        Answerer::Function(function.id()),
        start.reach(view.requester()),
        packet,
    ))
}

/// Does the read ask for no bytes?
fn reads_nothing(view: &TlpView) -> bool
    ensures { result ≡ reads_nothing view.now }
{
    match view.enables() {
        Some(enables) => view.dw_length() == 1 && enables.first == 0,
        None => false,
    }
}

/// The bytes that a read or an AtomicOp shows, where they are not all 0 for another cause.
fn part_read<'a>(memory: &'a HostMemory, frame: u16, view: &TlpView) -> Option<&'a [u8]>
    requires { has_address (view.now).kind ≡ true }
    ensures value { option_copied result ≡ stored_part memory.now frame view.now }
    ensures size { IfSome result (λ part. length part.now ≡ 4 * dw_count (view.now).length) }
{
    if reads_nothing(view) {
        return None;
    }
    let first = (address_of(view) % 4096) as usize;
    memory.part(frame, first..first + 4 * usize::from(view.dw_length()))
}

/// The successful completion of a read that shows this part, or 0 without one.
fn completed_read(view: &TlpView, part: Option<&[u8]>) -> CplBuf
    requires read { (view.now).kind ≡ MRd }
    requires short { dw_count (view.now).length ≤ 64 }
    requires size { IfSome part (λ bytes. length bytes.now ≡ 4 * dw_count (view.now).length) }
    ensures { result ≡ read_completion 0 view.now (unwrap_or (option_copied part.entry) (blank view.now)) }
{
    completed(CompletionHead::of_read(Bdf::from_bits(0), view), view, part)
}

/// The successful completion of a FetchAdd that shows this part, or 0 without one.
fn completed_atomic(view: &TlpView, part: Option<&[u8]>) -> CplBuf
    requires atomic { is_fetch_add (view.now).kind ≡ true }
    requires size { IfSome part (λ bytes. length bytes.now ≡ 4 * dw_count (view.now).length) }
    ensures { result ≡ atomic_completion 0 view.now (unwrap_or (option_copied part.entry) (blank view.now)) }
{
    completed(
        CompletionHead::of_atomic(Bdf::from_bits(0), view),
        view,
        part,
    )
}

/// A completion that shows this part, or as many bytes of 0 without one.
fn completed(head: CompletionHead, view: &TlpView, part: Option<&[u8]>) -> CplBuf
    requires fits { HeadFits head }
    requires short { dw_count (view.now).length ≤ 64 }
    requires size { IfSome part (λ bytes. length bytes.now ≡ 4 * dw_count (view.now).length) }
    ensures { result ≡ completion_of head (unwrap_or (option_copied part.entry) (blank view.now)) }
{
    let Some(bytes) = part else {
        return CplBuf::new(head, usize::from(view.dw_length()));
    };
    with_data(head, bytes)
}

/// A completion with these bytes.
fn with_data(head: CompletionHead, bytes: &[u8]) -> CplBuf
    requires fits { HeadFits head }
    requires whole { length bytes.now % 4 ≡ 0 }
    requires small { length bytes.now ≤ 256 }
    ensures { result ≡ completion_of head bytes.now }
{
    let mut packet = CplBuf::new(head, bytes.len() / 4);
    packet.payload_mut().copy_from_slice(bytes);
    packet
}
