//! What is done about a packet that ends, before what answers it is made.

ghost use Rattle.std.specs.Prelude.{◌≡◌, Some, true, IfSome};
ghost use Rattle.function.specs.Accesses.{IsAccess};
ghost use Rattle.host_memory.specs.Pages.{page_of};
ghost use Rattle.tlp_view.specs.Bytes.{packet_of};
ghost use Rattle.request_handling.specs.Dispositions.{Suits, access_answer, data_reply_of, effect_of, handling, may_answer, reply_of};

use crate::answers::{
    forwarded, function_answer, function_read, function_refusal, host_data, host_operand,
    host_read, host_refusal, port_answer,
};
use crate::data_reply::DataReply;
use crate::handling::{Effect, Handling, Reply};
use crate::page::function_of;
use fab_types::{Bdf, PortId, Status};
use function::Functions;
use host_memory::HostMemory;
use layout::Start;
use tlp_view::{Kind, TlpView};

/// What is done about a packet that ends.
/// It is small, and moved in place of the answer, which is made where it is sent.
#[derive(Clone, Copy)]
pub enum Disposition {
    /// Nothing happens, and nothing answers.
    Discarded,
    /// The port refuses what this function sent, with this status.
    RefusedByPort(PortId, Bdf, Status),
    /// The host refuses it.
    RefusedByHost,
    /// This function refuses it.
    RefusedByFunction(Bdf),
    /// The host counts a posted request whose page isn't mapped for it.
    Blocked,
    /// The host counts a non-posted request whose page isn't mapped for it, and refuses it.
    BlockedAndRefused,
    /// The host writes the enabled bytes to this frame, from this byte on.
    Stored(u16, usize),
    /// The host answers with what stands in this frame.
    Shown(u16),
    /// The host adds the operand to the bytes of this frame, from this byte on.
    /// It answers with what stood there.
    Added(u16, usize),
    /// The host sends the same request to this function's page, at this address.
    Forwarded(Bdf, u32),
    /// This function's register page is written, or answers a read.
    Accessed(Bdf),
}

/// A function that is one of these answers a read of its register page.
fn access_answer(start: &Start, functions: &Functions, id: Bdf, view: &TlpView) -> Option<Reply>
    requires { IsAccess view.now }
    ensures { result ≡ access_answer start.now id view.now (page_of functions.now id) }
{
    let function = function_of(functions, id)?;
    function_answer(start, function, view)
}

impl Disposition {
    /// What that does with the state.
    pub fn effect(&self) -> Effect
        ensures { result ≡ effect_of self.now }
    {
        match self {
            Disposition::Blocked | Disposition::BlockedAndRefused => Effect::Block,
            Disposition::Stored(frame, first) => Effect::Store(*frame, *first),
            Disposition::Added(frame, first) => Effect::Add(*frame, *first),
            Disposition::Accessed(function) => Effect::Access(*function),
            Disposition::Discarded
            | Disposition::RefusedByPort(..)
            | Disposition::RefusedByHost
            | Disposition::RefusedByFunction(_)
            | Disposition::Shown(_)
            | Disposition::Forwarded(..) => Effect::Leave,
        }
    }

    /// May something answer the packet? A write of a register page isn't answered.
    pub fn may_answer(&self, bytes: &[u8]) -> bool
        requires { Suits bytes.now self.now }
        ensures { result ≡ may_answer (packet_of bytes.now) self.now }
    {
        match self {
            Disposition::Discarded | Disposition::Blocked | Disposition::Stored(..) => false,
            Disposition::RefusedByPort(..)
            | Disposition::RefusedByHost
            | Disposition::RefusedByFunction(_)
            | Disposition::BlockedAndRefused
            | Disposition::Shown(_)
            | Disposition::Added(..)
            | Disposition::Forwarded(..) => true,
            Disposition::Accessed(_) => !matches!(TlpView::again(bytes).kind(), Kind::MWr),
        }
    }

    /// What answers the packet, if anything does.
    pub fn reply(
        &self,
        start: &Start,
        memory: &HostMemory,
        functions: &Functions,
        bytes: &[u8],
    ) -> Option<Reply>
        requires { Suits bytes.now self.now }
        ensures { result ≡ reply_of start.now memory.now functions.now (packet_of bytes.now) self.now }
    {
        match self {
            Disposition::Discarded | Disposition::Blocked | Disposition::Stored(..) => None,
            Disposition::RefusedByPort(port, function, status) => {
                let view = TlpView::again(bytes);
                Some(port_answer(*port, *function, *status, &view))
            }
            Disposition::RefusedByHost | Disposition::BlockedAndRefused => {
                Some(host_refusal(start, &TlpView::again(bytes)))
            }
            Disposition::RefusedByFunction(function) => {
                Some(function_refusal(start, *function, &TlpView::again(bytes)))
            }
            Disposition::Shown(frame) => {
                Some(host_data(start, memory, *frame, &TlpView::again(bytes)))
            }
            Disposition::Added(frame, _) => {
                Some(host_operand(start, memory, *frame, &TlpView::again(bytes)))
            }
            Disposition::Forwarded(function, bar) => {
                Some(forwarded(*function, *bar, &TlpView::again(bytes)))
            }
            Disposition::Accessed(function) => {
                access_answer(start, functions, *function, &TlpView::again(bytes))
            }
        }
    }

    /// What answers the packet, where that is a read's answer whose data stand in memory or in a register page.
    /// It is moved as a loan of them, and is most of the answers that a fabric makes. `None` where something else answers the
    /// packet, which `reply` makes, or a read that shows 0 since nothing stands there, or since it asks for no bytes.
    pub fn data_reply<'a>(
        &self,
        start: &Start,
        memory: &'a HostMemory,
        functions: &'a Functions,
        bytes: &[u8],
    ) -> Option<DataReply<'a>>
        requires suits { Suits bytes.now self.now }
        requires asked { may_answer (packet_of bytes.now) self.now ≡ true }
        ensures value { result ≡ data_reply_of start.now memory.now functions.now (packet_of bytes.now) self.now }
        ensures same { IfSome result (λ reply. reply_of start.now memory.now functions.now (packet_of bytes.now) self.now ≡ Some reply) }
    {
        match self {
            Disposition::Shown(frame) => {
                host_read(start, memory, *frame, &TlpView::again(bytes))
            }
            Disposition::Accessed(function) => {
                let function = function_of(functions, *function)?;
                function_read(start, function, &TlpView::again(bytes))
            }
            Disposition::Discarded
            | Disposition::RefusedByPort(..)
            | Disposition::RefusedByHost
            | Disposition::RefusedByFunction(_)
            | Disposition::Blocked
            | Disposition::BlockedAndRefused
            | Disposition::Stored(..)
            | Disposition::Added(..)
            | Disposition::Forwarded(..) => None,
        }
    }

    /// Both at once.
    pub fn handling(
        &self,
        start: &Start,
        memory: &HostMemory,
        functions: &Functions,
        bytes: &[u8],
    ) -> Handling
        requires { Suits bytes.now self.now }
        ensures { result ≡ handling start.now memory.now functions.now (packet_of bytes.now) self.now }
    {
        Handling {
            effect: self.effect(),
            reply: self.reply(start, memory, functions, bytes),
        }
    }
}
