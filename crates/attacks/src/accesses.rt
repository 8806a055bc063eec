//! What a request does in each way of harm, and the requests that do so.

ghost use Rattle.std.specs.Prelude.{◌≡◌, Some};
ghost use Rattle.attacks.specs.Tries.{direct, on_frame, on_mapped, on_registers, on_unmapped, spoofed, translated};

use crate::attack::{Access, Attack, Harm, Way};
use fab_types::{Bdf, Control, PortId};
use platform::{MapTarget, Mapping};

/// What a request for a frame does in this way, and the harm.
pub(crate) fn on_frame(way: Way, frame: u16) -> Option<(Access, Harm)>
    ensures { result ≡ on_frame way frame }
{
    match way {
        Way::FrameWritten => Some((Access::Write, Harm::FrameWritten(frame))),
        Way::FrameRead => Some((Access::Read, Harm::FrameRead(frame))),
        Way::AnswersReads => Some((Access::Read, Harm::AnswersFrame(frame))),
        _ => None,
    }
}

/// What a request for a function's register page does in this way, and the harm.
pub(crate) fn on_registers(way: Way, function: Bdf) -> Option<(Access, Harm)>
    ensures { result ≡ on_registers way function }
{
    match way {
        Way::RegistersWritten => Some((Access::Write, Harm::RegistersWritten(function))),
        Way::RegistersRead => Some((Access::Read, Harm::RegistersRead(function))),
        Way::AnswersReads => Some((Access::Read, Harm::AnswersRegisters(function))),
        _ => None,
    }
}

/// What a request does by this mapping, and the harm.
pub(crate) fn on_mapped(way: Way, line: &Mapping) -> Option<(Access, Harm)>
    ensures { result ≡ on_mapped way line.now.target line.now.rights }
{
    match (way, line.target) {
        (Way::FrameWritten, MapTarget::Frame(frame)) if line.rights.write => {
            Some((Access::Write, Harm::FrameWritten(frame)))
        }
        (Way::RegistersWritten, MapTarget::Peer(peer)) if line.rights.write => {
            Some((Access::Write, Harm::RegistersWritten(peer)))
        }
        (Way::Completion, _) if line.rights.read => Some((Access::Read, Harm::Completion)),
        _ => None,
    }
}

/// What a request for a page that isn't mapped does in this way, and the harm.
pub(crate) fn on_unmapped(way: Way) -> Option<(Access, Harm)>
    ensures { result ≡ on_unmapped way }
{
    match way {
        Way::Completion => Some((Access::Read, Harm::Completion)),
        Way::Counts => Some((Access::Write, Harm::Counts)),
        _ => None,
    }
}

/// The function's own request, with an address that it says is translated. The port would block that.
pub(crate) fn translated(port: PortId, function: Bdf, page: u64, does: (Access, Harm)) -> Attack
    ensures { result ≡ translated port function page does }
{
    let (access, harm) = does;
    Attack {
        function,
        harm,
        port,
        control: Control::TranslationBlocking,
        access,
        is_translated: true,
        requester: function,
        page,
    }
}

/// The function's own request for a page, to which it goes past the host. The port would redirect it.
pub(crate) fn direct(port: PortId, function: Bdf, page: u64, does: (Access, Harm)) -> Attack
    ensures { result ≡ direct port function page does }
{
    let (access, harm) = does;
    Attack {
        function,
        harm,
        port,
        control: Control::RequestRedirect,
        access,
        is_translated: false,
        requester: function,
        page,
    }
}

/// A request with an ID that isn't the function's. The port would validate that.
pub(crate) fn spoofed(
    port: PortId,
    function: Bdf,
    requester: Bdf,
    page: u64,
    does: (Access, Harm),
) -> Attack
    ensures { result ≡ spoofed port function requester page does }
{
    let (access, harm) = does;
    Attack {
        function,
        harm,
        port,
        control: Control::SourceValidation,
        access,
        is_translated: false,
        requester,
        page,
    }
}
