//! Packets by their names.

ghost use Rattle.std.specs.Prelude.{◌≡◌};
ghost use Rattle.thread_totals.specs.Named.{name_of};

use fab_types::DomainId;
use frame_log::Frame;

/// Which packet it is.
#[derive(Clone, Copy, Debug, PartialEq, Eq)]
pub(crate) struct PacketName {
    /// The domain that made it.
    pub domain: DomainId,
    /// Its number in that domain.
    pub number: u64,
}

pub(crate) fn name_of(frame: &Frame) -> PacketName
    ensures { result ≡ name_of frame.now }
{
    PacketName {
        domain: frame.domain(),
        number: frame.number(),
    }
}
