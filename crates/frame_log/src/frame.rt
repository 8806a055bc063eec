ghost use Rattle.std.specs.Prelude.{◌≡◌};

use fab_types::{DomainId, Head};
use std::marker::Model;
use std::mem::size_of;

/// What moves between ports in place of a packet's bytes. A contract sees its `Descriptor`. A frame is
/// neither cloned nor copied, and only `Log::emit` makes one: so no packet is in two places.
#[derive(Debug, Drop)]
pub struct Frame {
    domain: DomainId,
    number: u64,
    head: Head,
}

// Frames move through many queues: one has no more bytes than a cache line.
const _: () = prove!(size_of::<Frame>() <= 64);

impl Model for Frame {
    ghost use Rattle.frame_log.specs.Descriptor.{Descriptor};

    ghost Value = { Descriptor };

    ghost view = { λ f. record { domain = f.domain; number = f.number; head = f.head } };
}

impl Frame {
    /// The one way to a frame, for the log alone.
    pub(crate) fn of(domain: DomainId, number: u64, head: Head) -> Frame
        ensures { result ≡ record { domain = domain; number = number; head = head } }
    {
        Frame {
            domain,
            number,
            head,
        }
    }

    /// The domain that made the packet.
    pub fn domain(&self) -> DomainId
        ensures { result ≡ self.now.domain }
    {
        self.domain
    }

    /// The packet's number in that domain.
    pub fn number(&self) -> u64
        ensures { result ≡ self.now.number }
    {
        self.number
    }

    /// What ports read of the packet.
    pub fn head(&self) -> Head
        ensures { result ≡ self.now.head }
    {
        self.head
    }
}
