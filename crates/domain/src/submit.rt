//! Submitting a packet.

ghost use Rattle.std.specs.Prelude.{◌≡◌, ◌&&◌, Some, None, IfOk, OnErr};
ghost use Rattle.std.specs.Result.{IsOkUnless};
ghost use Rattle.fab_types.specs.declared.origin.Origin.TheVariants.{Function};
ghost use Rattle.tlp_view.specs.Bytes.{packet_of};
ghost use Rattle.fab_types.specs.declared.faults.begin.SubmitFault.{SubmitFault};
ghost use Rattle.domain_state.specs.Tags.{is_open, opens_tag};
ghost use Rattle.domain.specs.Submits.{submit_fault};

use crate::domain::Domain;
use crate::entry::Entry;
use domain_state::{completes, tag_to_open};
use fab_types::{Bdf, Origin, PacketBytes, SubmitFault};
use frame_log::Frame;
use tlp_view::ReadPacket;

impl Domain {
    ghost use Rattle.domain.specs.declared.entry.Entry.TheVariants.{Submit};
    ghost use Rattle.domain.specs.Domains.{Makes};

    /// Does the function have the Tag open that the packet would open?
    fn is_tag_busy(&self, function: Bdf, packet: &ReadPacket<'_>) -> bool
        ensures { result ≡ opens_tag packet.now && is_open self.now.state.open_tags (Function function) (packet_of packet.now).tag }
    {
        match tag_to_open(packet) {
            Some(tag) => self
                .state
                .open_tags()
                .is_open(Origin::Function(function), tag),
            None => false,
        }
    }

    /// The first refusal that applies to this packet of the function, memory aside.
    fn submit_fault(&self, function: Bdf, packet: &ReadPacket<'_>) -> Option<SubmitFault>
        ensures { result ≡ submit_fault self.now.share self.now.state function packet.now }
    {
        if !self.start.owns_function(function) {
            Some(SubmitFault::NoFunction)
        } else if packet.bytes().len() > 272 {
            Some(SubmitFault::TooLong)
        } else if completes(packet) {
            Some(SubmitFault::Completion)
        } else if self.is_tag_busy(function, packet) {
            Some(SubmitFault::TagBusy)
        } else if self.state.counts().begins >= self.start.budget() {
            Some(SubmitFault::BudgetSpent)
        } else {
            None
        }
    }

    /// The packet emits its frame and enters the journal. No refusal applies to it.
    fn accept(
        &mut self,
        function: Bdf,
        packet: &ReadPacket<'_>,
        bytes: PacketBytes,
    ) -> Result<Frame, SubmitFault>
        requires same { bytes ≡ packet.now }
        requires accepted { submit_fault self.old.share self.old.state function packet.now ≡ None }
        ensures ok { IfOk result (λ frame. Makes self.old (Submit function packet.now) self.new (Some frame)) }
        ensures fault { IsOkUnless result SubmitFault.NoMemory }
        ensures err { OnErr result (self.new ≡ self.old) }
    {
        let alloc = *self.journal.allocator();
        let Ok(logged) = bytes.try_clone(alloc) else {
            return Err(SubmitFault::NoMemory);
        };
        let domain = self.start.domain();
        let Ok(frame) = self.state.submit(domain, function, packet, logged) else {
            return Err(SubmitFault::NoMemory);
        };
        self.journal.push_reserved(Entry::Submit(function, bytes));
        Ok(frame)
    }

    /// A function of this domain submits a packet of at most 272 bytes.
    /// The packet may be malformed. A well-formed non-posted request opens its Tag. It is refused with the
    /// first fault that applies: `NoFunction`, `TooLong`, `Completion`, `TagBusy`, `BudgetSpent`; or `NoMemory`
    /// where memory was refused. Then nothing changes.
    pub fn submit(&mut self, function: Bdf, bytes: &[u8]) -> Result<Frame, SubmitFault>
        ensures ok { IfOk result (λ frame. Makes self.old (Submit function bytes.now) self.new (Some frame)) }

        // Which refusal it is: the first that applies. Without one only memory may be refused.
        ensures refused { (fault : SubmitFault) → submit_fault self.old.share self.old.state function bytes.now ≡ Some fault → result ≡ Err fault }
        ensures accepted { submit_fault self.old.share self.old.state function bytes.now ≡ None → IsOkUnless result SubmitFault.NoMemory }
        ensures err { OnErr result (self.new ≡ self.old) }
    {
        let packet = ReadPacket::new(bytes);
        if let Some(fault) = self.submit_fault(function, &packet) {
            return Err(fault);
        }
        let alloc = *self.journal.allocator();
        let Ok(copy) = PacketBytes::shared_copy(alloc, bytes) else {
            return Err(SubmitFault::NoMemory);
        };
        self.accept(function, &packet, copy)
    }

    /// A function of this domain submits a packet of bytes that the journal and the log share, where they are made for that.
    /// It does what `submit` does, and is refused as that is: with the first fault that applies of `NoFunction`, `TooLong`,
    /// `Completion`, `TagBusy` and `BudgetSpent`, or with `NoMemory` where memory was refused. Then nothing changes.
    pub fn submit_bytes(&mut self, function: Bdf, bytes: &PacketBytes) -> Result<Frame, SubmitFault>
        ensures ok { IfOk result (λ frame. Makes self.old (Submit function bytes.now) self.new (Some frame)) }

        // Which refusal it is: the first that applies. Without one only memory may be refused.
        ensures refused { (fault : SubmitFault) → submit_fault self.old.share self.old.state function bytes.now ≡ Some fault → result ≡ Err fault }
        ensures accepted { submit_fault self.old.share self.old.state function bytes.now ≡ None → IsOkUnless result SubmitFault.NoMemory }
        ensures err { OnErr result (self.new ≡ self.old) }
    {
        let packet = ReadPacket::new(bytes.as_slice());
        if let Some(fault) = self.submit_fault(function, &packet) {
            return Err(fault);
        }
        let alloc = *self.journal.allocator();
        let Ok(clone) = bytes.try_clone(alloc) else {
            return Err(SubmitFault::NoMemory);
        };
        self.accept(function, &packet, clone)
    }
}
