//! A request of a domain's own host.

ghost use Rattle.std.specs.Prelude.{◌≡◌, IfErr, IfOk, None, OnErr, Some, true};
ghost use Rattle.std.specs.Result.{IsOkUnless};
ghost use Rattle.fab_types.specs.declared.faults.begin.MmioFault.{MmioFault};
ghost use Rattle.platform.specs.Owners.{bar_of};
ghost use Rattle.domain_state.specs.HostAccesses.{is_in_page, mmio_fault, size_of, tag_for};

use crate::domain::Domain;
use crate::entry::Entry;
use domain_state::{host_request, is_in_page, opened_for, register_address, size_of, tag_for};
use fab_types::{HostAccess, MmioFault, Parties};
use frame_log::Frame;

impl Domain {
    ghost use Rattle.domain.specs.declared.entry.Entry.TheVariants.{Mmio};
    ghost use Rattle.domain.specs.Domains.{Makes};

    /// The Tag and the BAR of an access that is accepted, or the first refusal that applies, memory
    /// aside.
    fn admit(&self, access: &HostAccess) -> Result<(u8, u32), MmioFault>
        ensures refused { IfErr result (λ fault. mmio_fault self.now.share self.now.state access.now ≡ Some fault) }
        ensures accepted { IfOk result (λ _. mmio_fault self.now.share self.now.state access.now ≡ None) }
        ensures tag { IfOk result (λ found. tag_for self.now.state.open_tags self.now.share.domain (access.now).operation ≡ Some found.0) }
        ensures bar { IfOk result (λ found. bar_of self.now.share.functions (access.now).function ≡ Some found.1) }
        ensures within { IfOk result (λ _. is_in_page (access.now).offset (size_of (access.now).operation) ≡ true) }
    {
        if !self.start.owns_function(access.function) {
            return Err(MmioFault::NotYours);
        }
        if !is_in_page(access.offset, size_of(&access.operation)) {
            return Err(MmioFault::Range);
        }
        let Some(tag) = tag_for(
            self.state.open_tags(),
            self.start.domain(),
            &access.operation,
        ) else {
            return Err(MmioFault::NoTag);
        };
        if self.state.counts().begins >= self.start.budget() {
            return Err(MmioFault::BudgetSpent);
        }
        let Some(bar) = self.start.bar_of(access.function) else {
            unreachable!();
        };
        Ok((tag, bar))
    }

    /// The domain's host reads or writes the register page of a function.
    /// The request bears the host's ID, all its bytes are enabled, and it goes to the function's BAR plus the
    /// offset. A read takes the lowest free of the Tags 0 to 31, a write has Tag 0. It is refused with the
    /// first fault that applies; then nothing changes:
    ///
    /// - `NotYours`: the domain has no such function.
    /// - `Range`: the offset is no multiple of 4, the size isn't 1 to 64 whole DW, or it passes the page's end.
    /// - `NoTag`: a read, and all 32 are open.
    /// - `BudgetSpent`; or `NoMemory` where memory was refused.
    pub fn mmio(&mut self, access: &HostAccess) -> Result<Frame, MmioFault>
        ensures ok { IfOk result (λ frame. Makes self.old (Mmio access.now) self.new (Some frame)) }

        // Which refusal it is: the first that applies. Without one only memory may be refused.
        ensures refused { (fault : MmioFault) → mmio_fault self.old.share self.old.state access.now ≡ Some fault → result ≡ Err fault }
        ensures accepted { mmio_fault self.old.share self.old.state access.now ≡ None → IsOkUnless result MmioFault.NoMemory }
        ensures err { OnErr result (self.new ≡ self.old) }
    {
        let (tag, bar) = self.admit(access)?;
        let alloc = *self.journal.allocator();
        let Ok(copy) = access.try_clone(alloc) else {
            return Err(MmioFault::NoMemory);
        };
        let domain = self.start.domain();
        let address = register_address(bar, access.offset);
        let packet = host_request(domain, tag, address, &access.operation);
        let parties = Parties::Downward(access.function);
        let opened = opened_for(domain, tag, &access.operation);
        let Ok(frame) = self.state.request(domain, parties, &packet, opened) else {
            return Err(MmioFault::NoMemory);
        };
        self.journal.push_reserved(Entry::Mmio(copy));
        Ok(frame)
    }
}
