//! A domain from its journal.

ghost use Rattle.std.specs.Prelude.{◌≡◌, ℕ, Some, Err, None, IfOk, IfErr, OnErr, OnOk};
ghost use Rattle.std.specs.Result.{IsOkUnless};
ghost use Rattle.fab_types.specs.declared.faults.replay.ReplayFault.TheVariants.{Illegal};
ghost use Rattle.domain.specs.declared.consume.EntryFault.TheVariants as end;
ghost use Rattle.domain.specs.Machine.{change, replay};
ghost use Rattle.domain_state.specs.State.{Alone};

use crate::consume::EntryFault;
use crate::domain::Domain;
use crate::entry::Entry;
use fab_types::{MmioFault, ReplayFault, SubmitFault, TickFault};
use frame_log::Log;
use layout::Start;
use std::alloc::Global;
use std::sync::Arc;

impl Domain {
    ghost use Rattle.domain.specs.Replays.{Follows, IsFirstIllegal};

    /// Does what an entry says, and adds it to the journal.
    /// That is one step of a replay.
    ///
    /// # Errors
    ///
    /// `Illegal` where the machine has no such entry in this state, and `NoMemory` where memory was refused.
    /// Then nothing changes.
    pub fn apply(&mut self, entry: &Entry) -> Result<(), EntryFault>
        ensures ok { OnOk result (Follows self.old entry.now self.new) }
        ensures err { OnErr result (self.new ≡ self.old) }
        ensures illegal { IfErr result (λ fault. fault ≡ end.Illegal → change self.old.share self.old.state entry.now ≡ None) }
    {
        match entry {
            Entry::Submit(function, bytes) => match self.submit_bytes(*function, bytes) {
                Ok(_) => Ok(()),
                Err(SubmitFault::NoMemory) => Err(EntryFault::NoMemory),
                Err(_) => Err(EntryFault::Illegal),
            },
            Entry::Tick(function) => match self.tick(*function) {
                Ok(_) => Ok(()),
                Err(TickFault::NoMemory) => Err(EntryFault::NoMemory),
                Err(_) => Err(EntryFault::Illegal),
            },
            Entry::Mmio(access) => match self.mmio(access) {
                Ok(_) => Ok(()),
                Err(MmioFault::NoMemory) => Err(EntryFault::NoMemory),
                Err(_) => Err(EntryFault::Illegal),
            },
            Entry::Refuse(number) => match self.end_refused(*number) {
                Ok(_) => Ok(()),
                Err(fault) => Err(fault),
            },
            Entry::Carry(number) => match self.end_carried(*number) {
                Ok(_) => Ok(()),
                Err(fault) => Err(fault),
            },
            Entry::Deliver(number) => match self.end_delivered(*number) {
                Ok(_) => Ok(()),
                Err(fault) => Err(fault),
            },
            Entry::Alien(place, sender, bytes) => {
                match self.end_alien(*place, *sender, bytes.as_slice()) {
                    Ok(_) => Ok(()),
                    Err(fault) => Err(fault),
                }
            }
        }
    }

    /// The domain that a journal leaves, from its start, with a log of its own. It answers
    /// `Illegal(index)` with the first entry that is illegal after those before it, or `NoMemory`
    /// where memory was refused.
    pub fn replay(alloc: Global, start: &Start, entries: &[Entry]) -> Result<Domain, ReplayFault>
        ensures state { IfOk result (λ domain. replay start.now entries.now ≡ Some domain.state) }
        ensures journal { IfOk result (λ domain. (domain.journal ≡ entries.now) × (domain.share ≡ start.now)) }

        // A journal is refused only at its first illegal entry; a legal one only where memory was refused.
        ensures illegal { (i : ℕ) → result ≡ Err (Illegal i) → IsFirstIllegal start.now entries.now i }
        ensures legal { (s : Alone) → replay start.now entries.now ≡ Some s → IsOkUnless result ReplayFault.NoMemory }
    {
        let Ok(log) = Log::new(alloc) else {
            return Err(ReplayFault::NoMemory);
        };
        let Ok(log) = Arc::new(alloc, log) else {
            return Err(ReplayFault::NoMemory);
        };
        let Ok(mut domain) = Domain::new(alloc, start, log) else {
            return Err(ReplayFault::NoMemory);
        };
        for (i, entry) in entries.iter().enumerate() {
            match domain.apply(entry) {
                Ok(()) => {}
                Err(EntryFault::Illegal) => return Err(ReplayFault::Illegal(i)),
                Err(EntryFault::NoMemory) => return Err(ReplayFault::NoMemory),
            }
        }
        Ok(domain)
    }
}
