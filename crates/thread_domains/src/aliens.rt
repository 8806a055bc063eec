//! A packet that is taken where its home has no case, under the lock of the domain that gets the entry.

ghost use Rattle.std.specs.Prelude.{◌≡◌, Err, IfErr, IfOk, IsSome, None, OnErr};
ghost use Rattle.frame_log.specs.Faults.{fault_frame};
ghost use Rattle.frame_log.specs.declared.fault.FrameFault.TheVariants as fault;
ghost use Rattle.domain.specs.declared.entry.Entry.TheVariants.{Alien};
ghost use Rattle.domain.specs.Domains.{Makes};
ghost use Rattle.thread_domains.specs.Locks.{IllegalThere, LegalThere, MadeThere, place_of};

use crate::locks::Locks;
use domain::Domain;
use fab_types::{DomainId, Place};
use frame_log::{Frame, FrameFault};
use std::sync::Wait;

/// Has a domain that is lent take an alien packet, if it is the domain of this number and may have the entry: this one
/// step, and no other.
fn alien_there(
    domain: &mut Domain,
    number: DomainId,
    place: Place,
    frame: Frame,
    bytes: &[u8],
) -> Result<Option<Frame>, FrameFault>
    ensures made { IfOk result (λ answer. MadeThere number (Alien place frame.head.parties bytes.now) answer) }
    ensures step { IfOk result (λ answer. Makes domain.old (Alien place frame.head.parties bytes.now) domain.new answer) }
    ensures given { IfErr result (λ f. fault_frame f ≡ frame) }
    ensures stray { IfErr result (λ f. f ≡ fault.Stray frame → IllegalThere number (Alien place frame.head.parties bytes.now)) }
    ensures memory { IfErr result (λ f. f ≡ fault.NoMemory frame → LegalThere number (Alien place frame.head.parties bytes.now)) }
    ensures err { OnErr result (domain.new ≡ domain.old) }
{
    // for the proof: the state is the replay of the journal
    let _ = domain.journal();
    if domain.start().domain() != number {
        return Err(FrameFault::Stray(frame));
    }
    let there = place;
    if !domain.has_alien(there, bytes) {
        return Err(FrameFault::Stray(frame));
    }
    domain.alien(place, frame, bytes)
}

impl Locks {
    /// A packet was taken at this place, where its home has no case.
    /// That happens only in layouts that aren't guarded. The domain of this number gets the entry, as
    /// `Domain::alien`, with these bytes, which are those that `bytes_of` copies. What follows is the result.
    /// The packet's number stays in flight at its home for ever. It may have to wait for another thread; what
    /// is said holds if it returns.
    ///
    /// # Errors
    ///
    /// `Stray`: there is no lock of that number, or that domain may have no such entry. `NoMemory`: memory was
    /// refused. After either the frame is given back, and the domain has no entry of it.
    pub fn alien<R: Wait>(
        &self,
        rt: &R,
        number: DomainId,
        place: Place,
        frame: Frame,
        bytes: &[u8],
    ) -> Result<Option<Frame>, FrameFault>
        ensures made { IfOk result (λ answer. MadeThere number (Alien place frame.head.parties bytes.now) answer) }
        ensures given { IfErr result (λ f. fault_frame f ≡ frame) }
        ensures stray { IfErr result (λ f. f ≡ fault.Stray frame → IsSome (place_of self.now number) → IllegalThere number (Alien place frame.head.parties bytes.now)) }
        ensures no_lock { place_of self.now number ≡ None → result ≡ Err (fault.Stray frame) }
        ensures memory { IfErr result (λ f. f ≡ fault.NoMemory frame → LegalThere number (Alien place frame.head.parties bytes.now)) }
    {
        let Some(lock) = self.lock_of(number) else {
            return Err(FrameFault::Stray(frame));
        };
        let mut domain = lock.lock(rt);
        alien_there(&mut domain, number, place, frame, bytes)
    }
}
