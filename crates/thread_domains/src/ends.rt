//! The end of a packet, in its home and under the home's lock.

ghost use Rattle.std.specs.Prelude.{◌≡◌, Err, IfErr, IfOk, IfSome, IsSome, None, OnErr, OnOk};
ghost use Rattle.frame_log.specs.Descriptor.{IsCompletion};
ghost use Rattle.frame_log.specs.Faults.{fault_frame};
ghost use Rattle.frame_log.specs.declared.fault.FrameFault.TheVariants as fault;
ghost use Rattle.domain.specs.declared.entry.Entry.TheVariants.{Carry, Deliver, Refuse};
ghost use Rattle.domain.specs.Domains.{Makes};
ghost use Rattle.thread_domains.specs.Locks.{CompletedThere, IllegalThere, MadeThere, WantedThere, place_of};

use crate::locks::Locks;
use domain::Domain;
use fab_types::PortId;
use frame_log::{Frame, FrameFault};
use std::sync::Wait;

/// Has a domain that is lent refuse a packet: this one step, and no other.
fn refuse_there(
    domain: &mut Domain,
    frame: Frame,
    port: PortId,
) -> Result<Option<Frame>, FrameFault>
    ensures made { IfOk result (λ answer. MadeThere frame.domain (Refuse frame.number) answer) }
    ensures step { IfOk result (λ answer. Makes domain.old (Refuse frame.number) domain.new answer) }
    ensures reply { IfOk result (λ answer. IfSome answer IsCompletion) }
    ensures given { IfErr result (λ f. fault_frame f ≡ frame) }
    ensures stray { IfErr result (λ f. f ≡ fault.Stray frame → IllegalThere frame.domain (Refuse frame.number)) }
    ensures memory { IfErr result (λ f. f ≡ fault.NoMemory frame → WantedThere frame.domain (Refuse frame.number)) }
    ensures err { OnErr result (domain.new ≡ domain.old) }
{
    // for the proof: the state is the replay of the journal
    let _ = domain.journal();
    domain.refuse(frame, port)
}

/// Has a domain that is lent carry a packet: this one step, and no other.
fn carry_there(domain: &mut Domain, frame: Frame) -> Result<Option<Frame>, FrameFault>
    ensures made { IfOk result (λ answer. MadeThere frame.domain (Carry frame.number) answer) }
    ensures step { IfOk result (λ answer. Makes domain.old (Carry frame.number) domain.new answer) }
    ensures given { IfErr result (λ f. fault_frame f ≡ frame) }
    ensures stray { IfErr result (λ f. f ≡ fault.Stray frame → IllegalThere frame.domain (Carry frame.number)) }
    ensures memory { IfErr result (λ f. f ≡ fault.NoMemory frame → WantedThere frame.domain (Carry frame.number)) }
    ensures err { OnErr result (domain.new ≡ domain.old) }
{
    // for the proof: the state is the replay of the journal
    let _ = domain.journal();
    domain.carry(frame)
}

/// Has a domain that is lent take a completion as delivered: this one step, and no other.
fn complete_there(domain: &mut Domain, frame: Frame) -> Result<bool, FrameFault>
    ensures made { IfOk result (λ is_recorded. CompletedThere frame is_recorded) }
    ensures step { OnOk result (Makes domain.old (Deliver frame.number) domain.new None) }
    ensures given { IfErr result (λ f. f ≡ fault.Stray frame) }
    ensures stray { OnErr result (IllegalThere frame.domain (Deliver frame.number)) }
    ensures err { OnErr result (domain.new ≡ domain.old) }
{
    // for the proof: the state is the replay of the journal
    let _ = domain.journal();
    domain.complete(frame)
}

impl Locks {
    /// A packet is stopped by its sender's first port.
    /// Its home refuses it, as `Domain::refuse`, and what answers it is the result. It may have to wait for
    /// another thread; what is said holds if it returns.
    ///
    /// # Errors
    ///
    /// `Stray`: there is no lock of its home's number, or its home has no such packet in flight, or doesn't
    /// stop it there. `NoMemory`: memory was refused to the answer. After either the frame is given back, and
    /// the home has no entry of it.
    pub fn refuse<R: Wait>(
        &self,
        rt: &R,
        frame: Frame,
        port: PortId,
    ) -> Result<Option<Frame>, FrameFault>
        ensures made { IfOk result (λ answer. MadeThere frame.domain (Refuse frame.number) answer) }
        ensures reply { IfOk result (λ answer. IfSome answer IsCompletion) }
        ensures given { IfErr result (λ f. fault_frame f ≡ frame) }
        ensures stray { IfErr result (λ f. f ≡ fault.Stray frame → IsSome (place_of self.now frame.domain) → IllegalThere frame.domain (Refuse frame.number)) }
        ensures no_lock { place_of self.now frame.domain ≡ None → result ≡ Err (fault.Stray frame) }
        ensures memory { IfErr result (λ f. f ≡ fault.NoMemory frame → WantedThere frame.domain (Refuse frame.number)) }
    {
        let Some(lock) = self.lock_of(frame.domain()) else {
            return Err(FrameFault::Stray(frame));
        };
        let mut domain = lock.lock(rt);
        refuse_there(&mut domain, frame, port)
    }

    /// A request reached its completer.
    /// Its home carries it, as `Domain::carry`, and what follows is the result. It may have to wait for another
    /// thread; what is said holds if it returns.
    ///
    /// # Errors
    ///
    /// `Stray`: there is no lock of its home's number, or its home has no such packet in flight, or doesn't
    /// carry it. `NoMemory`: memory was refused to what follows. After either the frame is given back, and the
    /// home has no entry of it.
    pub fn carry<R: Wait>(&self, rt: &R, frame: Frame) -> Result<Option<Frame>, FrameFault>
        ensures made { IfOk result (λ answer. MadeThere frame.domain (Carry frame.number) answer) }
        ensures given { IfErr result (λ f. fault_frame f ≡ frame) }
        ensures stray { IfErr result (λ f. f ≡ fault.Stray frame → IsSome (place_of self.now frame.domain) → IllegalThere frame.domain (Carry frame.number)) }
        ensures no_lock { place_of self.now frame.domain ≡ None → result ≡ Err (fault.Stray frame) }
        ensures memory { IfErr result (λ f. f ≡ fault.NoMemory frame → WantedThere frame.domain (Carry frame.number)) }
    {
        let Some(lock) = self.lock_of(frame.domain()) else {
            return Err(FrameFault::Stray(frame));
        };
        let mut domain = lock.lock(rt);
        carry_there(&mut domain, frame)
    }

    /// A completion reached whom it answers: its home has it delivered, as `Domain::complete`. Did it close a Tag, so
    /// that a record was made? It takes no memory. It may have to wait for another thread; what is said holds if it
    /// returns.
    ///
    /// # Errors
    ///
    /// `Stray` alone: there is no lock of its home's number, or its home has no such packet in flight, or it is no
    /// completion for anybody. Then the frame is given back, and the home has no entry of it.
    pub fn complete<R: Wait>(&self, rt: &R, frame: Frame) -> Result<bool, FrameFault>
        ensures made { IfOk result (λ is_recorded. CompletedThere frame is_recorded) }
        ensures given { IfErr result (λ f. f ≡ fault.Stray frame) }
        ensures stray { OnErr result (IsSome (place_of self.now frame.domain) → IllegalThere frame.domain (Deliver frame.number)) }
        ensures no_lock { place_of self.now frame.domain ≡ None → result ≡ Err (fault.Stray frame) }
    {
        let Some(lock) = self.lock_of(frame.domain()) else {
            return Err(FrameFault::Stray(frame));
        };
        let mut domain = lock.lock(rt);
        complete_there(&mut domain, frame)
    }
}
