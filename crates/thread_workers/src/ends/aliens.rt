//! A packet for which its home has no case, in a layout that isn't guarded: another domain may have one.

ghost use Rattle.std.specs.Prelude.{◌≡◌, ◌≢◌, ◌≤◌, ◌⊎◌, vec_capacity, vec_len, ◌++◌, ◌∷◌, [], IfErr, IsSome, OnErr, OnOk, Some};
ghost use Rattle.frame_log.specs.Faults.{fault_frame};
ghost use Rattle.frame_log.specs.declared.fault.FrameFault.TheVariants as fault;
ghost use Rattle.lane.specs.Queues.{frames_of, frames_restored};
ghost use Rattle.thread_workers.specs.Boxes.{with_places};
ghost use Rattle.thread_workers.specs.Ends.{AlienWantsMemory, HasNoAlien, TakesAlien};

use crate::ends::room::{make_room, put_answer};
use crate::ends::strays::keep_stray;
use crate::ends::taken_by::TakenBy;
use fab_types::{DomainId, Place};
use frame_log::{Frame, FrameFault};
use link::Ingress;
use outboxes::OriginBox;
use std::sync::Wait;
use thread_domains::Locks;

/// The domain of this number gets the entry of a packet, under its lock. Never two locks are held at once.
fn take<R: Wait>(
    rt: &R,
    locks: &Locks,
    number: DomainId,
    place: Place,
    outbox: &mut OriginBox,
    frame: Frame,
) -> Result<(), FrameFault>
    ensures taken { OnOk result (TakesAlien number place frame outbox.old outbox.new) }
    ensures given { IfErr result (λ f. fault_frame f ≡ frame) }
    ensures stray { IfErr result (λ f. f ≡ fault.Stray frame → HasNoAlien locks.now number place frame) }
    ensures memory { IfErr result (λ f. f ≡ fault.NoMemory frame → AlienWantsMemory number place frame outbox.old) }
    ensures err { OnErr result (outbox.new ≡ with_places outbox.new.places outbox.old) }
{
    if !make_room(outbox) {
        return Err(FrameFault::NoMemory(frame));
    }
    let Some(bytes) = locks.bytes_of(rt, &frame) else {
        return Err(FrameFault::Stray(frame));
    };
    let answer = locks.alien(rt, number, place, frame, bytes.as_slice())?;
    put_answer(outbox, answer);
    Ok(())
}

/// A packet was just taken at this place, where its home has no case.
/// The domain of this number gets the entry, if it may have one, and what follows waits in the outbox, which
/// gets places for it first. Else the packet is kept among the strays, and where memory was refused it is given
/// back. It may have to wait for another thread; what is said holds if it returns.
pub(crate) fn end_alien<R: Wait>(
    rt: &R,
    locks: &Locks,
    number: DomainId,
    place: Place,
    outbox: &mut OriginBox,
    input: &mut Ingress,
    strays: &mut Vec<Frame>,
    frame: Frame,
) -> TakenBy
    requires { IsSome (frames_restored input.old.queue.queue frame) }
    ensures alien { result ≡ TakenBy.Alien → TakesAlien number place frame outbox.old outbox.new × (frames_of input.new.queue.queue.waiting ≡ frames_of input.old.queue.queue.waiting) × (strays.new.items ≡ strays.old.items) }
    ensures stray { result ≡ TakenBy.Stray → HasNoAlien locks.now number place frame × (outbox.new ≡ with_places outbox.new.places outbox.old) × (frames_of input.new.queue.queue.waiting ≡ frames_of input.old.queue.queue.waiting) × (strays.new.items ≡ strays.old.items ++ frame ∷ []) }
    ensures memory { result ≡ TakenBy.Waits → AlienWantsMemory number place frame outbox.old ⊎ (vec_capacity strays.old ≤ vec_len strays.old) }
    ensures waits { result ≡ TakenBy.Waits → (outbox.new ≡ with_places outbox.new.places outbox.old) × (frames_restored input.old.queue.queue frame ≡ Some (frames_of input.new.queue.queue.waiting)) × (strays.new.items ≡ strays.old.items) }
    ensures others { (result ≢ TakenBy.Own) × (result ≢ TakenBy.Idle) }
{
    match take(rt, locks, number, place, outbox, frame) {
        Ok(()) => TakenBy::Alien,
        Err(FrameFault::Stray(frame)) => keep_stray(input, strays, frame),
        Err(FrameFault::NoMemory(frame)) => {
            input.give_back(frame);
            TakenBy::Waits
        }
    }
}
