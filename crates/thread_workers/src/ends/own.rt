//! A packet for which its home has a case.

ghost use Rattle.std.specs.Prelude.{◌≡◌, ◌⊎◌, IfErr, OnErr, OnOk};
ghost use Rattle.domain.specs.declared.entry.Entry.TheVariants.{Carry};
ghost use Rattle.thread_domains.specs.Locks.{WantedThere};
ghost use Rattle.thread_workers.specs.Boxes.{IsCramped, with_places};
ghost use Rattle.thread_workers.specs.TakenBy.{frame_not_taken};
ghost use Rattle.thread_workers.specs.Ends.{Carries, EndsOwn, HasNoCase, HasToWait};
ghost use Rattle.thread_workers.specs.declared.ends.taken_by.NotTaken.TheVariants as not_taken;

use crate::ends::delivering::deliver;
use crate::ends::room::{make_room, put_answer};
use crate::ends::taken_by::NotTaken;
use frame_log::{Frame, FrameFault};
use injector::RecordRing;
use outboxes::OriginBox;
use received::Received;
use std::sync::Wait;
use thread_domains::Locks;

/// Its home carries a request, under its lock.
fn carry<R: Wait>(
    rt: &R,
    locks: &Locks,
    outbox: &mut OriginBox,
    frame: Frame,
) -> Result<(), NotTaken>
    ensures ended { OnOk result (Carries frame outbox.old outbox.new) }
    ensures given { IfErr result (λ u. frame_not_taken u ≡ frame) }
    ensures stray { IfErr result (λ u. u ≡ not_taken.Stray frame → HasNoCase locks.now Received.Request frame) }
    ensures waits { IfErr result (λ u. u ≡ not_taken.Waits frame → WantedThere frame.domain (Carry frame.number) ⊎ IsCramped outbox.old) }
    ensures err { OnErr result (outbox.new ≡ with_places outbox.new.places outbox.old) }
{
    if !make_room(outbox) {
        return Err(NotTaken::Waits(frame));
    }
    match locks.carry(rt, frame) {
        Ok(answer) => {
            put_answer(outbox, answer);
            Ok(())
        }
        Err(FrameFault::Stray(frame)) => Err(NotTaken::Stray(frame)),
        Err(FrameFault::NoMemory(frame)) => Err(NotTaken::Waits(frame)),
    }
}

/// A packet was taken, with which its home has to do what `received` says. What follows from a request waits in the outbox,
/// which gets places for it first. The record of a completion goes into the ring, or is held where the ring is full. It may
/// have to wait for another thread; what is said holds if it returns.
///
/// # Errors
///
/// `Stray`: it is `Relayed` or `Unknown`, or its home has no case for it. `Waits`: memory was refused to what follows, or to places
/// for it; or it is a completion, and a record is held (`RecordRing::holds_record`). After either the frame is given back,
/// its home has no entry of it, the ring is as it was, and the outbox may have more places.
pub(crate) fn end_own<R: Wait>(
    rt: &R,
    locks: &Locks,
    received: Received,
    outbox: &mut OriginBox,
    records: &mut RecordRing,
    frame: Frame,
) -> Result<(), NotTaken>
    ensures ended { OnOk result (EndsOwn received frame outbox.old outbox.new records.old records.new) }
    ensures given { IfErr result (λ u. frame_not_taken u ≡ frame) }
    ensures stray { IfErr result (λ u. u ≡ not_taken.Stray frame → HasNoCase locks.now received frame) }
    ensures waits { IfErr result (λ u. u ≡ not_taken.Waits frame → HasToWait received frame outbox.old records.old) }
    ensures err { OnErr result ((outbox.new ≡ with_places outbox.new.places outbox.old) × (records.new ≡ records.old)) }
{
    match received {
        Received::Request => carry(rt, locks, outbox, frame),
        Received::Completion => deliver(rt, locks, records, frame),
        Received::Relayed | Received::Unknown => Err(NotTaken::Stray(frame)),
    }
}
