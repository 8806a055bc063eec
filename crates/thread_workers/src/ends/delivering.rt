//! A completion that reached whom it answers, and its record.

ghost use Rattle.std.specs.Prelude.{◌≡◌, IfErr, IsSome, None, OnErr, OnOk};
ghost use Rattle.frame_log.specs.declared.fault.FrameFault.TheVariants as fault;
ghost use Rattle.domain.specs.declared.entry.Entry.TheVariants.{Deliver};
ghost use Rattle.domain.specs.Domains.{Makes};
ghost use Rattle.thread_domains.specs.Locks.{IllegalThere};
ghost use Rattle.thread_workers.specs.TakenBy.{frame_not_taken};
ghost use Rattle.thread_workers.specs.Ends.{HasNoCase, SettledThere};
ghost use Rattle.received.specs.declared.received.Received.{Received};
ghost use Rattle.thread_workers.specs.declared.ends.taken_by.NotTaken.TheVariants as not_taken;

use crate::ends::taken_by::NotTaken;
use domain::Domain;
use frame_log::{Frame, FrameFault};
use injector::{RecordRing, settle};
use std::sync::Wait;
use thread_domains::Locks;

/// Has a domain that is lent take a completion as delivered: this one step, and no other.
fn settle_there(
    domain: &mut Domain,
    frame: Frame,
    records: &mut RecordRing,
) -> Result<(), FrameFault>
    requires { records.old.held ≡ None }
    ensures settled { OnOk result (SettledThere frame records.old records.new) }
    ensures step { OnOk result (Makes domain.old (Deliver frame.number) domain.new None) }
    ensures given { IfErr result (λ f. f ≡ fault.Stray frame) }
    ensures stray { OnErr result (IllegalThere frame.domain (Deliver frame.number)) }
    ensures err { OnErr result ((domain.new ≡ domain.old) × (records.new ≡ records.old)) }
{
    // for the proof: the state is the replay of the journal
    let _ = domain.journal();
    settle(domain, frame, records)
}

/// Its home has a completion delivered, under its lock, if no record is held.
pub(crate) fn deliver<R: Wait>(
    rt: &R,
    locks: &Locks,
    records: &mut RecordRing,
    frame: Frame,
) -> Result<(), NotTaken>
    ensures settled { OnOk result (SettledThere frame records.old records.new) }
    ensures given { IfErr result (λ u. frame_not_taken u ≡ frame) }
    ensures stray { IfErr result (λ u. u ≡ not_taken.Stray frame → HasNoCase locks.now Received.Completion frame) }
    ensures waits { IfErr result (λ u. u ≡ not_taken.Waits frame → IsSome records.old.held) }
    ensures err { OnErr result (records.new ≡ records.old) }
{
    if records.holds_record() {
        return Err(NotTaken::Waits(frame));
    }
    let Some(lock) = locks.lock_of(frame.domain()) else {
        return Err(NotTaken::Stray(frame));
    };
    let mut domain = lock.lock(rt);
    match settle_there(&mut domain, frame, records) {
        Ok(()) => Ok(()),
        Err(fault) => Err(NotTaken::Stray(fault.into_frame())),
    }
}
