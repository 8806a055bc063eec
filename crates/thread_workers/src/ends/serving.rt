//! The next begin of a ring is served by a domain.

ghost use Rattle.std.specs.Prelude.{◌≡◌, ◌≢◌, List, Option, ℕ, false};
ghost use Rattle.frame_log.specs.Descriptor.{Descriptor};
ghost use Rattle.rtrb.specs.Ring.{SameConsumer};
ghost use Rattle.injector.specs.Serves.{Accepts};
ghost use Rattle.thread_workers.specs.Boxes.{HasRoom};
ghost use Rattle.thread_workers.specs.Serving.{RestsThere, ServesNext, has_served};

use crate::ends::room::{make_room, put_answer};
use domain::Domain;
use fab_types::DomainId;
use injector::{BeginRing, serve};
use outboxes::OriginBox;
use std::sync::Wait;
use thread_domains::Locks;

/// What became of the next begin of a ring.
#[derive(Clone, Copy, Debug, PartialEq, Eq)]
pub(crate) enum Begun {
    /// The domain has an entry of it.
    Accepted,
    /// The domain refused it, and it is counted.
    Refused,
    /// Memory was refused, to its call or to places in the outbox.
    /// It is held, or stands where it stood.
    Waits,
    /// There was no begin.
    Idle,
}

impl Begun {
    /// Did a begin leave the ring, and isn't held either?
    pub(crate) fn has_moved(&self) -> bool
        ensures { result ≡ has_served self.now }
    {
        match self {
            Begun::Accepted | Begun::Refused => true,
            Begun::Waits | Begun::Idle => false,
        }
    }
}

/// Has a domain that is lent serve the next begin, if it is the domain of this number: this one step, or none.
fn serve_there(
    domain: &mut Domain,
    number: DomainId,
    outbox: &mut OriginBox,
    begins: &mut BeginRing,
) -> Begun
    requires { HasRoom outbox.old }
    ensures served { (locks : List ℕ) → ServesNext locks number result outbox.old outbox.new begins.old begins.new }
    ensures step { result ≡ Begun.Accepted → (sent : Option Descriptor) × Accepts domain.old begins.old domain.new begins.new sent }
    ensures kept { result ≢ Begun.Accepted → domain.new ≡ domain.old }
    ensures rests { has_served result ≡ false → RestsThere outbox.old outbox.new begins.old begins.new }
    ensures origin { outbox.new.origin ≡ outbox.old.origin }
    ensures ring { SameConsumer begins.old.consumer begins.new.consumer }
{
    // for the proof: the state is the replay of the journal
    let _ = domain.journal();
    if domain.start().domain() != number {
        return Begun::Idle;
    }
    let accepted = begins.accepted();
    match serve(domain, begins) {
        Ok(sent) => {
            // a tick that emits nothing is accepted too
            if begins.accepted() == accepted {
                return Begun::Idle;
            }
            put_answer(outbox, sent);
            Begun::Accepted
        }
        Err(_) => {
            if begins.holds_begin() {
                Begun::Waits
            } else {
                Begun::Refused
            }
        }
    }
}

/// The domain of this number has the next begin of a ring, under its lock.
/// There may be none. What the begin emits waits behind the others in the outbox, which gets places for it
/// first. A begin that is refused is counted; one to whose call memory is refused is held, and is the next one
/// again. It may have to wait for another thread; what is said holds if it returns.
///
/// - `Waits` may also be answered where there is no begin: the outbox is asked first.
/// - `Idle` comes too where there is no lock of that number.
pub(crate) fn serve_begin<R: Wait>(
    rt: &R,
    locks: &Locks,
    number: DomainId,
    outbox: &mut OriginBox,
    begins: &mut BeginRing,
) -> Begun
    ensures served { ServesNext locks.now number result outbox.old outbox.new begins.old begins.new }
    ensures rests { has_served result ≡ false → RestsThere outbox.old outbox.new begins.old begins.new }
    ensures origin { outbox.new.origin ≡ outbox.old.origin }
    ensures ring { SameConsumer begins.old.consumer begins.new.consumer }
{
    if !make_room(outbox) {
        return Begun::Waits;
    }
    let Some(lock) = locks.lock_of(number) else {
        return Begun::Idle;
    };
    let mut domain = lock.lock(rt);
    serve_there(&mut domain, number, outbox, begins)
}
