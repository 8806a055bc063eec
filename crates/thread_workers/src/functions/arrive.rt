//! A function takes a packet out of its link.

ghost use Rattle.std.specs.Prelude.{◌≡◌, ◌≢◌, None};
ghost use Rattle.lane.specs.Lanes.{eligible};
ghost use Rattle.lane.specs.Queues.{frames_of};
ghost use Rattle.thread_workers.specs.Arriving.{ArrivesAsAlien, ArrivesAsStray, ArrivesAtHome, StaysThere, place_at};

use crate::ends::{NotTaken, TakenBy, end_alien, end_own};
use bridge::Bridge;
use fab_types::{Bdf, Class, Direction, DomainId, Place, Way};
use frame_log::Frame;
use injector::RecordRing;
use link::Ingress;
use outboxes::OriginBox;
use received::received_at_function;
use std::sync::Wait;
use thread_domains::Locks;

/// Where a function takes packets: down its link.
fn place_at(function: Bdf) -> Place
    ensures { result ≡ place_at function }
{
    Place::Ingress(Direction {
        lower: function,
        way: Way::Down,
    })
}

/// The function takes the eligible packet of a class. Its home has an entry of it, or where that has no case for it the
/// function's domain, as only in layouts that aren't guarded; what follows waits in the outbox, and the record of a completion
/// goes out by the ring. Else it is kept, or it waits: memory was refused, or it is a completion and a record is held.
pub(crate) fn arrive<R: Wait>(
    rt: &R,
    class: Class,
    function: Bdf,
    domain: DomainId,
    bridge: &Bridge,
    input: &mut Ingress,
    outbox: &mut OriginBox,
    records: &mut RecordRing,
    locks: &Locks,
    strays: &mut Vec<Frame>,
) -> TakenBy
    ensures own { result ≡ TakenBy.Own → ArrivesAtHome bridge.now.ports function domain class (frames_of input.old.queue.queue.waiting) (frames_of input.new.queue.queue.waiting) outbox.old outbox.new records.old records.new strays.old.items strays.new.items }
    ensures alien { result ≡ TakenBy.Alien → ArrivesAsAlien bridge.now.ports locks.now function domain class (frames_of input.old.queue.queue.waiting) (frames_of input.new.queue.queue.waiting) outbox.old outbox.new strays.old.items strays.new.items }
    ensures stray { result ≡ TakenBy.Stray → ArrivesAsStray bridge.now.ports locks.now function domain class (frames_of input.old.queue.queue.waiting) (frames_of input.new.queue.queue.waiting) outbox.old outbox.new strays.old.items strays.new.items }
    ensures waits { result ≡ TakenBy.Waits → StaysThere (frames_of input.old.queue.queue.waiting) (frames_of input.new.queue.queue.waiting) outbox.old outbox.new strays.old.items strays.new.items }
    ensures idle { result ≡ TakenBy.Idle → (eligible class (frames_of input.old.queue.queue.waiting) ≡ None) × StaysThere (frames_of input.old.queue.queue.waiting) (frames_of input.new.queue.queue.waiting) outbox.old outbox.new strays.old.items strays.new.items }
    ensures records { result ≢ TakenBy.Own → records.new ≡ records.old }
{
    let Some(frame) = input.release(class) else {
        return TakenBy::Idle;
    };
    let is_own = frame.domain() == domain;
    let received = received_at_function(bridge, function, is_own, &frame);
    match end_own(rt, locks, received, outbox, records, frame) {
        Ok(()) => TakenBy::Own,
        Err(NotTaken::Stray(frame)) => {
            let place = place_at(function);
            end_alien(rt, locks, domain, place, outbox, input, strays, frame)
        }
        Err(NotTaken::Waits(frame)) => {
            input.give_back(frame);
            TakenBy::Waits
        }
    }
}
