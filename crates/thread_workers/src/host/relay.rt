//! A completion for somebody below goes down again.

ghost use Rattle.std.specs.Prelude.{◌≡◌, false, true};
ghost use Rattle.lane.specs.Queues.{frames_of};
ghost use Rattle.thread_workers.specs.Relaying.{AreRelayed, HasNoneToRelay, Relays};

use fab_types::Class;
use link::{Egress, Ingress};

/// The eligible packet of a class goes to wait behind all others to be sent.
/// It is for somebody below, and goes if its class has a place there. Else it stays, and nothing changes. Did
/// it go?
pub(crate) fn relay(class: Class, input: &mut Ingress, egress: &mut Egress) -> bool
    requires { AreRelayed true class (frames_of input.old.queue.queue.waiting) }
    ensures relayed { result ≡ true → Relays class (frames_of input.old.queue.queue.waiting) (frames_of input.new.queue.queue.waiting) (frames_of egress.old.queue.queue.waiting) (frames_of egress.new.queue.queue.waiting) }
    ensures stuck { result ≡ false → HasNoneToRelay class (frames_of input.old.queue.queue.waiting) (frames_of egress.old.queue.queue.waiting) }
    ensures rests { result ≡ false → (frames_of input.new.queue.queue.waiting ≡ frames_of input.old.queue.queue.waiting) × (frames_of egress.new.queue.queue.waiting ≡ frames_of egress.old.queue.queue.waiting) }
    ensures sender { egress.new.sender ≡ egress.old.sender }
{
    let Some(head) = input.next(class) else {
        return false;
    };
    if egress.is_full(head.cost.class) {
        return false;
    }
    let Some(frame) = input.release(class) else {
        unreachable!();
    };
    if egress.put(frame).is_err() {
        unreachable!();
    }
    true
}
