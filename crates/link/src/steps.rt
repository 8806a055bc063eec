//! What happens between the two ends of a direction.

ghost use Rattle.std.specs.Prelude.{◌≡◌, ◌≢◌, ◌<◌, ◌==◌, [], true, false, length, slice_get, Some};
ghost use Rattle.fab_types.specs.declared.cost.Cost.{Cost};
ghost use Rattle.frame_log.specs.Descriptor.{Descriptor};
ghost use Rattle.credit.specs.Limits.{HasRoom, IsUpdate};
ghost use Rattle.lane.specs.Lanes.{class_of};
ghost use Rattle.lane.specs.Queues.{frames_of};
ghost use Rattle.link.specs.Channels.{count_in};
ghost use Rattle.link.specs.Quiet.{none_eligible};
ghost use Rattle.link.specs.Steps.{IsStuck, Delivers, Transmits};

use crate::egress::Egress;
use crate::ingress::Ingress;
use credit::Limits;
use fab_types::Class;
use frame_log::Frame;
use lane::FrameQueue;
use port_queue::Ring;

/// May no packet of the queue leave, whatever its class? The oldest always may, so then none waits.
pub(crate) fn is_queue_empty<const CAP: usize>(queue: &FrameQueue<CAP>) -> bool
    ensures { result ≡ none_eligible (frames_of queue.now.queue.waiting) }
{
    queue.is_empty()
}

/// Puts the eligible packet of the class on the wire, if the sender has the credits.
pub(crate) fn transmit(egress: &mut Egress, wire: &mut Ring<Frame, 381>, class: Class) -> bool
    requires { (cost : Cost) → HasRoom egress.old.sender cost → length wire.old < 381 }
    ensures sent { result ≡ true → Transmits class (frames_of egress.old.queue.queue.waiting) egress.old.sender wire.old (frames_of egress.new.queue.queue.waiting) egress.new.sender wire.new }
    ensures stuck { result ≡ false → IsStuck class (frames_of egress.old.queue.queue.waiting) egress.old.sender }
    ensures rests { result ≡ false → (frames_of egress.new.queue.queue.waiting ≡ frames_of egress.old.queue.queue.waiting) × (egress.new.sender ≡ egress.old.sender) × (wire.new ≡ wire.old) }
{
    let Some(frame) = egress.send(class) else {
        return false;
    };
    wire.push_back(frame);
    true
}

/// Takes the oldest packet off the wire, to wait at the receiver.
pub(crate) fn deliver_oldest(wire: &mut Ring<Frame, 381>, ingress: &mut Ingress) -> bool
    requires { (frame : Descriptor) → slice_get wire.old 0 ≡ Some frame → (count_in (class_of frame) (frames_of ingress.old.queue.queue.waiting) == 127) ≡ false }
    ensures delivered { result ≡ true → Delivers wire.old (frames_of ingress.old.queue.queue.waiting) wire.new (frames_of ingress.new.queue.queue.waiting) }
    ensures rests { result ≡ false → (wire.old ≡ []) × (wire.new ≡ []) × (frames_of ingress.new.queue.queue.waiting ≡ frames_of ingress.old.queue.queue.waiting) }
    ensures receiver { ingress.new.receiver ≡ ingress.old.receiver }
{
    let Some(frame) = wire.pop_front() else {
        return false;
    };
    ingress.arrive(frame);
    true
}

/// Advertises these limits to the sender, if it doesn't know them.
pub(crate) fn accept_update(egress: &mut Egress, limits: Limits) -> bool
    requires { IsUpdate egress.old.sender limits }
    ensures advertised { result ≡ true → (egress.new.sender ≡ record egress.old.sender { credit_limit = limits }) × (limits ≢ egress.old.sender.credit_limit) }
    ensures known { result ≡ false → (egress.new.sender ≡ egress.old.sender) × (limits ≡ egress.old.sender.credit_limit) }
    ensures queue { egress.new.queue ≡ egress.old.queue }
{
    if egress.knows(&limits) {
        return false;
    }
    egress.update(limits)
}
