//! What an outbox has goes to its link.

ghost use Rattle.std.specs.Prelude.{◌≡◌, false};
ghost use Rattle.lane.specs.Queues.{frames_of};
ghost use Rattle.thread_workers.specs.Entering.{EntersEach, TriesToEnter};

use fab_types::Class;
use link::Egress;
use outboxes::OriginBox;

/// The eligible packet of a class leaves the outbox, to wait behind all others at the link, if its class has a place
/// there. Else it stays, and nothing changes. Did it go?
fn enter(outbox: &mut OriginBox, egress: &mut Egress, class: Class) -> bool
    ensures entered { TriesToEnter class outbox.old outbox.new (frames_of egress.old.queue.queue.waiting) (frames_of egress.new.queue.queue.waiting) result }
    ensures origin { outbox.new.origin ≡ outbox.old.origin }
    ensures sender { egress.new.sender ≡ egress.old.sender }
{
    let Some(head) = outbox.head(class) else {
        return false;
    };
    if egress.is_full(head.cost.class) {
        return false;
    }
    let Some(frame) = outbox.take(class) else {
        unreachable!();
    };
    if egress.put(frame).is_err() {
        unreachable!();
    }
    true
}

/// The eligible packet of each class in turn goes so: posted, non-posted, completion. Did one go?
pub(crate) fn enter_each(outbox: &mut OriginBox, egress: &mut Egress) -> bool
    ensures entered { EntersEach outbox.old outbox.new (frames_of egress.old.queue.queue.waiting) (frames_of egress.new.queue.queue.waiting) result }
    ensures rests { result ≡ false → (outbox.new ≡ outbox.old) × (frames_of egress.new.queue.queue.waiting ≡ frames_of egress.old.queue.queue.waiting) }
    ensures origin { outbox.new.origin ≡ outbox.old.origin }
    ensures sender { egress.new.sender ≡ egress.old.sender }
{
    let posted = enter(outbox, egress, Class::Posted);
    let non_posted = enter(outbox, egress, Class::NonPosted);
    let completion = enter(outbox, egress, Class::Completion);
    posted | non_posted | completion
}
