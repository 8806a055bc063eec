//! Places in an outbox for what follows from a packet.

ghost use Rattle.std.specs.Prelude.{◌≡◌, false, true};
ghost use Rattle.thread_workers.specs.Boxes.{HasRoom, IsCramped, with_answer, with_places};

use fab_types::Class;
use frame_log::Frame;
use outboxes::OriginBox;

// How many places of each class an outbox gets where it has none left.
const PLACES: usize = 64;

fn has_room(outbox: &OriginBox) -> bool
    ensures room { result ≡ true → HasRoom outbox.now }
    ensures cramped { result ≡ false → IsCramped outbox.now }
{
    if !outbox.has_place(Class::Posted) {
        return false;
    }
    if !outbox.has_place(Class::NonPosted) {
        return false;
    }
    outbox.has_place(Class::Completion)
}

/// Sees to it that a packet of any class may be put, if memory isn't refused. May one?
pub(crate) fn make_room(outbox: &mut OriginBox) -> bool
    ensures room { result ≡ true → HasRoom outbox.new }
    ensures cramped { result ≡ false → IsCramped outbox.old }
    ensures kept { outbox.new ≡ with_places outbox.new.places outbox.old }
{
    has_room(outbox) || (outbox.more(PLACES).is_ok() && has_room(outbox))
}

/// Puts what answers a packet behind the others, if anything does.
pub(crate) fn put_answer(outbox: &mut OriginBox, answer: Option<Frame>)
    requires { HasRoom outbox.old }
    ensures put { outbox.new ≡ with_answer answer outbox.old }
    ensures origin { outbox.new.origin ≡ outbox.old.origin }
{
    if let Some(answer) = answer {
        outbox.put(answer);
    }
}
