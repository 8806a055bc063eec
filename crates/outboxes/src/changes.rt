//! The box of an origin, and changes of the box at a place.

ghost use Rattle.std.specs.Prelude.{◌≡◌, ◌<◌, IfSome, IsTrue, MatchOption, None, OnErr, OnOk, Some, length, slice_get};
ghost use Rattle.fab_types.specs.declared.origin.Origin.{Origin};
ghost use Rattle.lane.specs.Lanes.{class_of, eligible};
ghost use Rattle.outboxes.specs.Outboxes.{AreFound, box_place, changed_at, has_place_in, queue_in, waiting_in, with_more, with_put, with_queue};

use crate::origin_box::OriginBox;
use fab_types::{Class, NoMemory, Origin, same_origin};
use frame_log::Frame;

/// The place of the box of this origin.
#[tactic(auto, unfolding(crate::specs::Outboxes::box_place))]
pub(crate) fn box_place(boxes: &[OriginBox], origin: Origin) -> Option<usize>
    ensures value { result ≡ box_place boxes.now origin }
    ensures within { IfSome result (λ place. place < length boxes.now) }
{
    boxes
        .iter()
        .position(|outbox| same_origin(outbox.origin(), origin))
}

/// Takes the eligible packet of a class from the box at this place.
pub(crate) fn take_at(boxes: &mut [OriginBox], place: usize, class: Class) -> Option<Frame>
    requires { place < length boxes.old }
    ensures taken { MatchOption result ((eligible class (waiting_in (slice_get boxes.old place)) ≡ None) × (boxes.new ≡ boxes.old))
        (λ frame. eligible class (waiting_in (slice_get boxes.old place)) ≡ Some (frame, waiting_in (slice_get boxes.new place))) }
    ensures kept { boxes.new ≡ changed_at (with_queue (queue_in (slice_get boxes.new place))) boxes.old (Some place) }
    ensures places { (origin : Origin) → box_place boxes.new origin ≡ box_place boxes.old origin }
    ensures found { (origin : Origin) → box_place boxes.old origin ≡ Some place → AreFound boxes.old → AreFound boxes.new }
{
    boxes[place].take(class)
}

/// Puts a packet behind the others of the box at this place.
pub(crate) fn put_at(boxes: &mut [OriginBox], place: usize, frame: Frame)
    requires within { place < length boxes.old }
    requires has_place { IsTrue (has_place_in (slice_get boxes.old place) (class_of frame)) }
    ensures put { boxes.new ≡ changed_at (with_put frame) boxes.old (Some place) }
    ensures places { (origin : Origin) → box_place boxes.new origin ≡ box_place boxes.old origin }
    ensures found { (origin : Origin) → box_place boxes.old origin ≡ Some place → AreFound boxes.old → AreFound boxes.new }
{
    boxes[place].put(frame);
}

/// Takes so many packets more of each class into the box at this place.
pub(crate) fn more_at(boxes: &mut [OriginBox], place: usize, places: usize) -> Result<(), NoMemory>
    requires { place < length boxes.old }
    ensures ok { OnOk result (boxes.new ≡ changed_at (with_more places) boxes.old (Some place)) }
    ensures err { OnErr result (boxes.new ≡ boxes.old) }
    ensures places { (origin : Origin) → box_place boxes.new origin ≡ box_place boxes.old origin }
    ensures found { (origin : Origin) → box_place boxes.old origin ≡ Some place → AreFound boxes.old → AreFound boxes.new }
{
    boxes[place].more(places)
}
