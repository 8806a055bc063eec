//! The place of an origin's box, by an index.

ghost use Rattle.std.specs.Prelude.{◌≡◌, ◌<◌, IfSome, length};
ghost use Rattle.outboxes.specs.BoxIndexes.{IsIndexOf};
ghost use Rattle.outboxes.specs.Outboxes.{box_place};

use crate::changes::box_place;
use crate::origin_box::OriginBox;
use crate::origin_index::OriginIndex;
use fab_types::Origin;

/// An index of these boxes.
pub(crate) fn index_of(boxes: &[OriginBox]) -> OriginIndex
    ensures { IsIndexOf result boxes.now }
{
    let mut index = OriginIndex::new();
    for outbox in boxes {
        if let Some(place) = box_place(boxes, outbox.origin()) {
            index.note(outbox.origin(), place);
        }
    }
    index
}

/// The place of the box of this origin. Boxes are searched only where the index has no place.
pub(crate) fn indexed_place(
    index: &OriginIndex,
    boxes: &[OriginBox],
    origin: Origin,
) -> Option<usize>
    requires { IsIndexOf index.now boxes.now }
    ensures value { result ≡ box_place boxes.now origin }
    ensures within { IfSome result (λ place. place < length boxes.now) }
{
    let wanted = origin;
    match index.place(wanted) {
        Some(place) => Some(place),
        None => box_place(boxes, origin),
    }
}
