//! The outboxes of all functions and hosts as one value.

ghost use Rattle.std.specs.Prelude.{◌≡◌, ◌==◌, ◌<◌, IfOk, IfSome, IsTrue, MatchOption, None, OnErr, OnOk, Some, is_some, length, map, option_map};
ghost use Rattle.std.specs.List.Sorted.{IsPermutation};
ghost use Rattle.port_queue.specs.EligibleClasses.{has};
ghost use Rattle.lane.specs.Lanes.{Class, class_of, eligible};
ghost use Rattle.outboxes.specs.Outboxes.{AreFound, box_place, boxes_of, changed, has_place, queue_of, waiting_of, with_more, with_put, with_queue};

use crate::changes::{more_at, put_at, take_at};
use crate::indexing::{index_of, indexed_place};
use crate::origin_box::OriginBox;
use crate::origin_index::OriginIndex;
use crate::starts::boxes_of;
use fab_types::{Class, DomainId, NoMemory, Origin};
use frame_log::Frame;
use layout::Layout;
use port_queue::EligibleClasses;
use std::alloc::{AllocError, Global};
use std::marker::Model;

/// What functions and hosts have emitted and no link has taken yet. A contract sees the list of their boxes.
#[derive(Drop)]
pub struct Outboxes {
    boxes: Vec<OriginBox>,
    index: OriginIndex,
}

impl Model for Outboxes {
    ghost use Rattle.std.specs.Prelude.{List};
    ghost use Rattle.outboxes.specs.Outboxes.{BoxView};

    ghost Value = { List BoxView };

    ghost view = { λ o. o.boxes.items };

    ghost use Rattle.outboxes.specs.BoxIndexes.{AreKept};

    ghost invariant = { λ o. AreKept o.index o.boxes.items };
}

fn origins_of(alloc: Global, boxes: &[OriginBox]) -> Result<Vec<Origin>, AllocError>
    ensures { IfOk result (λ origins. origins.items ≡ map (λ box. box.origin) boxes.now) }
{
    let mut origins = Vec::new(alloc);
    for outbox in boxes {
        origins.push(outbox.origin())?;
    }
    Ok(origins)
}

impl Outboxes {
    /// An empty box for each function of a layout, and for each domain's host.
    /// The domains are those that own a port. In all each box takes three times its domain's budget of each
    /// class. It answers `NoMemory` where memory was refused.
    pub fn new(alloc: Global, layout: &Layout) -> Result<Outboxes, NoMemory>
        ensures { IfOk result (λ outboxes. outboxes ≡ boxes_of layout.now) }
    {
        let boxes = boxes_of(alloc, layout)?;
        Ok(Outboxes {
            index: index_of(&boxes),
            boxes,
        })
    }

    /// The boxes apart.
    /// There is one of each function, in the order of the layout's lines, and then of each host, by rising
    /// number of its domain.
    pub fn into_boxes(self) -> Vec<OriginBox>
        ensures { result.items ≡ self }
    {
        let Outboxes { boxes, index: _ } = self;
        boxes
    }

    /// The place of the box of this origin.
    fn place(&self, origin: Origin) -> Option<usize>
        ensures value { result ≡ box_place self.now origin }
        ensures within { IfSome result (λ place. place < length self.now) }
    {
        indexed_place(&self.index, &self.boxes, origin)
    }

    /// Does no packet of this origin wait? So it is too where there is no such origin.
    pub fn is_empty(&self, origin: Origin) -> bool
        ensures { result ≡ (length (waiting_of self.now origin) == 0) }
    {
        match self.place(origin) {
            Some(place) => self.boxes[place].is_empty(),
            None => true,
        }
    }

    /// The functions and hosts that have a box, in the order of the boxes. No packet waits in a box but that which is found
    /// by its origin.
    pub fn origins(&self, alloc: Global) -> Result<Vec<Origin>, NoMemory>
        ensures value { IfOk result (λ origins. origins.items ≡ map (λ box. box.origin) self.now) }
        ensures found { AreFound self.now }
    {
        Ok(origins_of(alloc, &self.boxes)?)
    }

    /// All packets of this origin that wait.
    /// No caller may rely on their order. Where there is no such origin, there are none.
    pub fn all(&self, alloc: Global, origin: Origin) -> Result<Vec<&Frame>, NoMemory>
        ensures { IfOk result (λ all. IsPermutation (map (λ frame. frame.now) all.items) (waiting_of self.now origin)) }
    {
        match self.place(origin) {
            Some(place) => self.boxes[place].all(alloc),
            None => Ok(Vec::new(alloc)),
        }
    }

    /// Of which classes a packet of this origin may leave (PCIe 4.0, 2.4.1). Where there is no such origin, of none.
    pub fn eligible_classes(&self, origin: Origin) -> EligibleClasses
        ensures { (class : Class) → has result class ≡ is_some (eligible class (waiting_of self.now origin)) }
    {
        match self.place(origin) {
            Some(place) => self.boxes[place].eligible_classes(),
            None => EligibleClasses::NONE,
        }
    }

    /// The domain that made the eligible packet of a class of this origin.
    pub fn home(&self, origin: Origin, class: Class) -> Option<DomainId>
        ensures { result ≡ option_map (λ taken. taken.0.domain) (eligible class (waiting_of self.now origin)) }
    {
        let place = self.place(origin)?;
        self.boxes[place].home(class)
    }

    /// Takes the eligible packet of a class.
    pub fn take(&mut self, origin: Origin, class: Class) -> Option<Frame>
        ensures taken { MatchOption result ((eligible class (waiting_of self.old origin) ≡ None) × (self.new ≡ self.old))
            (λ frame. eligible class (waiting_of self.old origin) ≡ Some (frame, waiting_of self.new origin)) }
        // All but what waits of this origin is as it was.
        ensures kept { self.new ≡ changed (with_queue (queue_of self.new origin)) self.old origin }
    {
        let place = self.place(origin)?;
        take_at(&mut self.boxes, place, class)
    }

    /// Has the box of this origin a place for a packet of the class?
    /// It has if there is such a box, and fewer than its places were put of the class.
    pub fn has_place(&self, origin: Origin, class: Class) -> bool
        ensures { result ≡ has_place self.now origin class }
    {
        match self.place(origin) {
            Some(place) => self.boxes[place].has_place(class),
            None => false,
        }
    }

    /// Puts a packet behind the others of this origin, under its own class.
    pub fn put(&mut self, origin: Origin, frame: Frame)
        requires { IsTrue (has_place self.old origin (class_of frame)) }
        ensures { self.new ≡ changed (with_put frame) self.old origin }
    {
        let Some(place) = self.place(origin) else {
            unreachable!();
        };
        put_at(&mut self.boxes, place, frame);
    }

    /// Takes so many packets more of each class from this origin. Where there is no such origin, nothing changes.
    pub fn more(&mut self, origin: Origin, places: usize) -> Result<(), NoMemory>
        ensures ok { OnOk result (self.new ≡ changed (with_more places) self.old origin) }
        ensures err { OnErr result (self.new ≡ self.old) }
    {
        match self.place(origin) {
            Some(place) => more_at(&mut self.boxes, place, places),
            None => Ok(()),
        }
    }
}
