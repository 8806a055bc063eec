//! The outbox of one function or host.

ghost use Rattle.std.specs.Prelude.{◌≡◌, ◌==◌, IfOk, IsTrue, MatchOption, None, OnErr, OnOk, Some, is_some, length, map, option_map};
ghost use Rattle.std.specs.List.Sorted.{IsPermutation};
ghost use Rattle.port_queue.specs.EligibleClasses.{has};
ghost use Rattle.lane.specs.Lanes.{Class, class_of, eligible};
ghost use Rattle.outboxes.specs.Outboxes.{empty_box, takes, waiting, with_more, with_put, with_queue};

use fab_types::{Class, DomainId, Head, NoMemory, Origin};
use frame_log::Frame;
use port_queue::{EligibleClasses, Outbox};
use std::alloc::Global;
use std::marker::Model;

/// What one function or host has emitted and no link has taken yet. Each packet waits under its own class.
#[derive(Drop)]
pub struct OriginBox {
    origin: Origin,
    outbox: Outbox<Frame>,
}

impl Model for OriginBox {
    ghost use Rattle.lane.specs.Queues.{IsSorted};
    ghost use Rattle.outboxes.specs.Outboxes.{BoxView};

    ghost Value = { BoxView };

    ghost view = { λ b. record { origin = b.origin; queue = b.outbox.queue; puts = b.outbox.puts; places = b.outbox.places } };

    ghost invariant = { λ b. IsSorted b.outbox.queue.waiting };
}

impl OriginBox {
    /// An empty box that takes `places` packets of each class in all.
    pub fn new(alloc: Global, origin: Origin, places: usize) -> Result<OriginBox, NoMemory>
        ensures { IfOk result (λ made. made ≡ empty_box places origin) }
    {
        Ok(OriginBox {
            origin,
            outbox: Outbox::new(alloc, places)?,
        })
    }

    /// The function or the domain's host whose outbox it is.
    pub fn origin(&self) -> Origin
        ensures { result ≡ self.now.origin }
    {
        self.origin
    }

    /// Does no packet wait?
    pub fn is_empty(&self) -> bool
        ensures { result ≡ (length (waiting self.now) == 0) }
    {
        self.outbox.is_empty()
    }

    /// All packets that wait, in no order that a caller may rely on.
    pub fn all(&self, alloc: Global) -> Result<Vec<&Frame>, NoMemory>
        ensures { IfOk result (λ all. IsPermutation (map (λ frame. frame.now) all.items) (waiting self.now)) }
    {
        self.outbox.all(alloc)
    }

    /// Of which classes a packet may leave (PCIe 4.0, 2.4.1).
    pub fn eligible_classes(&self) -> EligibleClasses
        ensures { (class : Class) → has result class ≡ is_some (eligible class (waiting self.now)) }
    {
        self.outbox.eligible_classes()
    }

    /// What ports read of the eligible packet of a class.
    pub fn head(&self, class: Class) -> Option<Head>
        ensures { result ≡ option_map (λ taken. taken.0.head) (eligible class (waiting self.now)) }
    {
        match self.outbox.head(class) {
            Some(frame) => Some(frame.head()),
            None => None,
        }
    }

    /// The domain that made the eligible packet of a class.
    pub fn home(&self, class: Class) -> Option<DomainId>
        ensures { result ≡ option_map (λ taken. taken.0.domain) (eligible class (waiting self.now)) }
    {
        match self.outbox.head(class) {
            Some(frame) => Some(frame.domain()),
            None => None,
        }
    }

    /// Takes the eligible packet of a class.
    pub fn take(&mut self, class: Class) -> Option<Frame>
        ensures taken { MatchOption result ((eligible class (waiting self.old) ≡ None) × (self.new ≡ self.old))
            (λ frame. eligible class (waiting self.old) ≡ Some (frame, waiting self.new)) }
        ensures kept { self.new ≡ with_queue self.new.queue self.old }
    {
        self.outbox.take(class)
    }

    /// Were fewer than its places put of the class?
    pub fn has_place(&self, class: Class) -> bool
        ensures { result ≡ takes self.now class }
    {
        !self.outbox.is_full(class)
    }

    /// Puts a packet behind the others.
    pub fn put(&mut self, frame: Frame)
        requires { IsTrue (takes self.old (class_of frame)) }
        ensures { self.new ≡ with_put frame self.old }
    {
        let class = frame.head().cost.class;
        self.outbox.put(class, frame);
    }

    /// Takes so many packets more of each class.
    pub fn more(&mut self, places: usize) -> Result<(), NoMemory>
        ensures ok { OnOk result (self.new ≡ with_more places self.old) }
        ensures err { OnErr result (self.new ≡ self.old) }
    {
        self.outbox.more(places)
    }
}
