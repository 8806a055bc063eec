//! Lanes that are queues in memory.

ghost use Rattle.std.specs.Prelude.{◌≡◌, ◌≢◌, ◌<◌, ◌^◌, ◌==◌, ◌++◌, ◌∷◌, ℕ, [], None, IfOk, IsTrue, MatchBool, MatchResult, ◌↔◌, false, is_some, length, map, option_map, true};
ghost use Rattle.std.specs.List.Sorted.{IsPermutation};
ghost use Rattle.port_queue.specs.EligibleClasses.{has};
ghost use Rattle.port_queue.specs.Queue.{count_of};
ghost use Rattle.lane.specs.Lanes.{Class, class_of, eligible};
ghost use Rattle.lane.specs.Queues.{frames_of, frames_restored, IsSorted};

use crate::lane_in::LaneIn;
use fab_types::{Class, DomainId, Head, NoMemory};
use frame_log::Frame;
use port_queue::{EligibleClasses, PortQueue};
use std::alloc::Global;
use std::marker::Model;

/// A queue of at most `CAP` packets of each class.
/// Each packet waits under its own class. It is the egress queue at the sender of a link, or the ingress queue
/// at its receiver. A contract sees a `Waiting`.
#[derive(Drop)]
pub struct FrameQueue<const CAP: usize> {
    queue: PortQueue<Frame, CAP>,
    misses: u64,
    refusals: u64,
}

impl<const CAP: usize> Model for FrameQueue<CAP> {
    ghost use Rattle.lane.specs.Queues.{Waiting, IsSorted};

    ghost Value = { Waiting };

    ghost view = { λ q. record { queue = q.queue; misses = q.misses; refusals = q.refusals } };

    ghost invariant = { λ q. IsSorted q.queue.waiting };
}

impl<const CAP: usize> FrameQueue<CAP> {
    /// An empty queue, which has room for all that it will ever hold.
    pub fn new(alloc: Global) -> Result<Self, NoMemory>
        requires { CAP < 2 ^ 62 }
        ensures { IfOk result (λ made. made ≡ record { queue = record { waiting = []; gap = None }; misses = 0; refusals = 0 }) }
    {
        Ok(FrameQueue {
            queue: PortQueue::new(alloc)?,
            misses: 0,
            refusals: 0,
        })
    }

    /// Do `CAP` packets of the class wait?
    pub fn has_no_place(&self, class: Class) -> bool
        ensures exact { IsTrue result ↔ (count_of class self.now.queue.waiting ≡ CAP) }
        ensures sorted { IsSorted self.now.queue.waiting }
    {
        self.queue.is_full(class)
    }

    /// Do `CAP` packets of the class wait? If so, that is counted.
    pub fn is_full(&mut self, class: Class) -> bool
        ensures exact { result ≡ (count_of class self.old.queue.waiting == CAP) }
        ensures queue { self.new.queue ≡ self.old.queue }
        ensures misses { self.new.misses ≡ self.old.misses }
        ensures counted { MatchBool result (self.new.refusals ≢ self.old.refusals) (self.new.refusals ≡ self.old.refusals) }
    {
        let is_full = self.queue.is_full(class);
        if is_full {
            self.refusals = self.refusals.wrapping_add(1);
        }
        is_full
    }

    /// Puts a packet behind the others of its class. Where `CAP` packets of that class wait it is given back, and that is
    /// counted.
    pub fn put(&mut self, frame: Frame) -> Result<(), Frame>
        ensures put { MatchResult result
            (λ _. (frames_of self.new.queue.waiting ≡ frames_of self.old.queue.waiting ++ frame ∷ []) × (self.new.refusals ≡ self.old.refusals))
            (λ back. (back ≡ frame) × (self.new.queue ≡ self.old.queue) × (self.new.refusals ≢ self.old.refusals)) }
        ensures full { MatchResult result (λ _. (count_of (class_of frame) self.old.queue.waiting == CAP) ≡ false) (λ _. (count_of (class_of frame) self.old.queue.waiting == CAP) ≡ true) }
        ensures misses { self.new.misses ≡ self.old.misses }
    {
        let class = frame.head().cost.class;
        if self.queue.is_full(class) {
            self.refusals = self.refusals.wrapping_add(1);
            return Err(frame);
        }
        self.queue.put(class, frame);
        Ok(())
    }

    /// Does no packet wait?
    pub fn is_empty(&self) -> bool
        ensures { result ≡ (length (frames_of self.now.queue.waiting) == 0) }
    {
        self.queue.is_empty()
    }

    /// All packets that wait, in no order that a caller may rely on.
    pub fn all(&self, alloc: Global) -> Result<Vec<&Frame>, NoMemory>
        ensures { IfOk result (λ all. IsPermutation (map (λ frame. frame.now) all.items) (frames_of self.now.queue.waiting)) }
    {
        self.queue.all(alloc)
    }

    /// Of which classes a packet may leave (PCIe 4.0, 2.4.1).
    pub fn eligible_classes(&self) -> EligibleClasses
        ensures { (class : Class) → has result class ≡ is_some (eligible class (frames_of self.now.queue.waiting)) }
    {
        self.queue.eligible_classes()
    }

    /// The domain that made the eligible packet of a class (PCIe 4.0, 2.4.1).
    /// There is none where no packet of the class is eligible.
    pub fn home(&self, class: Class) -> Option<DomainId>
        ensures { result ≡ option_map (λ taken. taken.0.domain) (eligible class (frames_of self.now.queue.waiting)) }
    {
        match self.queue.head(class) {
            Some(frame) => Some(frame.domain()),
            None => None,
        }
    }
}

impl<const CAP: usize> LaneIn for FrameQueue<CAP> {
    ghost Lane = { ℕ };

    ghost lane = { λ _. 0 };

    ghost waiting = { λ q. frames_of q.queue.waiting };

    ghost restored = { λ q f. frames_restored q.queue f };

    ghost misses = { λ q. q.misses };

    fn head(&mut self, class: Class) -> Option<Head> {
        match self.queue.head(class) {
            Some(frame) => Some(frame.head()),
            None => {
                self.misses = self.misses.wrapping_add(1);
                None
            }
        }
    }

    fn take(&mut self, class: Class) -> Option<Frame> {
        self.queue.take(class)
    }

    fn put_back(&mut self, frame: Frame) {
        let class = frame.head().cost.class;
        self.queue.put_back(class, frame);
    }
}
