//! The receiver's end of a direction.

ghost use Rattle.std.specs.Prelude.{◌≡◌, ◌≢◌, ◌==◌, ◌++◌, ◌∷◌, [], None, Some, IfOk, IfSome, IsSome, MatchOption, false, is_some, map, option_map};
ghost use Rattle.std.specs.List.Sorted.{IsPermutation};
ghost use Rattle.credit.specs.Limits.{counted, uncounted, zero_counters};
ghost use Rattle.lane.specs.Lanes.{Class, class_of, eligible};
ghost use Rattle.port_queue.specs.EligibleClasses.{has};
ghost use Rattle.lane.specs.Queues.{frames_of, frames_restored};
ghost use Rattle.link.specs.Channels.{count_in};
ghost use Rattle.link.specs.Quiet.{none_eligible};

use crate::steps::is_queue_empty;
use credit::{Limits, Receiver};
use fab_types::{Class, DomainId, Head, NoMemory};
use frame_log::Frame;
use lane::{FrameQueue, LaneIn};
use port_queue::EligibleClasses;
use std::alloc::Global;
use std::marker::Model;

/// What waits at the receiver of a direction, and the credits that it gave.
/// At most 127 packets of each class wait. The credits of a packet that leaves are free. It is the lane in of
/// the port that receives. A contract sees an `IngressView`.
#[derive(Drop)]
pub struct Ingress {
    queue: FrameQueue<127>,
    receiver: Receiver,
}

impl Model for Ingress {
    ghost use Rattle.link.specs.Ends.{IngressView};

    ghost Value = { IngressView };

    ghost view = { λ i. record { queue = i.queue; receiver = i.receiver } };
}

impl Ingress {
    /// Nothing waits, and these credits are advertised.
    pub fn new(alloc: Global, limits: Limits) -> Result<Ingress, NoMemory>
        ensures { IfOk result (λ made. made ≡ record {
          queue = record { queue = record { waiting = []; gap = None }; misses = 0; refusals = 0 };
          receiver = record { credits_received = zero_counters; credits_allocated = limits };
        }) }
    {
        Ok(Ingress {
            queue: FrameQueue::new(alloc)?,
            receiver: Receiver::new(limits),
        })
    }

    /// Do 127 packets of the class wait?
    pub fn has_no_place(&self, class: Class) -> bool
        ensures { result ≡ (count_in class (frames_of self.now.queue.queue.waiting) == 127) }
    {
        self.queue.has_no_place(class)
    }

    /// A packet comes off the wire, and waits behind all others.
    pub fn arrive(&mut self, frame: Frame)
        requires { (count_in (class_of frame) (frames_of self.old.queue.queue.waiting) == 127) ≡ false }
        ensures waiting { frames_of self.new.queue.queue.waiting ≡ frames_of self.old.queue.queue.waiting ++ frame ∷ [] }
        ensures receiver { self.new.receiver ≡ self.old.receiver }
    {
        // With its answer comes that each packet waits under its own class.
        if self.queue.has_no_place(frame.head().cost.class) {
            unreachable!();
        }
        if self.queue.put(frame).is_err() {
            unreachable!();
        }
    }

    /// What ports read of the eligible packet of a class. Where there is none, that is counted.
    pub fn next(&mut self, class: Class) -> Option<Head>
        ensures found { result ≡ option_map (λ taken. taken.0.head) (eligible class (frames_of self.old.queue.queue.waiting)) }
        ensures waiting { frames_of self.new.queue.queue.waiting ≡ frames_of self.old.queue.queue.waiting }
        ensures receiver { self.new.receiver ≡ self.old.receiver }
        ensures counted { MatchOption result (self.new.queue.misses ≢ self.old.queue.misses) (λ _. self.new.queue.misses ≡ self.old.queue.misses) }
    {
        self.queue.head(class)
    }

    /// Takes the eligible packet of the class, and frees its credits.
    pub fn release(&mut self, class: Class) -> Option<Frame>
        ensures taken { MatchOption result ((eligible class (frames_of self.old.queue.queue.waiting) ≡ None) × (frames_of self.new.queue.queue.waiting ≡ frames_of self.old.queue.queue.waiting))
            (λ frame. eligible class (frames_of self.old.queue.queue.waiting) ≡ Some (frame, frames_of self.new.queue.queue.waiting)) }
        ensures restores { IfSome result (λ frame. frames_restored self.new.queue.queue frame ≡ Some (frames_of self.old.queue.queue.waiting)) }
        ensures freed { MatchOption result (self.new.receiver.credits_allocated ≡ self.old.receiver.credits_allocated) (λ frame. self.new.receiver.credits_allocated ≡ counted self.old.receiver.credits_allocated frame.head.cost) }
        ensures misses { self.new.queue.misses ≡ self.old.queue.misses }
    {
        let frame = self.queue.take(class)?;
        self.receiver.free(frame.head().cost);
        Some(frame)
    }

    /// Puts the packet back that was just taken, and takes its credits back.
    pub fn give_back(&mut self, frame: Frame)
        requires { IsSome (frames_restored self.old.queue.queue frame) }
        ensures waiting { frames_restored self.old.queue.queue frame ≡ Some (frames_of self.new.queue.queue.waiting) }
        ensures reclaimed { self.new.receiver.credits_allocated ≡ uncounted self.old.receiver.credits_allocated frame.head.cost }
        ensures misses { self.new.queue.misses ≡ self.old.queue.misses }
    {
        self.receiver.reclaim(frame.head().cost);
        self.queue.put_back(frame);
    }

    /// The limits that may be advertised to the sender.
    pub fn advert(&self) -> Limits
        ensures { result ≡ self.now.receiver.credits_allocated }
    {
        self.receiver.advert()
    }

    /// The domain that made the eligible packet of a class.
    pub fn home(&self, class: Class) -> Option<DomainId>
        ensures { result ≡ option_map (λ taken. taken.0.domain) (eligible class (frames_of self.now.queue.queue.waiting)) }
    {
        self.queue.home(class)
    }

    /// All packets that wait, in no order that a caller may rely on.
    pub fn all(&self, alloc: Global) -> Result<Vec<&Frame>, NoMemory>
        ensures { IfOk result (λ all. IsPermutation (map (λ frame. frame.now) all.items) (frames_of self.now.queue.queue.waiting)) }
    {
        self.queue.all(alloc)
    }

    /// Of which classes a packet may leave (PCIe 4.0, 2.4.1), whatever the credits.
    pub fn eligible_classes(&self) -> EligibleClasses
        ensures { (class : Class) → has result class ≡ is_some (eligible class (frames_of self.now.queue.queue.waiting)) }
    {
        self.queue.eligible_classes()
    }

    /// May no packet leave, whatever its class?
    pub fn is_empty(&self) -> bool
        ensures { result ≡ none_eligible (frames_of self.now.queue.queue.waiting) }
    {
        is_queue_empty(&self.queue)
    }
}

impl LaneIn for Ingress {
    ghost use Rattle.std.specs.Prelude.{ℕ};

    ghost Lane = { ℕ };

    ghost lane = { λ _. 0 };

    ghost waiting = { λ i. frames_of i.queue.queue.waiting };

    ghost restored = { λ i f. frames_restored i.queue.queue f };

    ghost misses = { λ i. i.queue.misses };

    fn head(&mut self, class: Class) -> Option<Head> {
        self.next(class)
    }

    fn take(&mut self, class: Class) -> Option<Frame> {
        self.release(class)
    }

    fn put_back(&mut self, frame: Frame) {
        self.give_back(frame);
    }
}
