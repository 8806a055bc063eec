//! The sender's end of a direction.

ghost use Rattle.std.specs.Prelude.{◌≡◌, ◌≢◌, ◌==◌, ◌++◌, ◌∷◌, [], None, IfOk, IfSome, MatchBool, MatchResult, false, is_some, map, option_map, true};
ghost use Rattle.std.specs.List.Sorted.{IsPermutation};
ghost use Rattle.credit.specs.Limits.{IsUpdate, MayStart, left_counters, zero_counters};
ghost use Rattle.lane.specs.Lanes.{Class, class_of, eligible};
ghost use Rattle.port_queue.specs.EligibleClasses.{has};
ghost use Rattle.lane.specs.Queues.{frames_of};
ghost use Rattle.link.specs.Channels.{count_in};
ghost use Rattle.link.specs.Quiet.{none_eligible};
ghost use Rattle.link.specs.Steps.{IsStuck, Sends};

use crate::steps::is_queue_empty;
use credit::{Limits, Sender};
use fab_types::{Class, DomainId, NoMemory};
use frame_log::Frame;
use lane::{FrameQueue, LaneIn};
use port_queue::EligibleClasses;
use std::alloc::Global;
use std::marker::Model;

/// What waits at the sender of a direction, and the credits that it knows.
/// At most 16 packets of each class wait. The credits bound what may leave. A contract sees an `EgressView`.
#[derive(Drop)]
pub struct Egress {
    queue: FrameQueue<16>,
    sender: Sender,
}

impl Model for Egress {
    ghost use Rattle.link.specs.Ends.{EgressView};

    ghost Value = { EgressView };

    ghost view = { λ e. record { queue = e.queue; sender = e.sender } };
}

impl Egress {
    /// Nothing waits, and nothing was sent. These are the credits that the receiver advertises: headers at most 127,
    /// data at most 2,047.
    pub fn new(alloc: Global, limits: Limits) -> Result<Egress, NoMemory>
        requires { MayStart limits }
        ensures { IfOk result (λ made. made ≡ record {
          queue = record { queue = record { waiting = []; gap = None }; misses = 0; refusals = 0 };
          sender = record { credits_consumed = zero_counters; credit_limit = limits; start = limits };
        }) }
    {
        Ok(Egress {
            queue: FrameQueue::new(alloc)?,
            sender: Sender::new(limits),
        })
    }

    /// Puts a packet behind the others of its class.
    /// A function or the host sends it so. Where 16 packets of that class wait it is given back, and that is
    /// counted.
    pub fn put(&mut self, frame: Frame) -> Result<(), Frame>
        ensures put { MatchResult result
            (λ _. (frames_of self.new.queue.queue.waiting ≡ frames_of self.old.queue.queue.waiting ++ frame ∷ []) × (self.new.queue.refusals ≡ self.old.queue.refusals))
            (λ back. (back ≡ frame) × (frames_of self.new.queue.queue.waiting ≡ frames_of self.old.queue.queue.waiting) × (self.new.queue.refusals ≢ self.old.queue.refusals)) }
        ensures full { MatchResult result (λ _. (count_in (class_of frame) (frames_of self.old.queue.queue.waiting) == 16) ≡ false) (λ _. (count_in (class_of frame) (frames_of self.old.queue.queue.waiting) == 16) ≡ true) }
        ensures sender { self.new.sender ≡ self.old.sender }
    {
        // for the proof: each packet waits under its own class
        let _ = self.queue.has_no_place(frame.head().cost.class);
        self.queue.put(frame)
    }

    /// Do 16 packets of the class wait? If so, that is counted.
    pub fn is_full(&mut self, class: Class) -> bool
        ensures exact { result ≡ (count_in class (frames_of self.old.queue.queue.waiting) == 16) }
        ensures queue { self.new.queue.queue ≡ self.old.queue.queue }
        ensures counted { MatchBool result (self.new.queue.refusals ≢ self.old.queue.refusals) (self.new.queue.refusals ≡ self.old.queue.refusals) }
        ensures sender { self.new.sender ≡ self.old.sender }
    {
        // for the proof: each packet waits under its own class
        let _ = self.queue.has_no_place(class);
        self.queue.is_full(class)
    }

    /// Takes the eligible packet of the class, and spends its credits. None where no packet is eligible or there are
    /// too few credits; then nothing changes.
    pub fn send(&mut self, class: Class) -> Option<Frame>
        ensures sent { IfSome result (λ frame. Sends class (frames_of self.old.queue.queue.waiting) self.old.sender frame (frames_of self.new.queue.queue.waiting) self.new.sender) }
        ensures stuck { result ≡ None → IsStuck class (frames_of self.old.queue.queue.waiting) self.old.sender }
        ensures rests { result ≡ None → (frames_of self.new.queue.queue.waiting ≡ frames_of self.old.queue.queue.waiting) × (self.new.sender ≡ self.old.sender) }
    {
        let head = self.queue.head(class)?;
        if !self.sender.room(head.cost) {
            return None;
        }
        let Some(frame) = self.queue.take(class) else {
            unreachable!();
        };
        self.sender.spend(head.cost);
        Some(frame)
    }

    /// Are these the limits that were advertised to the sender last?
    pub fn knows(&self, limits: &Limits) -> bool
        ensures { MatchBool result (limits.now ≡ self.now.sender.credit_limit) (limits.now ≢ self.now.sender.credit_limit) }
    {
        *limits == self.sender.credit_limit()
    }

    /// Advertises the receiver's limits to the sender. Limits that take back what was advertised, or give more than the start, are
    /// refused by false, and nothing changes.
    pub fn update(&mut self, limits: Limits) -> bool
        ensures advertised { IsUpdate self.old.sender limits → (result ≡ true) × (self.new.sender ≡ record self.old.sender { credit_limit = limits }) }
        ensures refused { (IsUpdate self.old.sender limits → ⊥) → (result ≡ false) × (self.new.sender ≡ self.old.sender) }
        ensures queue { self.new.queue ≡ self.old.queue }
    {
        self.sender.update(limits)
    }

    /// The credits that the sender knows to be left.
    pub fn left(&self) -> Limits
        ensures { result ≡ left_counters self.now.sender.credits_consumed self.now.sender.credit_limit }
    {
        self.sender.left()
    }

    /// The domain that made the eligible packet of a class.
    pub fn home(&self, class: Class) -> Option<DomainId>
        ensures { result ≡ option_map (λ taken. taken.0.domain) (eligible class (frames_of self.now.queue.queue.waiting)) }
    {
        self.queue.home(class)
    }

    /// All packets that wait, in no order that a caller may rely on.
    pub fn all(&self, alloc: Global) -> Result<Vec<&Frame>, NoMemory>
        ensures { IfOk result (λ all. IsPermutation (map (λ frame. frame.now) all.items) (frames_of self.now.queue.queue.waiting)) }
    {
        self.queue.all(alloc)
    }

    /// Of which classes a packet may leave (PCIe 4.0, 2.4.1), whatever the credits.
    pub fn eligible_classes(&self) -> EligibleClasses
        ensures { (class : Class) → has result class ≡ is_some (eligible class (frames_of self.now.queue.queue.waiting)) }
    {
        self.queue.eligible_classes()
    }

    /// May no packet leave, whatever its class and the credits?
    pub fn is_empty(&self) -> bool
        ensures { result ≡ none_eligible (frames_of self.now.queue.queue.waiting) }
    {
        is_queue_empty(&self.queue)
    }
}
