//! One direction of a link.

ghost use Rattle.std.specs.Prelude.{◌≡◌, ◌≢◌, ◌≤◌, ◌++◌, ◌∷◌, [], None, Some, IfOk, MatchBool, false, is_none, is_some, map, option_map, slice_get};
ghost use Rattle.std.specs.List.Sorted.{IsPermutation};
ghost use Rattle.fab_types.specs.declared.class.Class.{Class};
ghost use Rattle.credit.specs.Kinds.{Kind};
ghost use Rattle.credit.specs.Limits.{MayStart, at};
ghost use Rattle.port_queue.specs.EligibleClasses.{has};
ghost use Rattle.lane.specs.Lanes.{class_of, eligible};
ghost use Rattle.lane.specs.Queues.{frames_of};
ghost use Rattle.link.specs.Channels.{IsCovered, count_in, deliver, is_full, send, update_fc, with_egress};
ghost use Rattle.link.specs.Quiet.{is_quiet, none_eligible};
ghost use Rattle.link.specs.Simplexes.{channel};

use crate::egress::Egress;
use crate::ingress::Ingress;
use crate::steps::{accept_update, deliver_oldest, transmit};
use credit::Limits;
use fab_types::{Class, DomainId, Head, NoMemory};
use frame_log::Frame;
use lane::LaneIn;
use port_queue::{EligibleClasses, Ring};
use std::alloc::Global;
use std::marker::Model;

/// One direction of a link, which is dual simplex (PCIe 4.0, 1.2).
/// It has what waits at its sender, travels, and waits at its receiver, and the credits of both. It is the lane in of
/// its receiver. The credits of a packet that leaves the receiver are
/// free, and its sender learns of them by `update_fc`. A contract sees a `SimplexView`.
#[derive(Drop)]
pub struct Simplex {
    egress: Egress,
    wire: Ring<Frame, 381>,
    ingress: Ingress,

    /// Has the receiver freed no credits since its limits were advertised?
    is_advertised: bool,
}

impl Model for Simplex {
    ghost use Rattle.link.specs.Simplexes.{SimplexView, IsSimplex, simplex_view};

    ghost Value = { SimplexView };

    ghost view = { simplex_view };

    ghost invariant = { IsSimplex };
}

impl Simplex {
    /// A direction on which nothing was sent yet.
    /// Its receiver advertises these credits: headers at most 127, data at most 2,047.
    pub fn new(alloc: Global, limits: Limits) -> Result<Simplex, NoMemory>
        requires { MayStart limits }
        ensures { IfOk result (λ made. made ≡ record {
          start = limits;
          left = limits;
          egress = record { queue = record { waiting = []; gap = None }; misses = 0; refusals = 0 };
          wire = [];
          ingress = record { queue = record { waiting = []; gap = None }; misses = 0; refusals = 0 };
        }) }
    {
        let start = limits;
        Ok(Simplex {
            egress: Egress::new(alloc, start)?,
            wire: Ring::new(alloc)?,
            ingress: Ingress::new(alloc, limits)?,
            is_advertised: true,
        })
    }

    /// Do 16 packets of the class wait at the sender? If so, that is counted.
    pub fn is_full(&mut self, class: Class) -> bool
        ensures exact { result ≡ is_full class (channel self.old) }
        ensures channel { channel self.new ≡ channel self.old }
        ensures counted { MatchBool result (self.new.egress.refusals ≢ self.old.egress.refusals) (self.new.egress.refusals ≡ self.old.egress.refusals) }
    {
        self.egress.is_full(class)
    }

    /// Puts a packet behind the others of its class at the sender.
    /// It may be called where fewer than 16 packets of that class wait.
    pub fn put(&mut self, frame: Frame)
        requires { is_full (class_of frame) (channel self.old) ≡ false }
        ensures channel { channel self.new ≡ with_egress (channel self.old) ((channel self.old).egress ++ frame ∷ []) }
        ensures counted { self.new.egress.refusals ≡ self.old.egress.refusals }
    {
        if self.egress.put(frame).is_err() {
            unreachable!();
        }
    }

    /// Puts the eligible packet of the class on the wire and spends its credits. It answers false, and
    /// changes nothing, where no packet is eligible, or there are too few credits.
    pub fn send(&mut self, class: Class) -> bool
        ensures { MatchBool result (send class (channel self.old) ≡ Some (channel self.new)) ((send class (channel self.old) ≡ None) × (channel self.new ≡ channel self.old)) }
    {
        transmit(&mut self.egress, &mut self.wire, class)
    }

    /// The oldest packet of the wire reaches the receiver.
    /// There always is a place for it. It answers false where the wire is empty.
    pub fn deliver(&mut self) -> bool
        ensures { MatchBool result (deliver (channel self.old) ≡ Some (channel self.new)) ((deliver (channel self.old) ≡ None) × (channel self.new ≡ channel self.old)) }
    {
        deliver_oldest(&mut self.wire, &mut self.ingress)
    }

    /// The credits that the sender knows to be left. They and the cost of all that travels and waits at the
    /// receiver never exceed the start, so no more packets of a class are behind the sender than the receiver
    /// has places.
    pub fn left(&self) -> Limits
        ensures value { result ≡ self.now.left }
        ensures start { MayStart self.now.start }
        ensures covered { IsCovered (channel self.now) }
        ensures within { (k : Kind) → at self.now.left k ≤ at self.now.start k }
        ensures places { (class : Class) → count_in class (self.now.wire ++ frames_of self.now.ingress.queue.waiting) ≤ 127 }
    {
        self.egress.left()
    }

    /// All packets at the sender, in no order that a caller may rely on.
    pub fn at_sender(&self, alloc: Global) -> Result<Vec<&Frame>, NoMemory>
        ensures { IfOk result (λ all. IsPermutation (map (λ frame. frame.now) all.items) (channel self.now).egress) }
    {
        self.egress.all(alloc)
    }

    /// All packets on the wire, the oldest first.
    pub fn on_wire(&self, alloc: Global) -> Result<Vec<&Frame>, NoMemory>
        ensures { IfOk result (λ all. map (λ frame. frame.now) all.items ≡ (channel self.now).wire) }
    {
        self.wire.all(alloc)
    }

    /// All packets at the receiver, in no order that a caller may rely on.
    pub fn at_receiver(&self, alloc: Global) -> Result<Vec<&Frame>, NoMemory>
        ensures { IfOk result (λ all. IsPermutation (map (λ frame. frame.now) all.items) (channel self.now).ingress) }
    {
        self.ingress.all(alloc)
    }

    /// Of which classes a packet may leave the sender (PCIe 4.0, 2.4.1), whatever the credits.
    pub fn eligible_at_sender(&self) -> EligibleClasses
        ensures { (class : Class) → has result class ≡ is_some (eligible class (channel self.now).egress) }
    {
        self.egress.eligible_classes()
    }

    /// Of which classes a packet may leave the receiver (PCIe 4.0, 2.4.1).
    pub fn eligible_at_receiver(&self) -> EligibleClasses
        ensures { (class : Class) → has result class ≡ is_some (eligible class (channel self.now).ingress) }
    {
        self.ingress.eligible_classes()
    }

    /// The domain that made the eligible packet of a class at the sender.
    /// The next `send` takes that packet if there are credits for it.
    pub fn home_sent(&self, class: Class) -> Option<DomainId>
        ensures { result ≡ option_map (λ taken. taken.0.domain) (eligible class (channel self.now).egress) }
    {
        self.egress.home(class)
    }

    /// The domain that made the oldest packet of the wire.
    pub fn home_travelling(&self) -> Option<DomainId>
        ensures { result ≡ option_map (λ frame. frame.domain) (slice_get (channel self.now).wire 0) }
    {
        match self.wire.front() {
            Some(frame) => Some(frame.domain()),
            None => None,
        }
    }

    /// The domain that made the eligible packet of a class at the receiver.
    pub fn home_received(&self, class: Class) -> Option<DomainId>
        ensures { result ≡ option_map (λ taken. taken.0.domain) (eligible class (channel self.now).ingress) }
    {
        self.ingress.home(class)
    }

    /// The sender learns the receiver's present limits. It answers false where it knows them.
    pub fn update_fc(&mut self) -> bool
        ensures { MatchBool result (update_fc (channel self.old) ≡ Some (channel self.new)) ((update_fc (channel self.old) ≡ None) × (channel self.new ≡ channel self.old)) }
    {
        if self.is_advertised {
            return false;
        }
        self.is_advertised = true;
        let limits = self.ingress.advert();
        accept_update(&mut self.egress, limits)
    }

    /// Does the sender know the receiver's present limits, so that `update_fc` changes nothing?
    fn has_limits(&self) -> bool
        ensures { result ≡ is_none (update_fc (channel self.now)) }
    {
        self.is_advertised || self.egress.knows(&self.ingress.advert())
    }

    /// May no packet leave the receiver, whatever its class?
    pub fn is_ingress_empty(&self) -> bool
        ensures { result ≡ none_eligible (channel self.now).ingress }
    {
        self.ingress.is_empty()
    }

    /// Can nothing happen on this direction by itself?
    /// That is, before a packet is put at its sender or taken at its receiver. No packet at the sender is
    /// eligible, whatever its class, none is on the wire, and the sender knows the receiver's present credits.
    pub fn is_quiet(&self) -> bool
        ensures { result ≡ is_quiet (channel self.now) }
    {
        self.egress.is_empty() && self.wire.front().is_none() && self.has_limits()
    }
}

impl LaneIn for Simplex {
    ghost use Rattle.link.specs.Simplexes.{Behind, simplex_restored};

    ghost Lane = { Behind };

    ghost lane = { λ s. record { start = s.start; left = s.left; egress = frames_of s.egress.queue.waiting; wire = s.wire } };

    ghost waiting = { λ s. frames_of s.ingress.queue.waiting };

    ghost restored = { λ s f. simplex_restored s f };

    ghost misses = { λ s. s.ingress.misses };

    fn head(&mut self, class: Class) -> Option<Head> {
        self.ingress.next(class)
    }

    fn take(&mut self, class: Class) -> Option<Frame> {
        self.is_advertised = false;
        self.ingress.release(class)
    }

    fn put_back(&mut self, frame: Frame) {
        self.is_advertised = false;
        self.ingress.give_back(frame);
    }
}
