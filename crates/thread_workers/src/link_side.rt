//! One side of a link.

ghost use Rattle.std.specs.Prelude.{◌≡◌, ◌==◌, [], None, Some, IfOk, true, false};
ghost use Rattle.frame_log.specs.Descriptor.{Descriptor};
ghost use Rattle.credit.specs.Limits.{MayStart, zero_counters};
ghost use Rattle.lane.specs.Lanes.{class_of};
ghost use Rattle.link.specs.Channels.{count_in};
ghost use Rattle.link.specs.Steps.{IsStuck};
ghost use Rattle.thread_workers.specs.SideRings.{HasPlace, oldest};
ghost use Rattle.thread_workers.specs.Sides.{landed, leaving};
ghost use Rattle.thread_workers.specs.SideSteps.{ReceivesUpdateFc, Lands, SendsEach, SendsOn, SendsUpdateFc, TriesToSend};
ghost use Rattle.thread_rings.specs.Moved.{put_by, taken_by};
ghost use Rattle.thread_rings.specs.Wired.{tags_of};

use credit::Limits;
use fab_types::{Class, NoMemory};
use frame_log::Frame;
use link::{Egress, Ingress};
use std::alloc::Global;
use std::marker::Model;
use thread_rings::Ends;

/// One side of a link, with the credits of both directions.
/// It has what waits to be sent and what has come. A worker has it to itself. Rings join it with the other
/// side, of each of which the worker has one end, at place 0 of `outs` or of `ins`: two of packets (`links`),
/// and two of limits (`credits`). A contract sees a `LinkSideView`.
#[derive(Drop)]
pub struct LinkSide {
    /// What waits to be sent: the lane out of who sends here.
    pub egress: Egress,
    /// What has come: the lane in of who receives here.
    pub ingress: Ingress,
    advertised: Limits,
}

impl Model for LinkSide {
    ghost use Rattle.thread_workers.specs.Sides.{LinkSideView};

    ghost Value = { LinkSideView };

    ghost view = { λ s. record { egress = s.egress; ingress = s.ingress; advertised = s.advertised } };
}

impl LinkSide {
    /// Nothing waits, and nothing was sent or advertised. `sends` are the limits that the other side's receiver starts with,
    /// headers at most 127 and data at most 2,047, and `receives` those that this side's starts with.
    pub fn new(alloc: Global, sends: Limits, receives: Limits) -> Result<LinkSide, NoMemory>
        requires { MayStart sends }
        ensures { IfOk result (λ made. made ≡ record {
          egress = record {
            queue = record { queue = record { waiting = []; gap = None }; misses = 0; refusals = 0 };
            sender = record { credits_consumed = zero_counters; credit_limit = sends; start = sends };
          };
          ingress = record {
            queue = record { queue = record { waiting = []; gap = None }; misses = 0; refusals = 0 };
            receiver = record { credits_received = zero_counters; credits_allocated = receives };
          };
          advertised = receives;
        }) }
    {
        let advertised = receives;
        Ok(LinkSide {
            egress: Egress::new(alloc, sends)?,
            ingress: Ingress::new(alloc, receives)?,
            advertised,
        })
    }

    /// Receives an UpdateFC: takes the oldest limits out of the ring, and gives them to the sender.
    /// The sender drops those that can't be its receiver's. Where the ring has none, nothing changes, and it
    /// answers false.
    pub fn receive_update_fc(&mut self, credits: &mut Ends<Limits>) -> bool
        ensures received { result ≡ true → ReceivesUpdateFc self.old.egress.sender credits.old self.new.egress.sender credits.new }
        ensures none { result ≡ false → oldest credits.new ≡ None }
        ensures rests { result ≡ false → (self.new ≡ self.old) × (taken_by credits.new ≡ taken_by credits.old) }
        ensures tags { tags_of credits.new ≡ tags_of credits.old }
        ensures put { put_by credits.new ≡ put_by credits.old }

        // Nothing else changes than what the sender knows.
        ensures others { self.new ≡ record self.old { egress = record self.old.egress { sender = self.new.egress.sender } } }
    {
        let Some(input) = credits.ins.get_mut(0) else {
            return false;
        };
        let Some(limits) = input.pull() else {
            return false;
        };
        self.egress.update(limits);
        true
    }

    /// Sends the eligible packet of the class.
    /// It does so if there are the credits for it and the ring has a place. Else nothing changes, and it
    /// answers false.
    pub fn send(&mut self, class: Class, links: &mut Ends<Frame>) -> bool
        ensures sent { result ≡ true → SendsOn class self.old links.old self.new links.new }
        ensures stuck { result ≡ false → HasPlace links.new → IsStuck class (leaving self.old) self.old.egress.sender }
        ensures rests { result ≡ false → (leaving self.new ≡ leaving self.old) × (self.new.egress.sender ≡ self.old.egress.sender) × (put_by links.new ≡ put_by links.old) }
        ensures tags { tags_of links.new ≡ tags_of links.old }
        ensures taken { taken_by links.new ≡ taken_by links.old }
        ensures others { (self.new.ingress ≡ self.old.ingress) × (self.new.advertised ≡ self.old.advertised) }
    {
        let Some(out) = links.outs.get_mut(0) else {
            return false;
        };
        // Only this end fills places, so the packet won't come back.
        if !out.has_place() {
            return false;
        }
        let Some(frame) = self.egress.send(class) else {
            return false;
        };
        out.put_reserved(frame);
        true
    }

    /// The same, and what it did in one fact.
    fn try_to_send(&mut self, class: Class, links: &mut Ends<Frame>) -> bool
        ensures tried { TriesToSend class self.old links.old self.new links.new result }
        ensures tags { tags_of links.new ≡ tags_of links.old }
        ensures taken { taken_by links.new ≡ taken_by links.old }
        ensures others { (self.new.ingress ≡ self.old.ingress) × (self.new.advertised ≡ self.old.advertised) }
    {
        if self.send(class, links) { true } else { false }
    }

    /// Sends the eligible packet of each class in turn, as `send`: posted, non-posted, completion. Did one go?
    pub fn send_each(&mut self, links: &mut Ends<Frame>) -> bool
        ensures sent { SendsEach self.old links.old self.new links.new result }
        ensures tags { tags_of links.new ≡ tags_of links.old }
        ensures taken { taken_by links.new ≡ taken_by links.old }
        ensures others { (self.new.ingress ≡ self.old.ingress) × (self.new.advertised ≡ self.old.advertised) }
    {
        let posted = self.try_to_send(Class::Posted, links);
        let non_posted = self.try_to_send(Class::NonPosted, links);
        let completion = self.try_to_send(Class::Completion, links);
        posted | non_posted | completion
    }

    /// Takes the oldest packet out of the ring, to wait behind all others.
    /// It does so if that packet's class has a place. Else the packet stays in the ring, nothing changes, and
    /// it answers false.
    pub fn land(&mut self, links: &mut Ends<Frame>) -> bool
        ensures landed { result ≡ true → Lands self.old links.old self.new links.new }
        ensures stuck { result ≡ false → (frame : Descriptor) → oldest links.new ≡ Some frame → count_in (class_of frame) (landed self.old) ≡ 127 }
        ensures rests { result ≡ false → (landed self.new ≡ landed self.old) × (taken_by links.new ≡ taken_by links.old) }
        ensures tags { tags_of links.new ≡ tags_of links.old }
        ensures put { put_by links.new ≡ put_by links.old }
        ensures others { (self.new.egress ≡ self.old.egress) × (self.new.ingress.receiver ≡ self.old.ingress.receiver) × (self.new.advertised ≡ self.old.advertised) }
    {
        let Some(input) = links.ins.get_mut(0) else {
            return false;
        };
        if !input.has_item() {
            return false;
        }
        if self.ingress.has_no_place(input.front().head().cost.class) {
            return false;
        }
        self.ingress.arrive(input.take_known());
        true
    }

    /// Sends an UpdateFC: puts the receiver's limits into the ring.
    /// It does so if they aren't those that were advertised to the other side last, and the ring has a place. Else
    /// nothing changes, and it answers false.
    pub fn send_update_fc(&mut self, credits: &mut Ends<Limits>) -> bool
        ensures sent { result ≡ true → SendsUpdateFc self.old credits.old self.new credits.new }
        ensures known { result ≡ false → HasPlace credits.new → self.old.ingress.receiver.credits_allocated ≡ self.old.advertised }
        ensures rests { result ≡ false → (self.new ≡ self.old) × (put_by credits.new ≡ put_by credits.old) }
        ensures tags { tags_of credits.new ≡ tags_of credits.old }
        ensures taken { taken_by credits.new ≡ taken_by credits.old }
        ensures others { (self.new.egress ≡ self.old.egress) × (self.new.ingress ≡ self.old.ingress) }
    {
        let limits = self.ingress.advert();
        if limits == self.advertised {
            return false;
        }
        let Some(out) = credits.outs.get_mut(0) else {
            return false;
        };
        if !out.has_place() {
            return false;
        }
        out.put_reserved(limits);
        self.advertised = limits;
        true
    }
}
