//! A port in a thread of its own.

ghost use Rattle.std.specs.Prelude.{◌≡◌, ◌+◌, length};
ghost use Rattle.std.specs.Arc.{arc_value};
ghost use Rattle.monitor.specs.Reporting.{seat_of};
ghost use Rattle.thread_workers.specs.PortWorks.{HasLanes};
ghost use Rattle.thread_rings.specs.Wired.{tags_of};

use crate::link_side::LinkSide;
use crate::ports::collect::collect;
use crate::ports::forward::turn_with_locks;
use crate::ports::misroute::{Misrouting, misroute};
use crate::ports::parts::PortParts;
use bridge::Bridge;
use credit::Limits;
use fab_types::{Class, Outcome};
use frame_log::Frame;
use monitor::QueueReporter;
use port::Port;
use std::alloc::Global;
use std::marker::Model;
use std::sync::{Arc, Wait};
use switch_output::VettedFrame;
use thread_domains::Locks;
use thread_rings::Ends;

// How often a turn goes round while something moves.
const ROUNDS: usize = 16;

/// A port of a switch with all that is its own.
/// It has its side of the link that it is at, its way to the domains, and its end of the queue of violations.
/// The ends of rings that it has are lent to each call. A contract sees a `PortWorkView`: what no turn changes,
/// and all that is its own.
#[derive(Drop)]
pub struct PortWork {
    port: Port,
    bridge: Arc<Bridge, Global>,
    side: LinkSide,
    locks: Arc<Locks, Global>,
    reporter: QueueReporter,
}

impl Model for PortWork {
    ghost use Rattle.thread_workers.specs.PortWorks.{PortWorkView, work_view};

    ghost Value = { PortWorkView };

    ghost view = { work_view };
}

impl PortWork {
    /// The work of a port that is at this side of a link.
    /// It stands over the switches of its layout, with its way to the domains and its end of the queue of
    /// violations.
    pub fn new(
        port: Port,
        bridge: Arc<Bridge, Global>,
        side: LinkSide,
        locks: Arc<Locks, Global>,
        reporter: QueueReporter,
    ) -> PortWork
        ensures kept { result.kept ≡ record { config = port.config; routes = arc_value bridge; seat = seat_of reporter } }
        ensures parts { result.parts ≡ record { port = port; side = side; reporter = reporter } }
    {
        PortWork {
            port,
            bridge,
            side,
            locks,
            reporter,
        }
    }

    /// What came in goes on, is refused, or is misrouted: the eligible packet of this class. Did it move? Where the worker
    /// hasn't one end for each lane of its switch nothing moves.
    fn pass<R: Wait>(&mut self, rt: &R, class: Class, pairs: &mut Ends<VettedFrame>) -> bool
        ensures kept { self.new.kept ≡ self.old.kept }
        ensures pairs { tags_of pairs.new ≡ tags_of pairs.old }
    {
        if pairs.outs.len() != self.port.lanes() {
            return false;
        }
        match self.misroute(rt, class, pairs) {
            Misrouting::Misrouted => true,
            Misrouting::Waits => false,
            Misrouting::Elsewhere => self.forward(rt, class, pairs),
        }
    }

    /// In a layout that isn't guarded, what the port has no case for ends here.
    #[tactic(auto, using(thread_rings::proofs::Used::same_outs))]
    fn misroute<R: Wait>(
        &mut self,
        rt: &R,
        class: Class,
        pairs: &mut Ends<VettedFrame>,
    ) -> Misrouting
        requires { HasLanes self.old (tags_of pairs.old) }
        ensures kept { self.new.kept ≡ self.old.kept }
        ensures pairs { tags_of pairs.new ≡ tags_of pairs.old }
    {
        let own = self.port.own_lane();
        misroute(
            rt,
            class,
            &mut self.port,
            &self.bridge,
            &mut self.side.ingress,
            &mut pairs.outs[own],
            &self.locks,
            &mut self.reporter,
        )
    }

    /// A turn of the port.
    fn forward<R: Wait>(&mut self, rt: &R, class: Class, pairs: &mut Ends<VettedFrame>) -> bool
        requires { HasLanes self.old (tags_of pairs.old) }
        ensures kept { self.new.kept ≡ self.old.kept }
        ensures pairs { tags_of pairs.new ≡ tags_of pairs.old }
    {
        let outcome = turn_with_locks(
            &mut self.port,
            rt,
            class,
            &self.bridge,
            &mut self.side.ingress,
            pairs.outs.as_mut_slice(),
            &self.locks,
            &mut self.reporter,
        );
        match outcome {
            Outcome::Moved => true,
            _ => false,
        }
    }

    fn pass_each<R: Wait>(&mut self, rt: &R, pairs: &mut Ends<VettedFrame>) -> bool
        ensures kept { self.new.kept ≡ self.old.kept }
        ensures pairs { tags_of pairs.new ≡ tags_of pairs.old }
    {
        let posted = self.pass(rt, Class::Posted, pairs);
        let non_posted = self.pass(rt, Class::NonPosted, pairs);
        let completion = self.pass(rt, Class::Completion, pairs);
        posted || non_posted || completion
    }

    /// Once round: what waits to be sent leaves before what came in goes on. Did anything move?
    fn round<R: Wait>(
        &mut self,
        rt: &R,
        links: &mut Ends<Frame>,
        credits: &mut Ends<Limits>,
        pairs: &mut Ends<VettedFrame>,
    ) -> bool
        ensures kept { self.new.kept ≡ self.old.kept }
        ensures links { tags_of links.new ≡ tags_of links.old }
        ensures credits { tags_of credits.new ≡ tags_of credits.old }
        ensures pairs { tags_of pairs.new ≡ tags_of pairs.old }
    {
        let updated = self.side.receive_update_fc(credits);
        let sent = self.side.send_each(links);
        let collected = collect(pairs, &mut self.side.egress);
        let passed = self.pass_each(rt, pairs);
        let landed = self.side.land(links);
        let advertised = self.side.send_update_fc(credits);
        updated || sent || collected || passed || landed || advertised
    }

    /// One turn of the worker: round after round while anything moves, at most 16.
    pub fn turn<R: Wait>(
        &mut self,
        rt: &R,
        links: &mut Ends<Frame>,
        credits: &mut Ends<Limits>,
        pairs: &mut Ends<VettedFrame>,
    )
        ensures kept { self.new.kept ≡ self.old.kept }
        ensures links { tags_of links.new ≡ tags_of links.old }
        ensures credits { tags_of credits.new ≡ tags_of credits.old }
        ensures pairs { tags_of pairs.new ≡ tags_of pairs.old }
    {
        for _ in 0..ROUNDS {
            if !self.round(rt, links, credits, pairs) {
                break;
            }
        }
    }

    /// All that is its own, for whoever stops the fabric. Its ways to the domains and to the switches are let go.
    pub fn into_parts(self) -> PortParts
        ensures parts { result ≡ self.parts }
        ensures port { result.port.config ≡ self.kept.config }
        ensures seat { seat_of result.reporter ≡ self.kept.seat }
    {
        let PortWork {
            port,
            bridge: _,
            side,
            locks: _,
            reporter,
        } = self;
        PortParts {
            port,
            side,
            reporter,
        }
    }
}
