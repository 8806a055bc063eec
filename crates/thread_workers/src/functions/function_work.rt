//! A function in a thread of its own.

ghost use Rattle.std.specs.Prelude.{◌≡◌, []};
ghost use Rattle.std.specs.Arc.{arc_value};
ghost use Rattle.thread_rings.specs.Wired.{tags_of};

use crate::ends::{enter_each, serve_begin};
use crate::functions::arrive::arrive;
use crate::functions::parts::FunctionParts;
use crate::link_side::LinkSide;
use bridge::Bridge;
use credit::Limits;
use fab_types::{Bdf, Class, DomainId};
use frame_log::Frame;
use injector::{WorkerEnds, flush};
use outboxes::OriginBox;
use std::alloc::Global;
use std::marker::Model;
use std::sync::{Arc, Wait};
use thread_domains::Locks;
use thread_rings::Ends;

// How often a turn goes round while something moves.
const ROUNDS: usize = 16;

/// A function with all that is its own.
/// It has its outbox, its ends of its injector's rings, its side of its link, the switches of the layout, its
/// way to the domains, and the packets that nobody had a case for. The ends of links' rings that it has are
/// lent to each call. A contract sees a `FunctionWorkView`: what no turn changes, and all that is its own.
#[derive(Drop)]
pub struct FunctionWork {
    function: Bdf,
    domain: DomainId,
    outbox: OriginBox,
    ends: WorkerEnds,
    side: LinkSide,
    bridge: Arc<Bridge, Global>,
    locks: Arc<Locks, Global>,
    strays: Vec<Frame>,
}

impl Model for FunctionWork {
    ghost use Rattle.thread_workers.specs.FunctionWorks.{FunctionWorkView, work_view};

    ghost Value = { FunctionWorkView };

    ghost view = { work_view };
}

impl FunctionWork {
    /// The work of a function, at this side of its link.
    /// The function is of this domain. It has its outbox and the other ends of its injector's rings, and stands
    /// over the switches of its layout and the domains under locks. It has no strays. It takes no memory.
    pub fn new(
        alloc: Global,
        function: Bdf,
        domain: DomainId,
        outbox: OriginBox,
        ends: WorkerEnds,
        side: LinkSide,
        bridge: Arc<Bridge, Global>,
        locks: Arc<Locks, Global>,
    ) -> FunctionWork
        ensures kept { result.kept ≡ record { function = function; domain = domain; routes = arc_value bridge; locks = arc_value locks } }
        ensures outbox { result.parts.outbox ≡ outbox }
        ensures ends { (result.parts.begins ≡ ends.begins) × (result.parts.records ≡ ends.records) }
        ensures side { result.parts.side ≡ side }
        ensures strays { result.parts.strays.items ≡ [] }
    {
        FunctionWork {
            function,
            domain,
            outbox,
            ends,
            side,
            bridge,
            locks,
            strays: Vec::new(alloc),
        }
    }

    /// The function takes the eligible packet of a class. Did it leave its queue?
    fn arrive<R: Wait>(&mut self, rt: &R, class: Class) -> bool
        ensures { self.new.kept ≡ self.old.kept }
    {
        let taken_by = arrive(
            rt,
            class,
            self.function,
            self.domain,
            &self.bridge,
            &mut self.side.ingress,
            &mut self.outbox,
            &mut self.ends.records,
            &self.locks,
            &mut self.strays,
        );
        taken_by.has_moved()
    }

    fn arrive_each<R: Wait>(&mut self, rt: &R) -> bool
        ensures { self.new.kept ≡ self.old.kept }
    {
        let posted = self.arrive(rt, Class::Posted);
        let non_posted = self.arrive(rt, Class::NonPosted);
        let completion = self.arrive(rt, Class::Completion);
        posted || non_posted || completion
    }

    /// Its domain has the next begin of its injector, if there is one. Did one leave the ring for good?
    fn serve<R: Wait>(&mut self, rt: &R) -> bool
        ensures { self.new.kept ≡ self.old.kept }
    {
        let begun = serve_begin(
            rt,
            &self.locks,
            self.domain,
            &mut self.outbox,
            &mut self.ends.begins,
        );
        begun.has_moved()
    }

    /// Once round: what waits to be sent leaves before what came is taken, and a record that is held goes out before a
    /// completion is. Did anything move?
    fn round<R: Wait>(
        &mut self,
        rt: &R,
        links: &mut Ends<Frame>,
        credits: &mut Ends<Limits>,
    ) -> bool
        ensures kept { self.new.kept ≡ self.old.kept }
        ensures links { tags_of links.new ≡ tags_of links.old }
        ensures credits { tags_of credits.new ≡ tags_of credits.old }
    {
        let updated = self.side.receive_update_fc(credits);
        let sent = self.side.send_each(links);
        flush(&mut self.ends.records);
        let arrived = self.arrive_each(rt);
        let landed = self.side.land(links);
        let entered = enter_each(&mut self.outbox, &mut self.side.egress);
        let served = self.serve(rt);
        let advertised = self.side.send_update_fc(credits);
        updated || sent || arrived || landed || entered || served || advertised
    }

    /// One turn of the worker: round after round while anything moves, at most 16.
    pub fn turn<R: Wait>(&mut self, rt: &R, links: &mut Ends<Frame>, credits: &mut Ends<Limits>)
        ensures kept { self.new.kept ≡ self.old.kept }
        ensures links { tags_of links.new ≡ tags_of links.old }
        ensures credits { tags_of credits.new ≡ tags_of credits.old }
    {
        for _ in 0..ROUNDS {
            if !self.round(rt, links, credits) {
                break;
            }
        }
    }

    /// All that is its own, for whoever stops the fabric. Its way to the domains is let go.
    pub fn into_parts(self) -> FunctionParts
        ensures { result ≡ self.parts }
    {
        let FunctionWork {
            function,
            domain: _,
            outbox,
            ends,
            side,
            bridge: _,
            locks: _,
            strays,
        } = self;
        let WorkerEnds { begins, records } = ends;
        FunctionParts {
            function,
            outbox,
            side,
            strays,
            begins,
            records,
        }
    }
}
