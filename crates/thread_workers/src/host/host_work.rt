//! The host in a thread of its own.

ghost use Rattle.std.specs.Prelude.{◌≡◌, []};
ghost use Rattle.std.specs.Arc.{arc_value};
ghost use Rattle.thread_rings.specs.Wired.{tags_of};

use crate::host::domain_host::DomainHost;
use crate::host::end_here::end_here;
use crate::host::enter_all::enter_all;
use crate::host::flush_all::flush_all;
use crate::host::frame_owners::FrameOwners;
use crate::host::parts::HostParts;
use crate::host::relay::relay;
use crate::host::serve_all::serve_all;
use crate::link_side::LinkSide;
use bridge::Bridge;
use credit::Limits;
use fab_types::Class;
use frame_log::Frame;
use received::is_relayed;
use std::alloc::Global;
use std::marker::Model;
use std::sync::{Arc, Wait};
use thread_domains::Locks;
use thread_rings::Ends;

// How often a turn goes round while something moves.
const ROUNDS: usize = 16;

/// The host with all that is its own.
/// It has the domains' hosts, each with its outbox and its ends of its injector's rings, whose each frame of
/// memory is, its side of the link to the top switch, the switches of the layout, its way to the domains, and
/// the packets that nobody had a case for. The ends of links' rings that it has are lent to each call. A
/// contract sees a `HostWorkView`: what no turn changes, and all that is its own.
#[derive(Drop)]
pub struct HostWork {
    hosts: Vec<DomainHost>,
    frames: FrameOwners,
    side: LinkSide,
    bridge: Arc<Bridge, Global>,
    locks: Arc<Locks, Global>,
    strays: Vec<Frame>,
}

impl Model for HostWork {
    ghost use Rattle.thread_workers.specs.HostWorks.{HostWorkView, work_view};

    ghost Value = { HostWorkView };

    ghost view = { work_view };
}

impl HostWork {
    /// The host's work, with what it has of each domain.
    /// It is at this side of the link to the top switch, and stands over the switches of its layout and the
    /// domains under locks. It has no strays. It takes no memory.
    pub fn new(
        alloc: Global,
        hosts: Vec<DomainHost>,
        frames: FrameOwners,
        side: LinkSide,
        bridge: Arc<Bridge, Global>,
        locks: Arc<Locks, Global>,
    ) -> HostWork
        ensures kept { result.kept ≡ record { shares = frames; routes = arc_value bridge; locks = arc_value locks } }
        ensures hosts { result.parts.hosts ≡ hosts }
        ensures side { result.parts.side ≡ side }
        ensures strays { result.parts.strays.items ≡ [] }
    {
        HostWork {
            hosts,
            frames,
            side,
            bridge,
            locks,
            strays: Vec::new(alloc),
        }
    }

    /// The host takes the eligible packet of a class: it relays it, or it ends here. Did it leave its queue?
    fn take<R: Wait>(&mut self, rt: &R, class: Class) -> bool
        ensures { self.new.kept ≡ self.old.kept }
    {
        let Some(head) = self.side.ingress.next(class) else {
            return false;
        };
        if is_relayed(head.header) {
            relay(class, &mut self.side.ingress, &mut self.side.egress)
        } else {
            let taken_by = end_here(
                rt,
                class,
                &mut self.side.ingress,
                self.hosts.as_mut_slice(),
                &self.frames,
                &self.bridge,
                &self.locks,
                &mut self.strays,
            );
            taken_by.has_moved()
        }
    }

    fn take_each<R: Wait>(&mut self, rt: &R) -> bool
        ensures { self.new.kept ≡ self.old.kept }
    {
        let posted = self.take(rt, Class::Posted);
        let non_posted = self.take(rt, Class::NonPosted);
        let completion = self.take(rt, Class::Completion);
        posted || non_posted || completion
    }

    /// Once round: what waits to be sent leaves before what came is taken, and records that are held go out before
    /// completions are. Did anything move?
    fn round<R: Wait>(
        &mut self,
        rt: &R,
        links: &mut Ends<Frame>,
        credits: &mut Ends<Limits>,
    ) -> bool
        ensures kept { self.new.kept ≡ self.old.kept }
        ensures links { tags_of links.new ≡ tags_of links.old }
        ensures credits { tags_of credits.new ≡ tags_of credits.old }
    {
        let updated = self.side.receive_update_fc(credits);
        let sent = self.side.send_each(links);
        flush_all(self.hosts.as_mut_slice());
        let taken = self.take_each(rt);
        let landed = self.side.land(links);
        let entered = enter_all(self.hosts.as_mut_slice(), &mut self.side.egress);
        let served = serve_all(rt, &self.locks, self.hosts.as_mut_slice());
        let told = self.side.send_update_fc(credits);
        updated || sent || taken || landed || entered || served || told
    }

    /// One turn of the worker: round after round while anything moves, at most 16.
    pub fn turn<R: Wait>(&mut self, rt: &R, links: &mut Ends<Frame>, credits: &mut Ends<Limits>)
        ensures kept { self.new.kept ≡ self.old.kept }
        ensures links { tags_of links.new ≡ tags_of links.old }
        ensures credits { tags_of credits.new ≡ tags_of credits.old }
    {
        for _ in 0..ROUNDS {
            if !self.round(rt, links, credits) {
                break;
            }
        }
    }

    /// All that is its own, for whoever stops the fabric. Its ways to the domains and to the switches are let go.
    pub fn into_parts(self) -> HostParts
        ensures { result ≡ self.parts }
    {
        let HostWork {
            hosts,
            frames: _,
            side,
            bridge: _,
            locks: _,
            strays,
        } = self;
        HostParts {
            hosts,
            side,
            strays,
        }
    }
}
