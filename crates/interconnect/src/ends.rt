//! What waits at the ends of directions.

ghost use Rattle.std.specs.Prelude.{◌≡◌, ◌≤◌, ◌++◌, IfSome, IsSome, List, MatchOption, None, Some, false, option_map, slice_get};
ghost use Rattle.fab_types.specs.declared.class.Class.{Class};
ghost use Rattle.credit.specs.Kinds.{Kind};
ghost use Rattle.credit.specs.Limits.{MayStart, at};
ghost use Rattle.frame_log.specs.Descriptor.{Descriptor};
ghost use Rattle.link.specs.Channels.{IsCovered, count_in, is_full};
ghost use Rattle.link.specs.Simplexes.{channel, simplex_restored};
ghost use Rattle.lane.specs.Lanes.{class_of, eligible};
ghost use Rattle.topology.specs.Topologies.{IsEnd};
ghost use Rattle.interconnect.specs.Moves.{channel_at, left_at, put_at};
ghost use Rattle.interconnect.specs.Views.{IsSameRest, channels, simplex_at};

use crate::interconnect::Interconnect;
use crate::outputs::{
    credits_at, direction_at, head_at, home_received_at, home_sent_at, home_travelling_at,
    is_full_at, put_at, put_back_at, take_at,
};
use credit::Limits;
use fab_types::{Class, DomainId, Head};
use frame_log::Frame;
use link::Simplex;
use topology::LinkEnd;

impl Interconnect {
    /// The direction of a link that is sent from this end.
    /// It has what waits and travels there.
    pub fn direction_at(&self, end: LinkEnd) -> &Simplex
        requires { IsEnd (self.now.tree).outputs end }
        ensures { channel result.now ≡ channel_at (channels self.now) end }
    {
        direction_at(&self.nodes, end)
    }

    /// The credits that the sender at this end knows to be left (PCIe 4.0, 2.6.1). In every interconnect they and
    /// the cost of all that travels and waits at the receiver are within the start, so no more than 127 packets
    /// of a class are ever there.
    pub fn credits_at(&self, end: LinkEnd) -> Limits
        requires { IsEnd (self.now.tree).outputs end }
        ensures value { result ≡ (channel_at (channels self.now) end).left }
        ensures start { MayStart (channel_at (channels self.now) end).start }
        ensures covered { IsCovered (channel_at (channels self.now) end) }
        ensures within { (k : Kind) → at (channel_at (channels self.now) end).left k ≤ at (channel_at (channels self.now) end).start k }
        ensures places { (class : Class) → count_in class ((channel_at (channels self.now) end).wire ++ (channel_at (channels self.now) end).ingress) ≤ 127 }
    {
        credits_at(&self.nodes, end)
    }

    /// The domain that made a class's eligible packet at the sender of this end.
    pub fn home_sent_at(&self, end: LinkEnd, class: Class) -> Option<DomainId>
        requires { IsEnd (self.now.tree).outputs end }
        ensures { result ≡ option_map (λ taken. taken.0.domain) (eligible class (channel_at (channels self.now) end).egress) }
    {
        home_sent_at(&self.nodes, end, class)
    }

    /// The domain that made the oldest packet on the wire.
    /// The wire is that of the direction that is sent from this end.
    pub fn home_travelling_at(&self, end: LinkEnd) -> Option<DomainId>
        requires { IsEnd (self.now.tree).outputs end }
        ensures { result ≡ option_map (λ frame. frame.domain) (slice_get (channel_at (channels self.now) end).wire 0) }
    {
        home_travelling_at(&self.nodes, end)
    }

    /// The domain that made the eligible packet of a class at the receiver.
    /// The packet waits at the receiver of the direction that is sent from this end.
    pub fn home_received_at(&self, end: LinkEnd, class: Class) -> Option<DomainId>
        requires { IsEnd (self.now.tree).outputs end }
        ensures { result ≡ option_map (λ taken. taken.0.domain) (eligible class (channel_at (channels self.now) end).ingress) }
    {
        home_received_at(&self.nodes, end, class)
    }

    /// What ports read of the eligible packet of a class at the receiver.
    /// The packet waits at the receiver of the direction that is sent from this end.
    pub fn head_at(&mut self, end: LinkEnd, class: Class) -> Option<Head>
        requires { IsEnd (self.old.tree).outputs end }
        ensures found { result ≡ option_map (λ taken. taken.0.head) (eligible class (channel_at (channels self.old) end).ingress) }
        ensures same { channels self.new ≡ channels self.old }
        ensures rest { IsSameRest self.old self.new }
    {
        head_at(&mut self.nodes, end, class)
    }

    /// Takes that packet, and frees its credits.
    pub fn take_at(&mut self, end: LinkEnd, class: Class) -> Option<Frame>
        requires { IsEnd (self.old.tree).outputs end }
        ensures taken { MatchOption result ((eligible class (channel_at (channels self.old) end).ingress ≡ None) × (channels self.new ≡ channels self.old))
            (λ frame. (waiting : List Descriptor) × (eligible class (channel_at (channels self.old) end).ingress ≡ Some (frame, waiting)) × (channels self.new ≡ left_at (channels self.old) end waiting)) }
        ensures restores { IfSome result (λ frame. simplex_restored (simplex_at self.new.nodes end) frame ≡ Some (channel_at (channels self.old) end).ingress) }
        ensures rest { IsSameRest self.old self.new }
    {
        take_at(&mut self.nodes, end, class)
    }

    /// Puts the packet back that `take_at` took, right after it.
    pub fn put_back_at(&mut self, end: LinkEnd, frame: Frame)
        requires end { IsEnd (self.old.tree).outputs end }
        requires taken { IsSome (simplex_restored (simplex_at self.old.nodes end) frame) }
        ensures waiting { (waiting : List Descriptor) → simplex_restored (simplex_at self.old.nodes end) frame ≡ Some waiting → channels self.new ≡ left_at (channels self.old) end waiting }
        ensures rest { IsSameRest self.old self.new }
    {
        put_back_at(&mut self.nodes, end, frame);
    }

    /// Has the sender at this end no place for a packet of the class?
    pub fn is_full_at(&mut self, end: LinkEnd, class: Class) -> bool
        requires { IsEnd (self.old.tree).outputs end }
        ensures full { result ≡ is_full class (channel_at (channels self.old) end) }
        ensures same { channels self.new ≡ channels self.old }
        ensures rest { IsSameRest self.old self.new }
    {
        is_full_at(&mut self.nodes, end, class)
    }

    /// Puts a packet behind the others of the sender at this end.
    /// The sender has a place for it.
    pub fn put_at(&mut self, end: LinkEnd, frame: Frame)
        requires end { IsEnd (self.old.tree).outputs end }
        requires place { is_full (class_of frame) (channel_at (channels self.old) end) ≡ false }
        ensures put { channels self.new ≡ put_at (channels self.old) end frame }
        ensures rest { IsSameRest self.old self.new }
    {
        put_at(&mut self.nodes, end, frame);
    }
}
