//! What happens to one direction of a link, among all.

ghost use Rattle.std.specs.Prelude.{◌≡◌, ◌≤◌, ◌++◌, IfSome, IsSome, List, MatchBool, MatchOption, None, Some, false, length, map, option_map, slice_get};
ghost use Rattle.fab_types.specs.declared.class.Class.{Class};
ghost use Rattle.credit.specs.Kinds.{Kind};
ghost use Rattle.credit.specs.Limits.{MayStart, at};
ghost use Rattle.frame_log.specs.Descriptor.{Descriptor};
ghost use Rattle.link.specs.Channels.{IsCovered, count_in, is_full, deliver, send, update_fc};
ghost use Rattle.link.specs.Simplexes.{channel, simplex_restored};
ghost use Rattle.lane.specs.Lanes.{class_of, eligible};
ghost use Rattle.topology.specs.Topologies.{IsEnd};
ghost use Rattle.interconnect.specs.Moves.{channel_at, left_at, on_channel, put_at};
ghost use Rattle.interconnect.specs.Quiet.{is_quiet_at, none_received_at};
ghost use Rattle.interconnect.specs.Views.{channels_of, simplex_at};

use crate::node::Node;
use credit::Limits;
use fab_types::{Class, DomainId, Head};
use frame_log::Frame;
use lane::LaneIn;
use link::Simplex;
use topology::LinkEnd;

/// The direction that is sent from an end.
pub(crate) fn direction_at(nodes: &[Node], end: LinkEnd) -> &Simplex
    requires { IsEnd (map length nodes.now) end }
    ensures { channel result.now ≡ channel_at (channels_of nodes.now) end }
{
    let node = &nodes[end.node];
    &node.outputs[end.output]
}

pub(crate) fn send_at(nodes: &mut [Node], end: LinkEnd, class: Class) -> bool
    requires { IsEnd (map length nodes.old) end }
    ensures moved { MatchBool result (on_channel (channels_of nodes.old) (Some end) (send class) ≡ Some (channels_of nodes.new))
        ((on_channel (channels_of nodes.old) (Some end) (send class) ≡ None) × (channels_of nodes.new ≡ channels_of nodes.old)) }
    ensures outputs { map length nodes.new ≡ map length nodes.old }
{
    let node = &mut nodes[end.node];
    node.outputs[end.output].send(class)
}

pub(crate) fn deliver_at(nodes: &mut [Node], end: LinkEnd) -> bool
    requires { IsEnd (map length nodes.old) end }
    ensures moved { MatchBool result (on_channel (channels_of nodes.old) (Some end) deliver ≡ Some (channels_of nodes.new))
        ((on_channel (channels_of nodes.old) (Some end) deliver ≡ None) × (channels_of nodes.new ≡ channels_of nodes.old)) }
    ensures outputs { map length nodes.new ≡ map length nodes.old }
{
    let node = &mut nodes[end.node];
    node.outputs[end.output].deliver()
}

pub(crate) fn update_fc_at(nodes: &mut [Node], end: LinkEnd) -> bool
    requires { IsEnd (map length nodes.old) end }
    ensures moved { MatchBool result (on_channel (channels_of nodes.old) (Some end) update_fc ≡ Some (channels_of nodes.new))
        ((on_channel (channels_of nodes.old) (Some end) update_fc ≡ None) × (channels_of nodes.new ≡ channels_of nodes.old)) }
    ensures outputs { map length nodes.new ≡ map length nodes.old }
{
    let node = &mut nodes[end.node];
    node.outputs[end.output].update_fc()
}

/// The credits that the sender at an end knows to be left.
pub(crate) fn credits_at(nodes: &[Node], end: LinkEnd) -> Limits
    requires { IsEnd (map length nodes.now) end }
    ensures value { result ≡ (channel_at (channels_of nodes.now) end).left }
    ensures start { MayStart (channel_at (channels_of nodes.now) end).start }
    ensures covered { IsCovered (channel_at (channels_of nodes.now) end) }
    ensures within { (k : Kind) → at (channel_at (channels_of nodes.now) end).left k ≤ at (channel_at (channels_of nodes.now) end).start k }
    ensures places { (class : Class) → count_in class ((channel_at (channels_of nodes.now) end).wire ++ (channel_at (channels_of nodes.now) end).ingress) ≤ 127 }
{
    let node = &nodes[end.node];
    node.outputs[end.output].left()
}

/// The domain that made the eligible packet of a class at the sender of an end.
pub(crate) fn home_sent_at(nodes: &[Node], end: LinkEnd, class: Class) -> Option<DomainId>
    requires { IsEnd (map length nodes.now) end }
    ensures { result ≡ option_map (λ taken. taken.0.domain) (eligible class (channel_at (channels_of nodes.now) end).egress) }
{
    let node = &nodes[end.node];
    node.outputs[end.output].home_sent(class)
}

/// The domain that made the oldest packet on the wire of an end.
pub(crate) fn home_travelling_at(nodes: &[Node], end: LinkEnd) -> Option<DomainId>
    requires { IsEnd (map length nodes.now) end }
    ensures { result ≡ option_map (λ frame. frame.domain) (slice_get (channel_at (channels_of nodes.now) end).wire 0) }
{
    let node = &nodes[end.node];
    node.outputs[end.output].home_travelling()
}

/// The domain that made the eligible packet of a class at the receiver of an end.
pub(crate) fn home_received_at(nodes: &[Node], end: LinkEnd, class: Class) -> Option<DomainId>
    requires { IsEnd (map length nodes.now) end }
    ensures { result ≡ option_map (λ taken. taken.0.domain) (eligible class (channel_at (channels_of nodes.now) end).ingress) }
{
    let node = &nodes[end.node];
    node.outputs[end.output].home_received(class)
}

/// May no packet leave the receiver of an end, whatever its class?
pub(crate) fn is_ingress_empty_at(nodes: &[Node], end: LinkEnd) -> bool
    requires { IsEnd (map length nodes.now) end }
    ensures { result ≡ none_received_at (channels_of nodes.now) (Some end) }
{
    let node = &nodes[end.node];
    node.outputs[end.output].is_ingress_empty()
}

/// Can nothing happen on the direction of an end by itself?
/// That is, before a packet is put at its sender or taken at its receiver.
pub(crate) fn is_quiet_at(nodes: &[Node], end: LinkEnd) -> bool
    requires { IsEnd (map length nodes.now) end }
    ensures { result ≡ is_quiet_at (channels_of nodes.now) (Some end) }
{
    let node = &nodes[end.node];
    node.outputs[end.output].is_quiet()
}

pub(crate) fn head_at(nodes: &mut [Node], end: LinkEnd, class: Class) -> Option<Head>
    requires { IsEnd (map length nodes.old) end }
    ensures found { result ≡ option_map (λ taken. taken.0.head) (eligible class (channel_at (channels_of nodes.old) end).ingress) }
    ensures same { channels_of nodes.new ≡ channels_of nodes.old }
    ensures outputs { map length nodes.new ≡ map length nodes.old }
{
    let node = &mut nodes[end.node];
    node.outputs[end.output].head(class)
}

pub(crate) fn take_at(nodes: &mut [Node], end: LinkEnd, class: Class) -> Option<Frame>
    requires { IsEnd (map length nodes.old) end }
    ensures taken { MatchOption result ((eligible class (channel_at (channels_of nodes.old) end).ingress ≡ None) × (channels_of nodes.new ≡ channels_of nodes.old))
        (λ frame. (waiting : List Descriptor) × (eligible class (channel_at (channels_of nodes.old) end).ingress ≡ Some (frame, waiting)) × (channels_of nodes.new ≡ left_at (channels_of nodes.old) end waiting)) }
    ensures restores { IfSome result (λ frame. simplex_restored (simplex_at nodes.new end) frame ≡ Some (channel_at (channels_of nodes.old) end).ingress) }
    ensures outputs { map length nodes.new ≡ map length nodes.old }
{
    let node = &mut nodes[end.node];
    node.outputs[end.output].take(class)
}

pub(crate) fn put_back_at(nodes: &mut [Node], end: LinkEnd, frame: Frame)
    requires end { IsEnd (map length nodes.old) end }
    requires taken { IsSome (simplex_restored (simplex_at nodes.old end) frame) }
    ensures waiting { (waiting : List Descriptor) → simplex_restored (simplex_at nodes.old end) frame ≡ Some waiting → channels_of nodes.new ≡ left_at (channels_of nodes.old) end waiting }
    ensures outputs { map length nodes.new ≡ map length nodes.old }
{
    let node = &mut nodes[end.node];
    node.outputs[end.output].put_back(frame);
}

pub(crate) fn is_full_at(nodes: &mut [Node], end: LinkEnd, class: Class) -> bool
    requires { IsEnd (map length nodes.old) end }
    ensures full { result ≡ is_full class (channel_at (channels_of nodes.old) end) }
    ensures same { channels_of nodes.new ≡ channels_of nodes.old }
    ensures outputs { map length nodes.new ≡ map length nodes.old }
{
    let node = &mut nodes[end.node];
    node.outputs[end.output].is_full(class)
}

pub(crate) fn put_at(nodes: &mut [Node], end: LinkEnd, frame: Frame)
    requires end { IsEnd (map length nodes.old) end }
    requires place { is_full (class_of frame) (channel_at (channels_of nodes.old) end) ≡ false }
    ensures put { channels_of nodes.new ≡ put_at (channels_of nodes.old) end frame }
    ensures outputs { map length nodes.new ≡ map length nodes.old }
{
    let node = &mut nodes[end.node];
    node.outputs[end.output].put(frame);
}
