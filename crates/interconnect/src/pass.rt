//! The turn of a port among all directions of links.

ghost use Rattle.std.specs.Prelude.{◌≡◌, ◌≢◌, ◌<◌, ◌+◌, [], IfSome, length, map, slice_index_or};
ghost use Rattle.port.specs.Turns.{sight_with};
ghost use Rattle.topology.specs.Topologies.{IsEnd};
ghost use Rattle.interconnect.specs.Passes.{NodesTurned, Turned, before, behind, egress_of, index_of, may_refuse_of, passed_over, received_by, refused_by, sent_by, sight_at};
ghost use Rattle.interconnect.specs.Moves.{channel_at};
ghost use Rattle.interconnect.specs.Views.{channels_of};

use crate::node::Node;
use bridge::Bridge;
use fab_types::{Class, Outcome, PortId};
use lane::{Desk, Reporter};
use link::Simplex;
use port::{Port, TurnParts};
use topology::{LinkEnd, Topology};

/// Which of the ports has this ID.
pub(crate) fn index_of(topology: &Topology, id: PortId) -> Option<usize>
    ensures value { result ≡ index_of topology.now.places id }
    ensures within { IfSome result (λ i. i < length topology.now.places) }
{
    topology.place_number(id)
}

/// The turn of a port between a direction that leads into it and those that lead out of its switch.
fn turn_between<'a, D: Desk, R: Reporter>(
    port: &mut Port,
    class: Class,
    bridge: &'a Bridge,
    input: &'a mut Simplex,
    outs: &'a mut [Simplex],
    desk: &'a mut D,
    reporter: &'a mut R,
) -> Outcome
    requires { length outs.old ≡ length port.old.config.exits + 1 }
    ensures turned { Turned D.refuses D.unknown D.wants R.is_sure bridge.now class result port.old port.new (map may_refuse_of outs.old)
        (sight_with (received_by input.old) (map sent_by outs.old) (D.known desk.old) (R.reported reporter.old) port.old)
        (sight_with (received_by input.new) (map sent_by outs.new) (D.known desk.new) (R.reported reporter.new) port.new) }
    ensures input { behind input.new ≡ behind input.old }
    ensures outs { map before outs.new ≡ map before outs.old }
{
    let mut parts = TurnParts {
        bridge,
        input,
        outs,
        desk,
        reporter,
    };
    port.turn(class, &mut parts)
}

/// The same between two nodes.
fn turn_nodes<'a, D: Desk, R: Reporter>(
    port: &mut Port,
    class: Class,
    bridge: &'a Bridge,
    from: &'a mut Node,
    output: usize,
    to: &'a mut Node,
    desk: &'a mut D,
    reporter: &'a mut R,
) -> Outcome
    requires output { output < length from.old }
    requires outputs { length to.old ≡ length port.old.config.exits + 1 }
    ensures turned { NodesTurned D.refuses D.unknown D.wants R.is_sure bridge.now class result output (D.known desk.old) (D.known desk.new) (R.reported reporter.old) (R.reported reporter.new) port.old port.new from.old from.new to.old to.new }
{
    turn_between(
        port,
        class,
        bridge,
        &mut from.outputs[output],
        &mut to.outputs,
        desk,
        reporter,
    )
}

/// The turn of a port at a node.
/// Packets come into it that are sent from an end of another node.
pub(crate) fn turn_at<'a, D: Desk, R: Reporter>(
    port: &mut Port,
    class: Class,
    bridge: &'a Bridge,
    nodes: &'a mut [Node],
    node: usize,
    input: LinkEnd,
    desk: &'a mut D,
    reporter: &'a mut R,
) -> Outcome
    requires there { IsEnd (map length nodes.old) input }
    requires node { node < length nodes.old }
    requires apart { input.node ≢ node }
    requires outputs { length (slice_index_or nodes.old node []) ≡ length port.old.config.exits + 1 }
    ensures turned { Turned D.refuses D.unknown D.wants R.is_sure bridge.now class result port.old port.new (map refused_by (slice_index_or (channels_of nodes.old) node []))
        (sight_at (channels_of nodes.old) node input (D.known desk.old) (R.reported reporter.old) port.old)
        (sight_at (channels_of nodes.new) node input (D.known desk.new) (R.reported reporter.new) port.new) }
    ensures channels { channels_of nodes.new ≡ passed_over (channels_of nodes.old) node input (channel_at (channels_of nodes.new) input).ingress (map egress_of (slice_index_or (channels_of nodes.new) node [])) }
    ensures lengths { map length nodes.new ≡ map length nodes.old }
{
    if input.node < node {
        let (front, back) = nodes.split_at_mut(node);
        turn_nodes(
            port,
            class,
            bridge,
            &mut front[input.node],
            input.output,
            &mut back[0],
            desk,
            reporter,
        )
    } else {
        let (front, back) = nodes.split_at_mut(input.node);
        turn_nodes(
            port,
            class,
            bridge,
            &mut back[0],
            input.output,
            &mut front[node],
            desk,
            reporter,
        )
    }
}
