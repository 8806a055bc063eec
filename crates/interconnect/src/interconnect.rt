//! The links and switches of a layout.

ghost use Rattle.std.specs.Prelude.{◌≡◌, IfOk, IfSome, MatchBool, None, Some, false};
ghost use Rattle.std.specs.List.{list_all};
ghost use Rattle.fab_types.specs.declared.class.Class.{Class};
ghost use Rattle.credit.specs.Limits.{at};
ghost use Rattle.platform.specs.Share.{is_guarded_port};
ghost use Rattle.link.specs.Channels.{deliver, send, update_fc};
ghost use Rattle.lane.specs.Lanes.{eligible};
ghost use Rattle.topology.specs.Links.{sender_of};
ghost use Rattle.topology.specs.Topologies.{IsEnd};
ghost use Rattle.interconnect.specs.Kept.{IsInterconnect};
ghost use Rattle.interconnect.specs.Misrouted.{misrouted_at};
ghost use Rattle.interconnect.specs.Moves.{on_channel};
ghost use Rattle.interconnect.specs.Passes.{Passes, index_of, input_of};
ghost use Rattle.interconnect.specs.Quiet.{is_quiet_at, none_received_at};
ghost use Rattle.interconnect.specs.Starts.{start_of};
ghost use Rattle.interconnect.specs.Views.{IsSameRest, channels};

use crate::misrouted::{Misrouted, misrouted_by};
use crate::node::Node;
use crate::outputs::{
    deliver_at, head_at, is_ingress_empty_at, is_quiet_at, send_at, update_fc_at,
};
use crate::pass::{index_of, turn_at};
use crate::start::{nodes_of, ports_of};
use crate::waits::{KnownCourse, none_known};
use bridge::Bridge;
use fab_types::{Class, Direction, NoMemory, Outcome, PortId};
use lane::{Desk, Reporter};
use layout::Layout;
use port::Port;
use std::alloc::Global;
use std::marker::Model;
use topology::{Link, LinkEnd, Topology};

/// The links and switches of a layout (PCIe 4.0, 1.3).
/// It has what waits and travels on each direction of each link, and the ports of the switches. A contract sees
/// a `InterconnectView`.
#[derive(Drop)]
pub struct Interconnect {
    pub(crate) topology: Topology,
    pub(crate) bridge: Bridge,
    pub(crate) nodes: Vec<Node>,
    pub(crate) ports: Vec<Port>,
    // by port: the course of the packet that it was last asked for
    pub(crate) courses: Vec<Option<KnownCourse>>,
}

impl Model for Interconnect {
    ghost use Rattle.interconnect.specs.Views.{InterconnectView};

    ghost Value = { InterconnectView };

    ghost use Rattle.interconnect.specs.Kept.{IsKept, interconnect_view};

    ghost view = { interconnect_view };

    ghost invariant = { IsKept };
}

impl Interconnect {
    /// The interconnect of a layout, in which nothing waits. It answers `NoMemory` where memory was refused.
    pub fn new(alloc: Global, layout: &Layout) -> Result<Interconnect, NoMemory>
        ensures start { IfOk result (λ interconnect. interconnect ≡ start_of layout.now) }
        ensures kept { IfOk result (λ interconnect. IsInterconnect interconnect) }
    {
        // for the proof: what holds of every platform
        let _ = layout.ports();
        let ports = ports_of(alloc, layout)?;
        Ok(Interconnect {
            topology: Topology::new(alloc, layout)?,
            bridge: Bridge::new(alloc, layout)?,
            nodes: nodes_of(alloc, layout)?,
            courses: none_known(alloc, &ports)?,
            ports,
        })
    }

    /// By which port a packet leaves a switch of the layout, and who owns what.
    pub fn bridge(&self) -> &Bridge
        ensures { result.now ≡ self.now.routes }
    {
        &self.bridge
    }

    /// Are all five ACS controls set on each downstream port (PCIe 4.0, 6.12.1)?
    pub fn is_guarded(&self) -> bool
        ensures { result ≡ list_all is_guarded_port (self.now.routes).ports }
    {
        self.bridge.is_guarded()
    }

    /// The links of the layout, each with its two ends.
    pub fn links(&self) -> &[Link]
        ensures { result.now ≡ (self.now.tree).links }
    {
        self.topology.links()
    }

    /// Where the packets of this direction are sent from, if there is such a link.
    pub fn sender(&self, direction: Direction) -> Option<LinkEnd>
        ensures value { result ≡ sender_of (self.now.tree).links direction }
        ensures end { IfSome result (λ end. IsEnd (self.now.tree).outputs end) }
    {
        self.topology.sender(direction)
    }

    /// Puts the eligible packet of a class on the wire of a direction.
    /// That spends its credits (PCIe 4.0, 2.6.1). It answers false, and changes nothing, where no packet is
    /// eligible, where there are too few credits, and where there is no such link.
    pub fn send(&mut self, direction: Direction, class: Class) -> bool
        ensures moved { MatchBool result (on_channel (channels self.old) (sender_of (self.old.tree).links direction) (send class) ≡ Some (channels self.new))
            ((on_channel (channels self.old) (sender_of (self.old.tree).links direction) (send class) ≡ None) × (channels self.new ≡ channels self.old)) }
        ensures rest { IsSameRest self.old self.new }
    {
        match self.topology.sender(direction) {
            Some(end) => send_at(&mut self.nodes, end, class),
            None => false,
        }
    }

    /// The oldest packet on the wire of a direction reaches the receiver. It answers false, and changes
    /// nothing, where the wire is empty, and where there is no such link.
    pub fn deliver(&mut self, direction: Direction) -> bool
        ensures moved { MatchBool result (on_channel (channels self.old) (sender_of (self.old.tree).links direction) deliver ≡ Some (channels self.new))
            ((on_channel (channels self.old) (sender_of (self.old.tree).links direction) deliver ≡ None) × (channels self.new ≡ channels self.old)) }
        ensures rest { IsSameRest self.old self.new }
    {
        match self.topology.sender(direction) {
            Some(end) => deliver_at(&mut self.nodes, end),
            None => false,
        }
    }

    /// The sender of a direction learns the receiver's present credits. It answers false, and changes
    /// nothing, where it knows them, and where there is no such link.
    pub fn update_fc(&mut self, direction: Direction) -> bool
        ensures moved { MatchBool result (on_channel (channels self.old) (sender_of (self.old.tree).links direction) update_fc ≡ Some (channels self.new))
            ((on_channel (channels self.old) (sender_of (self.old.tree).links direction) update_fc ≡ None) × (channels self.new ≡ channels self.old)) }
        ensures rest { IsSameRest self.old self.new }
    {
        match self.topology.sender(direction) {
            Some(end) => update_fc_at(&mut self.nodes, end),
            None => false,
        }
    }

    /// Can nothing happen on this direction by itself?
    /// That is, before a packet is put at its sender or taken at its receiver. No packet may be sent, whatever
    /// its class, none travels, and the sender knows the receiver's present credits; or there is no such link.
    pub fn is_quiet(&self, direction: Direction) -> bool
        ensures { result ≡ is_quiet_at (channels self.now) (sender_of (self.now.tree).links direction) }
    {
        match self.topology.sender(direction) {
            Some(end) => is_quiet_at(&self.nodes, end),
            None => true,
        }
    }

    /// Did this direction bring nothing that may leave its receiver, whatever its class? So it is too where there is no
    /// such link.
    pub fn is_ingress_empty(&self, direction: Direction) -> bool
        ensures { result ≡ none_received_at (channels self.now) (sender_of (self.now.tree).links direction) }
    {
        match self.topology.sender(direction) {
            Some(end) => is_ingress_empty_at(&self.nodes, end),
            None => true,
        }
    }

    /// Did nothing come into this port that may leave its queue?
    /// That is asked of all classes. So it is too where there is no port of this ID, and where nothing stands
    /// at the other end of its link.
    pub fn is_input_empty(&self, id: PortId) -> bool
        ensures { result ≡ none_received_at (channels self.now) (input_of (self.now.tree).places id) }
    {
        let Some(end) = self.input(id) else {
            return true;
        };
        is_ingress_empty_at(&self.nodes, end)
    }

    /// Where the packets that come into the port of this ID are sent from. None where there is no such port, and
    /// where nothing stands at the other end of its link.
    pub fn input(&self, id: PortId) -> Option<LinkEnd>
        ensures value { result ≡ input_of (self.now.tree).places id }
        ensures end { IfSome result (λ end. IsEnd (self.now.tree).outputs end) }
    {
        let index = index_of(&self.topology, id)?;
        self.topology.places()[index].input
    }

    /// What the port of this ID is about to misroute, if anything.
    /// That is the eligible packet of a class that came into it and that it has no case for. None where the
    /// packet goes on or is stopped by the port, where no packet is eligible, and where there is no such port
    /// or nothing comes into it.
    pub fn misrouted_at(&mut self, id: PortId, class: Class) -> Option<Misrouted>
        ensures value { result ≡ misrouted_at self.old id class }
        ensures input { IfSome result (λ misrouted. IsEnd (self.old.tree).outputs misrouted.input) }
        ensures own { IfSome result (λ misrouted. IsEnd (self.old.tree).outputs misrouted.own) }
        ensures same { channels self.new ≡ channels self.old }
        ensures rest { IsSameRest self.old self.new }
    {
        let index = index_of(&self.topology, id)?;
        let place = self.topology.places()[index];
        let input = place.input?;
        let Some(head) = head_at(&mut self.nodes, input, class) else {
            return None;
        };
        misrouted_by(&self.ports[index], &self.bridge, place.node, input, &head)
    }

    /// The turn of the port of this ID, as `Port::turn` does it.
    /// Packets come into it from the receiver of the direction that leads there, and go into the senders of its
    /// switch. `Idle` where there is no such port, and where nothing stands at the other end of its link.
    pub fn pass<D: Desk, R: Reporter>(
        &mut self,
        id: PortId,
        class: Class,
        desk: &mut D,
        reporter: &mut R,
    ) -> Outcome
        ensures { Passes D.refuses D.unknown D.wants R.is_sure class result (D.known desk.old) (D.known desk.new) (R.reported reporter.old) (R.reported reporter.new) self.old self.new (index_of self.old.tree.places id) }
    {
        let Some(index) = index_of(&self.topology, id) else {
            return Outcome::Idle;
        };
        let place = self.topology.places()[index];
        let Some(input) = place.input else {
            return Outcome::Idle;
        };
        turn_at(
            &mut self.ports[index],
            class,
            &self.bridge,
            &mut self.nodes,
            place.node,
            input,
            desk,
            reporter,
        )
    }
}
