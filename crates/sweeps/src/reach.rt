//! Where stations take packets, send them and put them, and whom they may wake by that.

ghost use Rattle.std.specs.Prelude.{◌≡◌, None, option_map};
ghost use Rattle.topology.specs.Links.{sender_of};
ghost use Rattle.interconnect.specs.Passes.{index_of, input_of};
ghost use Rattle.sweeps.specs.Waking.{changes_outbox, is_at_node, is_changed_by_credits, is_changed_by_receiving, is_changed_by_taking, is_freed_by_sending, is_host_outbox, is_outbox_of, is_outbox_of_host, is_same_end, node_of, port_node, reach_of};

use fab_types::{Bdf, Direction, DomainId, PortId, Way};
use fabric_core::Station;
use topology::{LinkEnd, Topology};

/// The top switch: the lower end of the link between the host and it.
const TOP_SWITCH: u16 = 0x0100;

/// Where a station takes packets, sends them and puts them. A direction of a link is named by the end that it is sent from.
#[derive(Clone, Copy, Debug, PartialEq, Eq)]
pub(crate) struct Reach {
    /// The direction that brings what it takes.
    pub(crate) takes: Option<LinkEnd>,
    /// The direction on which it sends.
    pub(crate) sends: Option<LinkEnd>,
    /// The node at whose outputs waits what it puts.
    pub(crate) puts: Option<usize>,
}

fn top_link(way: Way) -> Direction
    ensures { result ≡ record { lower = 0x0100; way = way } }
{
    Direction {
        lower: Bdf::from_bits(TOP_SWITCH),
        way,
    }
}

/// The node from which a direction is sent, if there is such a link.
fn node_before(topology: &Topology, direction: Direction) -> Option<usize>
    ensures { result ≡ option_map node_of (sender_of topology.now.links direction) }
{
    Some(topology.sender(direction)?.node)
}

fn reach_of_port(topology: &Topology, port: PortId) -> Reach
    ensures { result ≡ record { takes = input_of topology.now.places port; sends = None; puts = port_node topology.now.places (index_of topology.now.places port) } }
{
    let Some(number) = topology.place_number(port) else {
        return Reach {
            takes: None,
            sends: None,
            puts: None,
        };
    };
    let place = topology.places()[number];
    Reach {
        takes: place.input,
        sends: None,
        puts: Some(place.node),
    }
}

/// The reach of an outbox whose packets leave in this direction.
fn reach_of_outbox(topology: &Topology, direction: Direction) -> Reach
    ensures { result ≡ record { takes = None; sends = None; puts = option_map node_of (sender_of topology.now.links direction) } }
{
    Reach {
        takes: None,
        sends: None,
        puts: node_before(topology, direction),
    }
}

fn is_same_end(one: Option<LinkEnd>, other: Option<LinkEnd>) -> bool
    ensures { result ≡ is_same_end one other }
{
    match (one, other) {
        (Some(one), Some(other)) => one.node == other.node && one.output == other.output,
        _ => false,
    }
}

fn is_at_node(node: Option<usize>, end: Option<LinkEnd>) -> bool
    ensures { result ≡ is_at_node node end }
{
    match (node, end) {
        (Some(node), Some(end)) => node == end.node,
        _ => false,
    }
}

impl Reach {
    /// The reach of a station in a tree. It is none at all where the tree hasn't the station.
    pub(crate) fn of(topology: &Topology, station: &Station) -> Reach
        ensures { result ≡ reach_of topology.now station.now }
    {
        match station {
            Station::FunctionOutbox(function) => reach_of_outbox(
                topology,
                Direction {
                    lower: *function,
                    way: Way::Up,
                },
            ),
            Station::HostOutbox(_) => reach_of_outbox(topology, top_link(Way::Down)),
            Station::Port(port) => reach_of_port(topology, *port),
            Station::Link(direction) => Reach {
                takes: None,
                sends: topology.sender(*direction),
                puts: None,
            },
            Station::Host => Reach {
                takes: topology.sender(top_link(Way::Up)),
                sends: None,
                puts: node_before(topology, top_link(Way::Down)),
            },
            Station::Function(function) => Reach {
                takes: topology.sender(Direction {
                    lower: *function,
                    way: Way::Down,
                }),
                sends: None,
                puts: None,
            },
        }
    }

    /// May a packet that is taken at this reach change what stands at the other?
    /// It is taken at a station of this one, and sent or put from there.
    pub(crate) fn changes_by_taking(&self, other: &Reach) -> bool
        ensures { result ≡ is_changed_by_taking self.now other.now }
    {
        is_same_end(self.takes, other.takes)
            || is_same_end(self.takes, other.sends)
            || is_same_end(self.sends, other.sends)
            || is_at_node(self.puts, other.sends)
    }

    /// May credits that this reach's sender gets back change what stands at the other?
    pub(crate) fn changes_by_updating(&self, other: &Reach) -> bool
        ensures { result ≡ is_changed_by_credits self.now other.now }
    {
        is_same_end(self.sends, other.sends)
    }

    /// May a packet that is received in this reach's direction change what stands at the other?
    pub(crate) fn changes_by_receiving(&self, other: &Reach) -> bool
        ensures { result ≡ is_changed_by_receiving self.now other.now }
    {
        is_same_end(self.sends, other.sends) || is_same_end(self.sends, other.takes)
    }

    /// May a packet that is sent in this reach's direction free a place where the other puts packets?
    pub(crate) fn frees_by_sending(&self, other: &Reach) -> bool
        ensures { result ≡ is_freed_by_sending self.now other.now }
    {
        is_at_node(other.puts, self.sends)
    }
}

fn is_outbox_of(function: Bdf, station: &Station) -> bool
    ensures { result ≡ is_outbox_of function station.now }
{
    match station {
        Station::FunctionOutbox(other) => function == *other,
        Station::HostOutbox(_)
        | Station::Port(_)
        | Station::Link(_)
        | Station::Host
        | Station::Function(_) => false,
    }
}

fn is_outbox_of_host(domain: DomainId, station: &Station) -> bool
    ensures { result ≡ is_outbox_of_host domain station.now }
{
    match station {
        Station::HostOutbox(other) => domain == *other,
        Station::FunctionOutbox(_)
        | Station::Port(_)
        | Station::Link(_)
        | Station::Host
        | Station::Function(_) => false,
    }
}

fn is_host_outbox(station: &Station) -> bool
    ensures { result ≡ is_host_outbox station.now }
{
    matches!(station, Station::HostOutbox(_))
}

/// May the one station put packets into the outbox that the other is?
/// Or may it take one from there?
pub(crate) fn changes_outbox(one: &Station, other: &Station) -> bool
    ensures { result ≡ changes_outbox one.now other.now }
{
    match one {
        Station::FunctionOutbox(function) | Station::Function(function) => {
            is_outbox_of(*function, other)
        }
        Station::HostOutbox(domain) => is_outbox_of_host(*domain, other),
        Station::Host => is_host_outbox(other),
        Station::Port(_) | Station::Link(_) => false,
    }
}
