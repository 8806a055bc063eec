//! Where packets wait or travel in a fabric.

ghost use Rattle.std.specs.Prelude.{◌≡◌, true};
ghost use Rattle.fabric_core.specs.Events.{takes_packet};
ghost use Rattle.fabric_core.specs.Stations.{taking};

use crate::event::Event;
use fab_types::{Bdf, Class, Direction, DomainId, Origin, PortId};

/// Where packets wait or travel in a fabric. The events there take a packet of each class in turn; on a direction of a
/// link the oldest packet is then received, and credits are returned to the sender.
#[derive(Clone, Copy, Debug, PartialEq, Eq)]
pub enum Station {
    /// The outbox of this function, from which packets enter its link.
    FunctionOutbox(Bdf),
    /// The outbox of the host of this domain.
    /// From it packets enter the link to the top switch.
    HostOutbox(DomainId),
    /// This port, by which the packets pass that came into it.
    Port(PortId),
    /// This direction of a link, on which packets are sent.
    Link(Direction),
    /// The host, which takes what came to it.
    Host,
    /// This function, which takes what came to it.
    Function(Bdf),
}

impl Station {
    /// The event by which a packet of this class is taken there.
    pub fn taking(&self, class: Class) -> Event
        ensures value { result ≡ taking self.now class }
        ensures takes { takes_packet result ≡ true }
    {
        match self {
            Station::FunctionOutbox(function) => Event::Enter(Origin::Function(*function), class),
            Station::HostOutbox(domain) => Event::Enter(Origin::Host(*domain), class),
            Station::Port(port) => Event::Pass(*port, class),
            Station::Link(direction) => Event::Send(*direction, class),
            Station::Host => Event::Root(class),
            Station::Function(function) => Event::Arrive(*function, class),
        }
    }
}
