//! Who takes a packet at a place.

ghost use Rattle.std.specs.Prelude.{◌≡◌};
ghost use Rattle.platform.specs.Tree.{is_switch};
ghost use Rattle.request_handling.specs.Takers.{is_top, taker_above, taker_below, taker_of};

use fab_types::{Bdf, Place, Way};
use layout::Start;
use platform::{DownstreamPort, Switch, is_switch, port_leading_to};

/// Who takes a packet.
#[derive(Clone, Copy)]
pub enum Taker {
    /// The host.
    Host,
    /// This function of the domain.
    Function(Bdf),
    /// This downstream port.
    Port(DownstreamPort),
    /// The upstream port of a switch.
    Upstream,
}

fn is_top(switches: &[Switch], id: Bdf) -> bool
    ensures { result ≡ is_top switches.now id }
{
    switches
        .iter()
        .any(|switch| switch.id == id && switch.above.is_none())
}

fn taker_above(start: &Start, id: Bdf) -> Option<Taker>
    ensures { result ≡ taker_above start.now id }
{
    if is_top(start.switches(), id) {
        Some(Taker::Host)
    } else {
        match port_leading_to(start.ports(), id) {
            Some(port) => Some(Taker::Port(port)),
            None => None,
        }
    }
}

fn taker_below(start: &Start, id: Bdf) -> Option<Taker>
    ensures { result ≡ taker_below start.now id }
{
    if start.owns_function(id) {
        Some(Taker::Function(id))
    } else if is_switch(start.switches(), id) {
        Some(Taker::Upstream)
    } else {
        None
    }
}

/// Who takes a packet at this place, if this domain may have to say so.
pub fn taker_of(start: &Start, place: Place) -> Option<Taker>
    ensures { result ≡ taker_of start.now place }
{
    match place {
        Place::Ingress(direction) => match direction.way {
            Way::Up => taker_above(start, direction.lower),
            Way::Down => taker_below(start, direction.lower),
        },
        Place::Outbox(_) | Place::Egress(_) | Place::Wire(_) => None,
    }
}
