//! Events of a fabric by which packets go on.

use fab_types::{Bdf, Class, Direction, NoMemory, Origin, PortId, Way};
use fabric_core::{Event, Fabric, Station};
use layout::Layout;
use std::alloc::{AllocError, Global};
use sweeps::stations;

/// A direction of the link at whose lower end this ID stands.
pub(crate) fn direction(lower: u16, way: Way) -> Direction {
    Direction {
        lower: Bdf::from_bits(lower),
        way,
    }
}

/// An event by which a packet goes on. IDs are given by their bits, a link by the one at its lower end.
#[derive(Clone, Copy)]
pub(crate) enum Move {
    EnterOfFunction(u16, Class),
    Send(u16, Way, Class),
    Take(u16, Way),
    Credit(u16, Way),
    Pass(u16, Class),
    Root(Class),
    Arrive(u16, Class),
}

impl Move {
    /// The event itself.
    pub(crate) fn event(self) -> Event {
        match self {
            Move::EnterOfFunction(id, class) => {
                Event::Enter(Origin::Function(Bdf::from_bits(id)), class)
            }
            Move::Send(lower, way, class) => Event::Send(direction(lower, way), class),
            Move::Take(lower, way) => Event::Take(direction(lower, way)),
            Move::Credit(lower, way) => Event::Credit(direction(lower, way)),
            Move::Pass(port, class) => Event::Pass(PortId::new(Bdf::from_bits(port)), class),
            Move::Root(class) => Event::Root(class),
            Move::Arrive(id, class) => Event::Arrive(Bdf::from_bits(id), class),
        }
    }
}

/// The function of domain 2 whose moves these are, and the port above it.
pub(crate) const FUNCTION_06: u16 = 0x0600;

const PORT_ABOVE_06: u16 = 0x0500;

/// A read of 06:00.0 in the name of another is stopped by its first port, whose answer comes down to it.
pub(crate) const STOPPED_READ: [Move; 6] = [
    Move::EnterOfFunction(FUNCTION_06, Class::NonPosted),
    Move::Send(FUNCTION_06, Way::Up, Class::NonPosted),
    Move::Take(FUNCTION_06, Way::Up),
    Move::Pass(PORT_ABOVE_06, Class::NonPosted),
    Move::Send(FUNCTION_06, Way::Down, Class::Completion),
    Move::Take(FUNCTION_06, Way::Down),
];

/// The events of a station by which it takes a packet of each class.
fn add_takings(moves: &mut Vec<Event>, station: &Station) -> Result<(), AllocError> {
    for class in [Class::Posted, Class::NonPosted, Class::Completion] {
        moves.push(station.taking(class))?;
    }
    Ok(())
}

/// The events of a link's direction beside.
fn add_arrivals(moves: &mut Vec<Event>, direction: &Direction) -> Result<(), AllocError> {
    moves.push(Event::Take(*direction))?;
    moves.push(Event::Credit(*direction))?;
    Ok(())
}

fn add_moves(moves: &mut Vec<Event>, station: &Station) -> Result<(), AllocError> {
    add_takings(moves, station)?;
    match station {
        Station::Link(direction) => add_arrivals(moves, direction),
        _ => Ok(()),
    }
}

/// The events of a sweep of this layout.
pub(crate) fn sweep_of(alloc: Global, layout: &Layout) -> Result<Vec<Event>, NoMemory> {
    let fabric = Fabric::new(alloc, layout)?;
    let mut moves = Vec::new(alloc);
    for station in &stations(alloc, layout, fabric.domains())? {
        add_moves(&mut moves, station)?;
    }
    Ok(moves)
}
