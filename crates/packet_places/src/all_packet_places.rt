//! All places of a fabric.

ghost use Rattle.std.specs.Prelude.{◌≡◌, ◌++◌, IfOk, OnOk, map};
ghost use Rattle.std.specs.List.{flat_map};
ghost use Rattle.fab_types.specs.declared.place.Place.TheVariants as place;
ghost use Rattle.domains.specs.Agents.{AreFound};
ghost use Rattle.packet_places.specs.Standing.{down, up};
ghost use Rattle.packet_places.specs.PacketPlaces.{all_packet_places, places_of_link};

use domains::Agents;
use fab_types::{Bdf, Direction, NoMemory, Origin, Place, Way};
use interconnect::Interconnect;
use std::alloc::{AllocError, Global};
use topology::Link;

fn up(lower: Bdf) -> Direction
    ensures { result ≡ up lower }
{
    Direction {
        lower,
        way: Way::Up,
    }
}

fn down(lower: Bdf) -> Direction
    ensures { result ≡ down lower }
{
    Direction {
        lower,
        way: Way::Down,
    }
}

/// The places of a link in both directions, each way from the receiver back to the sender.
fn places_of_link(link: &Link) -> [Place; 6]
    ensures { result ≡ places_of_link link.now }
{
    let lower = link.lower;
    [
        Place::Ingress(up(lower)),
        Place::Wire(up(lower)),
        Place::Egress(up(lower)),
        Place::Ingress(down(lower)),
        Place::Wire(down(lower)),
        Place::Egress(down(lower)),
    ]
}

fn add_places_of_links(places: &mut Vec<Place>, links: &[Link]) -> Result<(), AllocError>
    ensures { OnOk result (places.new.items ≡ places.old.items ++ flat_map places_of_link links.now) }
{
    for link in links {
        places.extend_from_slice(&places_of_link(link))?;
    }
    Ok(())
}

fn add_outboxes(places: &mut Vec<Place>, origins: &[Origin]) -> Result<(), AllocError>
    ensures { OnOk result (places.new.items ≡ places.old.items ++ map place.Outbox origins.now) }
{
    for origin in origins {
        places.push(Place::Outbox(*origin))?;
    }
    Ok(())
}

/// The outboxes, and the queues and wires of each link.
pub(crate) fn all_packet_places(
    interconnect: &Interconnect,
    agents: &Agents,
    alloc: Global,
) -> Result<Vec<Place>, NoMemory>
    ensures value { IfOk result (λ places. places.items ≡ all_packet_places (interconnect.now.tree).links agents.now.outboxes) }
    ensures found { AreFound agents.now.outboxes }
{
    let mut places = Vec::new(alloc);
    add_outboxes(&mut places, &agents.origins(alloc)?)?;
    add_places_of_links(&mut places, interconnect.links())?;
    Ok(places)
}
