//! The tree of a layout.

ghost use Rattle.std.specs.Prelude.{◌≡◌, ◌==◌, ◌<◌, ◌≤◌, IfOk, IfSome, length};
ghost use Rattle.std.specs.List.{position, position_or_len};
ghost use Rattle.std.specs.Option.{option_copied};
ghost use Rattle.fab_types.specs.Id.{bus_of};
ghost use Rattle.topology.specs.FirstIndexes.{firsts_of, link_buses, place_slots, slot_of};
ghost use Rattle.topology.specs.Nodes.{outputs_of};
ghost use Rattle.topology.specs.Links.{link_at, sender_of};
ghost use Rattle.topology.specs.Topologies.{IsTree, tree_of};

use crate::first_index::FirstIndex;
use crate::links::{Link, links_of};
use crate::nodes::{LinkEnd, outputs_of_switch};
use crate::places::{PortPlace, places_of};
use fab_types::{Bdf, Direction, NoMemory, PortId};
use layout::Layout;
use std::alloc::Global;
use std::iter::once;
use std::marker::Model;

/// Where the links of a layout lead, and where the ports of its switches stand. A contract sees a `Tree`.
#[derive(Drop)]
pub struct Topology {
    // how many outputs lead out of each node, by which contracts say which ends there are
    outputs: Vec<usize>,
    links: Vec<Link>,
    places: Vec<PortPlace>,
    links_by_bus: FirstIndex,
    places_by_slot: FirstIndex,
}

impl Model for Topology {
    ghost use Rattle.topology.specs.Topologies.{Tree, IsIndexed, topology_view};

    ghost Value = { Tree };

    ghost view = { topology_view };

    ghost invariant = { IsIndexed };
}

fn outputs_of(alloc: Global, layout: &Layout) -> Result<Vec<usize>, NoMemory>
    ensures { IfOk result (λ outputs. outputs.items ≡ outputs_of layout.now) }
{
    let of_switches = layout
        .switches()
        .iter()
        .map(|line| outputs_of_switch(layout.ports(), line));
    let of_functions = layout.functions().iter().map(|_| 1);
    Ok(
        once(1)
            .chain(of_switches.chain(of_functions))
            .collect(alloc)?,
    )
}

fn buses_of_links(alloc: Global, links: &[Link]) -> Result<Vec<u16>, NoMemory>
    ensures { IfOk result (λ buses. buses.items ≡ link_buses links.now) }
{
    Ok(
        links
            .iter()
            .map(|link| u16::from(link.lower.bus()))
            .collect(alloc)?,
    )
}

/// Bus and device of an ID, as one number.
fn slot_of(id: Bdf) -> u16
    ensures value { result ≡ slot_of id }
    ensures small { result < 8192 }
{
    id.bits() / 8
}

fn slots_of_places(alloc: Global, places: &[PortPlace]) -> Result<Vec<u16>, NoMemory>
    ensures { IfOk result (λ slots. slots.items ≡ place_slots places.now) }
{
    Ok(
        places
            .iter()
            .map(|place| slot_of(place.id.id()))
            .collect(alloc)?,
    )
}

fn index_links(alloc: Global, links: &[Link]) -> Result<FirstIndex, NoMemory>
    ensures { IfOk result (λ index. index ≡ firsts_of 256 (link_buses links.now)) }
{
    FirstIndex::new(alloc, 256, &buses_of_links(alloc, links)?)
}

fn index_places(alloc: Global, places: &[PortPlace]) -> Result<FirstIndex, NoMemory>
    ensures { IfOk result (λ index. index ≡ firsts_of 8192 (place_slots places.now)) }
{
    FirstIndex::new(alloc, 8192, &slots_of_places(alloc, places)?)
}

fn find_link(links: &[Link], lower: Bdf) -> Option<&Link>
    ensures { option_copied result ≡ link_at links.now lower }
{
    links.iter().find(|link| link.lower == lower)
}

fn find_number(places: &[PortPlace], id: PortId) -> Option<usize>
    ensures value { result ≡ position (λ place. place.id == id) places.now }
    ensures within { IfSome result (λ i. i < length places.now) }
{
    places.iter().position(|place| place.id == id)
}

impl Topology {
    /// The tree of a layout. It answers `NoMemory` where memory was refused.
    pub fn new(alloc: Global, layout: &Layout) -> Result<Topology, NoMemory>
        ensures { IfOk result (λ topology. topology ≡ tree_of layout.now) }
    {
        // for the proof: what holds of every platform
        let _ = layout.ports();
        let links = links_of(alloc, layout)?;
        let places = places_of(alloc, layout)?;
        Ok(Topology {
            outputs: outputs_of(alloc, layout)?,
            links_by_bus: index_links(alloc, &links)?,
            places_by_slot: index_places(alloc, &places)?,
            links,
            places,
        })
    }

    /// All links. Those of switches come first, then those of functions, in the order of the layout's lines.
    pub fn links(&self) -> &[Link]
        ensures value { result.now ≡ self.now.links }
        ensures sound { IsTree self.now }
    {
        &self.links
    }

    /// The upstream ports, and then the downstream ports, in the order of the layout's lines.
    pub fn places(&self) -> &[PortPlace]
        ensures value { result.now ≡ self.now.places }
        ensures sound { IsTree self.now }
    {
        &self.places
    }

    /// The number of the first link whose lower end stands on a bus, or how many links there are.
    fn first_link_on(&self, bus: u8) -> usize
        ensures value { result ≡ position_or_len (λ link. bus_of link.lower == bus) self.now.links }
        ensures within { result ≤ length self.now.links }
    {
        self.links_by_bus.first(u16::from(bus))
    }

    /// The number of the first port that has bus and device of this ID, or how many ports there are.
    fn first_place_in(&self, id: Bdf) -> usize
        ensures value { result ≡ position_or_len (λ place. slot_of place.id == slot_of id) self.now.places }
        ensures within { result ≤ length self.now.places }
    {
        self.places_by_slot.first(slot_of(id))
    }

    /// The link of which this ID is the lower end.
    /// There is one if the ID is a function or an upstream port.
    pub fn link(&self, lower: Bdf) -> Option<Link>
        ensures { result ≡ link_at self.now.links lower }
    {
        let start = self.first_link_on(lower.bus());
        find_link(&self.links[start..], lower).copied()
    }

    /// Where the packets of this direction are sent from, if there is such a link.
    pub fn sender(&self, direction: Direction) -> Option<LinkEnd>
        ensures { result ≡ sender_of self.now.links direction }
    {
        Some(self.link(direction.lower)?.sending_end(direction.way))
    }

    /// The number of the port of this ID among `places`.
    /// It has one if it is a port of a switch.
    pub fn place_number(&self, id: PortId) -> Option<usize>
        ensures value { result ≡ position (λ place. place.id == id) self.now.places }
        ensures within { IfSome result (λ i. i < length self.now.places) }
    {
        let start = self.first_place_in(id.id());
        let further = find_number(&self.places[start..], id)?;
        Some(start + further)
    }
}
