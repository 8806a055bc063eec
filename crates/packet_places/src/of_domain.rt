//! Where the packets of a domain stand.

ghost use Rattle.std.specs.Prelude.{◌≡◌, IfOk, map, true};
ghost use Rattle.std.specs.List.{list_all};
ghost use Rattle.fab_types.specs.declared.place.Place.{Place};
ghost use Rattle.domains.specs.Agents.{AreFound};
ghost use Rattle.interconnect.specs.Views.{channels};
ghost use Rattle.packet_places.specs.Noted.{AreNoted, is_below, with_place};
ghost use Rattle.packet_places.specs.Standing.{standing_in};
ghost use Rattle.packet_places.specs.PacketPlaces.{ArePacketPlaces};

use crate::all_packet_places::all_packet_places;
use crate::notes::note;
use crate::standing::standing;
use domains::Agents;
use fab_types::{DomainId, NoMemory, Place};
use interconnect::Interconnect;
use std::alloc::{AllocError, Global};
use std::collections::BTreeMap;

/// The number of each packet of a domain that stands at one of these places, with that of the place.
fn found_at(
    interconnect: &Interconnect,
    agents: &Agents,
    alloc: Global,
    domain: DomainId,
    places: &[Place],
) -> Result<BTreeMap<u64, usize>, NoMemory>
    ensures { IfOk result (λ found. AreNoted (standing_in (interconnect.now.tree).links (channels interconnect.now) agents.now.outboxes) domain places.now places.now found.entries) }
{
    let mut found = BTreeMap::new(alloc);
    for (number, place) in places.iter().enumerate() {
        let frames = standing(interconnect, agents, alloc, place)?;
        note(&mut found, &frames, domain, number)?;
    }
    Ok(found)
}

/// The places in place of their numbers.
fn with_places(
    alloc: Global,
    found: &BTreeMap<u64, usize>,
    places: &[Place],
) -> Result<Vec<(u64, Place)>, AllocError>
    requires { list_all (is_below places.now) found.now.entries ≡ true }
    ensures { IfOk result (λ named. (other : Place) → named.items ≡ map (with_place places.now other) found.now.entries) }
{
    let mut named = Vec::new(alloc);
    for (number, place) in found {
        named.push((*number, places[*place]))?;
    }
    Ok(named)
}

/// Where each packet of a domain stands, by rising numbers.
/// Of each packet that the domain made and that stands in an outbox, in a queue or on a wire, it has the
/// number, and the place where it stands. No packet waits in an outbox but that which is found by its origin.
pub fn packet_places_of(
    interconnect: &Interconnect,
    agents: &Agents,
    alloc: Global,
    domain: DomainId,
) -> Result<Vec<(u64, Place)>, NoMemory>
    ensures named { IfOk result (λ named. ArePacketPlaces (standing_in (interconnect.now.tree).links (channels interconnect.now) agents.now.outboxes) domain named.items) }
    ensures found { AreFound agents.now.outboxes }
{
    let places = all_packet_places(interconnect, agents, alloc)?;
    let found = found_at(interconnect, agents, alloc, domain, &places)?;
    // for the proof: the numbers rise
    let _ = found.len();
    Ok(with_places(alloc, &found, &places)?)
}
