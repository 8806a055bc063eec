//! Stations with what they reach, and which of them wake which.

ghost use Rattle.std.specs.Prelude.{◌≡◌, ◌<◌, ◌++◌, ◌∷◌, [], All, IfOk, OnOk, if◌then◌else◌, length, map};
ghost use Rattle.sweeps.specs.Asleep.{AreListed, site_of, wakes_by};

use crate::reach::{Reach, changes_outbox};
use fab_types::NoMemory;
use fabric_core::Station;
use std::alloc::{AllocError, Global};
use topology::Topology;

/// A station, and where it takes packets, sends them and puts them.
#[derive(Clone, Copy, Debug, PartialEq, Eq)]
pub(crate) struct Site {
    pub(crate) station: Station,
    pub(crate) reach: Reach,
}

/// By what one station may wake another.
#[derive(Clone, Copy, Debug, PartialEq, Eq)]
pub(crate) enum How {
    /// A packet is taken there, which changes what stands at the other.
    Taking,
    /// A packet is sent from there, which frees a place for what the other puts.
    Freeing,
    /// The receiver of the direction gets one.
    Receiving,
    /// Its sender gets credits back.
    Updating,
}

fn site_of(topology: &Topology, station: &Station) -> Site
    ensures { result ≡ site_of topology.now station.now }
{
    Site {
        station: *station,
        reach: Reach::of(topology, station),
    }
}

/// The stations with what they reach in a tree.
pub(crate) fn sites_of(
    alloc: Global,
    topology: &Topology,
    stations: &[Station],
) -> Result<Vec<Site>, NoMemory>
    ensures { IfOk result (λ sites. sites.items ≡ map (site_of topology.now) stations.now) }
{
    Ok(
        stations
            .iter()
            .map(|station| site_of(topology, station))
            .collect(alloc)?,
    )
}

fn wakes_by(how: How, one: &Site, other: &Site) -> bool
    ensures { result ≡ wakes_by how one.now other.now }
{
    match how {
        How::Taking => {
            changes_outbox(&one.station, &other.station)
                || one.reach.changes_by_taking(&other.reach)
        }
        How::Freeing => one.reach.frees_by_sending(&other.reach),
        How::Receiving => one.reach.changes_by_receiving(&other.reach),
        How::Updating => one.reach.changes_by_updating(&other.reach),
    }
}

/// Puts the place behind the others if it is woken.
fn note_if(woken: bool, place: usize, places: &mut Vec<usize>) -> Result<(), AllocError>
    ensures { OnOk result (places.new.items ≡ (if woken then places.old.items ++ place ∷ [] else places.old.items)) }
{
    if woken {
        places.push(place)?;
    }
    Ok(())
}

/// The places of those that the station of this site may wake.
pub(crate) fn woken_by(
    alloc: Global,
    how: How,
    site: &Site,
    sites: &[Site],
) -> Result<Vec<usize>, NoMemory>
    ensures listed { IfOk result (λ places. AreListed how site.now sites.now places.items) }
    ensures within { IfOk result (λ places. All (λ place. place < length sites.now) places.items) }
{
    let mut places = Vec::new(alloc);
    for other in 0..sites.len() {
        note_if(wakes_by(how, site, &sites[other]), other, &mut places)?;
    }
    Ok(places)
}
