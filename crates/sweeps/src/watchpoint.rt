//! The watchpoints of a sweep.

ghost use Rattle.std.specs.Prelude.{◌≡◌, ℕ, All, IfOk, Some, length, map, slice_get};
ghost use Rattle.std.specs.List.{flat_map};
ghost use Rattle.topology.specs.Topologies.{tree_of};
ghost use Rattle.fabric_core.specs.Stations.{events_at};
ghost use Rattle.sweeps.specs.declared.watchpoint.Watchpoint.{Watchpoint};
ghost use Rattle.sweeps.specs.Asleep.{AreWatchpoints, AreWithin, HasSite, IsWatchpoint, site_station, station_of};
ghost use Rattle.sweeps.specs.Sweeps.{IsSweep};

use crate::order::stations;
use crate::site::{How, Site, sites_of, woken_by};
use domain::Domain;
use fab_types::NoMemory;
use fabric_core::Station;
use layout::Layout;
use std::alloc::Global;
use topology::Topology;

/// A station of a sweep, and by their places in it those that its events may wake.
#[derive(Drop)]
pub(crate) struct Watchpoint {
    pub(crate) station: Station,
    /// Where one of them takes a packet.
    pub(crate) by_taking: Vec<usize>,
    /// Where one of them sends a packet, so that there is a place for another.
    pub(crate) by_freeing: Vec<usize>,
    /// Where the receiver of the direction gets one.
    pub(crate) by_receiving: Vec<usize>,
    /// Where the sender gets credits back.
    pub(crate) by_updating: Vec<usize>,
}

fn watchpoint_of(alloc: Global, site: &Site, sites: &[Site]) -> Result<Watchpoint, NoMemory>
    ensures { IfOk result (IsWatchpoint site.now sites.now) }
{
    Ok(Watchpoint {
        station: site.station,
        by_taking: woken_by(alloc, How::Taking, site, sites)?,
        by_freeing: woken_by(alloc, How::Freeing, site, sites)?,
        by_receiving: woken_by(alloc, How::Receiving, site, sites)?,
        by_updating: woken_by(alloc, How::Updating, site, sites)?,
    })
}

/// The watchpoints of these sites.
fn watchpoints_among(alloc: Global, sites: &[Site]) -> Result<Vec<Watchpoint>, NoMemory>
    ensures stations { IfOk result (λ watchpoints. map station_of watchpoints.items ≡ map site_station sites.now) }
    ensures each { IfOk result (λ watchpoints. (place : ℕ) → (watchpoint : Watchpoint) → slice_get watchpoints.items place ≡ Some watchpoint → HasSite sites.now place watchpoint) }
{
    let mut watchpoints = Vec::new(alloc);
    for site in sites {
        watchpoints.push(watchpoint_of(alloc, site, sites)?)?;
    }
    Ok(watchpoints)
}

/// The watchpoints of a sweep of these stations in a tree.
fn watchpoints_of(
    alloc: Global,
    topology: &Topology,
    stations: &[Station],
) -> Result<Vec<Watchpoint>, NoMemory>
    ensures stations { IfOk result (λ watchpoints. map station_of watchpoints.items ≡ stations.now) }
    ensures wake { IfOk result (λ watchpoints. AreWatchpoints topology.now watchpoints.items) }
    ensures within { IfOk result (λ watchpoints. All (AreWithin (length watchpoints.items)) watchpoints.items) }
{
    let sites = sites_of(alloc, topology, stations)?;
    let watchpoints = watchpoints_among(alloc, &sites)?;
    Ok(watchpoints)
}

/// The watchpoints of a sweep of a layout with these domains, in its order.
pub(crate) fn watchpoints_in(
    alloc: Global,
    layout: &Layout,
    domains: &[Domain],
) -> Result<Vec<Watchpoint>, NoMemory>
    ensures sweep { IfOk result (λ watchpoints. IsSweep layout.now domains.now (flat_map events_at (map station_of watchpoints.items))) }
    ensures wake { IfOk result (λ watchpoints. AreWatchpoints (tree_of layout.now) watchpoints.items) }
    ensures within { IfOk result (λ watchpoints. All (AreWithin (length watchpoints.items)) watchpoints.items) }
{
    let topology = Topology::new(alloc, layout)?;
    let stations = stations(alloc, layout, domains)?;
    let watchpoints = watchpoints_of(alloc, &topology, &stations)?;
    Ok(watchpoints)
}
