//! What a domain starts from.

ghost use Rattle.std.specs.Prelude.{◌≡◌, ◌≤◌, IfOk};
ghost use Rattle.std.specs.List.Sorted.{IsStrictlyIncreasing};
ghost use Rattle.platform.specs.Share.{Share, IsShare, is_guarded};
ghost use Rattle.platform.specs.Buses.{bus_entry};
ghost use Rattle.platform.specs.Tables.{MapsOnce};

mod buses;
mod owners;
mod reach;

use crate::guarded::are_guarded;
use crate::parts::{DownstreamPort, EndpointFunction, Mapping, Switch};
use crate::start::buses::{BusEntry, bus_table};
use fab_types::{DomainId, NoMemory};
use std::alloc::Global;
use std::marker::Model;

/// What a layout gives one domain alone.
#[derive(Drop)]
pub struct Grant {
    /// How many begins the domain may make, 1 to 16,384.
    pub budget: u32,
    /// The numbers of the domain's frames of memory, rising.
    pub frames: Vec<u16>,
    /// The mappings of the domain's functions, in the order of their lines.
    pub maps: Vec<Mapping>,
}

/// What a domain starts from: its grant, and the layout's switches, ports and functions.
#[derive(Drop)]
pub struct Start {
    domain: DomainId,
    budget: u32,
    frames: Vec<u16>,
    maps: Vec<Mapping>,
    switches: Vec<Switch>,
    ports: Vec<DownstreamPort>,
    functions: Vec<EndpointFunction>,
    // by bus number: what that leads to
    buses: Vec<BusEntry>,
}

impl Model for Start {
    ghost use Rattle.platform.specs.Share.{Share};

    ghost Value = { Share };

    ghost use Rattle.platform.specs.Starts.{share_of, IsStart};

    ghost view = { share_of };

    ghost invariant = { IsStart };
}

impl Start {
    /// The start of a domain to which a layout of these switches, ports and functions grants this.
    /// It answers `NoMemory` where memory was refused.
    pub fn of(
        alloc: Global,
        domain: DomainId,
        grant: Grant,
        switches: &[Switch],
        ports: &[DownstreamPort],
        functions: &[EndpointFunction],
    ) -> Result<Start, NoMemory>
        requires least { 1 ≤ grant.budget }
        requires most { grant.budget ≤ 16384 }
        requires rising { IsStrictlyIncreasing grant.frames.items }
        requires once { MapsOnce grant.maps.items }
        ensures { IfOk result (λ start. start ≡ record { domain = domain; budget = grant.budget; frames = grant.frames.items; maps = grant.maps.items; switches = switches.now; ports = ports.now; functions = functions.now }) }
    {
        let Grant {
            budget,
            frames,
            maps,
        } = grant;
        Ok(Start {
            domain,
            budget,
            frames,
            maps,
            switches: Vec::from_slice(alloc, switches)?,
            ports: Vec::from_slice(alloc, ports)?,
            functions: Vec::from_slice(alloc, functions)?,
            buses: bus_table(alloc, ports, functions, domain)?,
        })
    }

    /// The same start once more. It answers `NoMemory` where memory was refused.
    pub fn try_clone(&self, alloc: Global) -> Result<Start, NoMemory>
        ensures { IfOk result (λ start. start ≡ self.now) }
    {
        Ok(Start {
            domain: self.domain,
            budget: self.budget,
            frames: Vec::from_slice(alloc, &self.frames)?,
            maps: Vec::from_slice(alloc, &self.maps)?,
            switches: Vec::from_slice(alloc, &self.switches)?,
            ports: Vec::from_slice(alloc, &self.ports)?,
            functions: Vec::from_slice(alloc, &self.functions)?,
            buses: Vec::from_slice(alloc, &self.buses)?,
        })
    }

    /// The domain to which the layout gives this.
    pub fn domain(&self) -> DomainId
        ensures { result ≡ self.now.domain }
    {
        self.domain
    }

    /// How many begins the domain may make, 1 to 16,384.
    pub fn budget(&self) -> u32
        ensures value { result ≡ self.now.budget }
        ensures limits { IsShare self.now }
    {
        self.budget
    }

    /// The numbers of the domain's frames of memory, rising.
    pub fn frames(&self) -> &[u16]
        ensures value { result.now ≡ self.now.frames }
        ensures limits { IsShare self.now }
    {
        &self.frames
    }

    /// The mappings of the domain's functions, in the order of their lines.
    pub fn maps(&self) -> &[Mapping]
        ensures value { result.now ≡ self.now.maps }
        ensures once { MapsOnce result.now }
    {
        &self.maps
    }

    /// Are all five ACS controls set on each downstream port of the layout?
    pub fn is_guarded(&self) -> bool
        ensures { result ≡ is_guarded self.now }
    {
        are_guarded(&self.ports)
    }

    /// All switches of the layout.
    pub fn switches(&self) -> &[Switch]
        ensures { result.now ≡ self.now.switches }
    {
        &self.switches
    }

    /// All downstream ports of the layout.
    pub fn ports(&self) -> &[DownstreamPort]
        ensures { result.now ≡ self.now.ports }
    {
        &self.ports
    }

    /// What a bus number leads to.
    pub(crate) fn bus(&self, bus: u8) -> &BusEntry
        ensures { result.now ≡ bus_entry self.now.ports self.now.functions self.now.domain bus }
    {
        &self.buses[usize::from(bus)]
    }

    /// All functions of the layout.
    pub fn functions(&self) -> &[EndpointFunction]
        ensures { result.now ≡ self.now.functions }
    {
        &self.functions
    }
}
