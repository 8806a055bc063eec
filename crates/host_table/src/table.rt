//! The table of a domain's host.

ghost use Rattle.std.specs.Prelude.{◌≡◌, IfOk, Some};
ghost use Rattle.platform.specs.Tables.{MapsOnce, target_of, allows};
ghost use Rattle.host_table.specs.Target.{mapped_to};
ghost use Rattle.host_table.specs.Groups.{AreGroups};

use crate::groups::{Group, line_of};
use crate::index::{RequesterGroups, index_of, place_of_requester};
use crate::target::Target;
use fab_types::{Bdf, NoMemory};
use layout::Start;
use platform::{Access, MapTarget, Mapping, Rights};
use std::alloc::Global;
use std::marker::Model;

/// The mappings of a domain's functions. A contract sees the list of their lines.
#[derive(Debug, Drop)]
pub struct HostTable {
    pub(crate) lines: Vec<Mapping>,
    index: Vec<RequesterGroups>,
}

impl Model for HostTable {
    ghost use Rattle.std.specs.Prelude.{List};
    ghost use Rattle.platform.specs.declared.parts.Mapping.{Mapping};

    ghost Value = { List Mapping };

    ghost use Rattle.host_table.specs.Index.{IsTable};

    ghost view = { λ t. t.lines.items };

    ghost invariant = { IsTable };
}

fn is_allowed(rights: Rights, access: Access) -> bool
    ensures { result ≡ allows rights access }
{
    match access {
        Access::Read => rights.read,
        Access::Write => rights.write,
    }
}

fn answer(target: MapTarget) -> Target
    ensures { mapped_to result ≡ Some target }
{
    match target {
        MapTarget::Frame(number) => Target::Frame(number),
        MapTarget::Peer(function) => Target::Peer(function),
    }
}

impl HostTable {
    /// The table of a domain at its start. It answers `NoMemory` where memory was refused. No other
    /// call takes memory.
    pub fn new(alloc: Global, start: &Start) -> Result<HostTable, NoMemory>
        ensures { IfOk result (λ table. table ≡ start.now.maps) }
    {
        let lines = Vec::from_slice(alloc, start.maps())?;
        let index = index_of(alloc, &lines)?;
        Ok(HostTable { lines, index })
    }

    /// The lines of a requester in groups of 512 pages, by rising number.
    /// There are none where it has no line.
    pub fn groups(&self, requester: Bdf) -> &[Group]
        ensures groups { AreGroups self.now requester result.now }
        ensures once { MapsOnce self.now }
    {
        match place_of_requester(&self.index, requester) {
            Ok(place) => &self.index[place].groups,
            Err(_) => &[],
        }
    }

    /// What this page of this requester is mapped to for this access. A page is an address divided by
    /// 4,096.
    pub fn lookup(&self, requester: Bdf, page: u64, access: Access) -> Target
        ensures { mapped_to result ≡ target_of self.now requester page access }
    {
        match line_of(self.groups(requester), page) {
            Some(line) if is_allowed(line.rights, access) => answer(line.target),
            _ => Target::None,
        }
    }
}
