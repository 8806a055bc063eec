//! Requests in the names of a domain: the IDs of its functions, and that of its host.

ghost use Rattle.std.specs.Prelude.{◌≡◌, ◌==◌, ◌&&◌, IfOk, map, option_map};
ghost use Rattle.std.specs.List.{filter_map, list_any};
ghost use Rattle.attacks.specs.Tries.{by_mapping, by_none, first_unmapped, in_names, is_mapped, names_of, own_ids, unmapped_page};

use crate::accesses::{on_mapped, on_unmapped, spoofed};
use crate::attack::{Attack, Way};
use crate::path::is_validated;
use fab_types::{Bdf, PortId};
use layout::Start;
use platform::{DownstreamPort, Mapping};
use std::alloc::{AllocError, Global};

/// The first page of 4 GB and more, where no window is.
const HIGH_PAGE: u64 = 0x10_0000;

/// The page past as many as a layout may map for a requester, which is 64.
const SPARE_PAGE: u64 = 0x10_0040;

/// The IDs of a domain's functions, in the order of the layout.
pub fn own_functions(alloc: Global, start: &Start) -> Result<Vec<Bdf>, AllocError>
    ensures { IfOk result (λ ids. ids.items ≡ own_ids start.now) }
{
    start
        .functions()
        .iter()
        .filter(|line| start.owns_function(line.id))
        .map(|line| line.id)
        .collect(alloc)
}

/// The IDs of the domain: of its functions, and of its host.
pub(crate) fn names_of(alloc: Global, victim: &Start) -> Result<Vec<Bdf>, AllocError>
    ensures { IfOk result (λ names. names.items ≡ names_of victim.now) }
{
    let mut names = own_functions(alloc, victim)?;
    names.push(victim.domain().host())?;
    Ok(names)
}

/// A request by a mapping, in the name of its requester.
fn by_mapping(port: PortId, way: Way, function: Bdf, line: &Mapping) -> Option<Attack>
    ensures { result ≡ by_mapping port way function line.now }
{
    let does = on_mapped(way, line)?;
    Some(spoofed(port, function, line.requester, line.page, does))
}

fn is_mapped(maps: &[Mapping], requester: Bdf, page: u64) -> bool
    ensures { result ≡ is_mapped maps.now requester page }
{
    maps.iter()
        .any(|line| line.requester == requester && line.page == page)
}

/// The first page of 4 GB and more that isn't mapped for the requester, if there is one before the spare page.
fn first_unmapped(maps: &[Mapping], requester: Bdf) -> Option<u64>
    ensures { result ≡ first_unmapped maps.now requester }
{
    (HIGH_PAGE..SPARE_PAGE).find(|page| !is_mapped(maps, requester, *page))
}

/// A page of 4 GB or more that isn't mapped for the requester.
fn unmapped_page(maps: &[Mapping], requester: Bdf) -> u64
    ensures { result ≡ unmapped_page maps.now requester }
{
    first_unmapped(maps, requester).unwrap_or(SPARE_PAGE)
}

/// A request in this name for a page that isn't mapped for it.
fn by_none(
    port: PortId,
    way: Way,
    function: Bdf,
    maps: &[Mapping],
    requester: Bdf,
) -> Option<Attack>
    ensures { result ≡ by_none port way function maps.now requester }
{
    let does = on_unmapped(way)?;
    let page = unmapped_page(maps, requester);
    Some(spoofed(port, function, requester, page, does))
}

/// Requests by these mappings.
fn by_mappings(
    alloc: Global,
    port: PortId,
    way: Way,
    function: Bdf,
    maps: &[Mapping],
) -> Result<Vec<Attack>, AllocError>
    ensures { IfOk result (λ attacks. attacks.items ≡ filter_map (by_mapping port way function) maps.now) }
{
    maps.iter()
        .filter_map(|line| by_mapping(port, way, function, line))
        .collect(alloc)
}

/// Requests in these names for pages that aren't mapped for them.
fn by_no_mapping(
    alloc: Global,
    port: PortId,
    way: Way,
    function: Bdf,
    maps: &[Mapping],
    names: &[Bdf],
) -> Result<Vec<Attack>, AllocError>
    ensures { IfOk result (λ attacks. attacks.items ≡ filter_map (by_none port way function maps.now) names.now) }
{
    names
        .iter()
        .filter_map(|name| by_none(port, way, function, maps, *name))
        .collect(alloc)
}

/// What is in the names of the domain: for pages that are mapped for them, and for one that isn't.
pub(crate) fn in_names(
    alloc: Global,
    ports: &[DownstreamPort],
    port: PortId,
    way: Way,
    function: Bdf,
    victim: &Start,
) -> Result<Vec<Attack>, AllocError>
    ensures { IfOk result (λ attacks. attacks.items ≡ in_names ports.now port way function victim.now) }
{
    if is_validated(ports, function.bus()) {
        return Ok(Vec::new(alloc));
    }
    let maps = victim.maps();
    let names = names_of(alloc, victim)?;
    let mut attacks = by_mappings(alloc, port, way, function, maps)?;
    let others = by_no_mapping(alloc, port, way, function, maps, &names)?;
    attacks.extend_from_slice(&others)?;
    Ok(attacks)
}
