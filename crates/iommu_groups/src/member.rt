//! The devices of a tree, and their groups.

ghost use Rattle.std.specs.Prelude.{◌≡◌, ◌==◌, ◌&&◌, IfOk};
ghost use Rattle.std.specs.List.{list_any};
ghost use Rattle.platform.specs.Owners.{domain_above};
ghost use Rattle.iommu_groups.specs.Groups.{have_common_group, is_with, is_of, member_of, members_of};

use crate::group::group_of;
use fab_types::{Bdf, DomainId};
use layout::Layout;
use platform::{DownstreamPort, port_with_secondary};
use std::alloc::{AllocError, Global};

/// A device of the tree, and the one whose group it is in.
#[derive(Clone, Copy, Debug, PartialEq, Eq)]
pub struct Member {
    /// A port of a switch, or a function.
    pub device: Bdf,
    /// The device itself, or the port whose group it shares.
    pub group: Bdf,
    /// The domain of a function, and none of a port.
    pub owner: Option<DomainId>,
}

fn member_of(ports: &[DownstreamPort], device: Bdf, owner: Option<DomainId>) -> Member
    ensures { result ≡ member_of ports.now device owner }
{
    Member {
        device,
        group: group_of(ports, device),
        owner,
    }
}

/// The domain of a function.
fn domain_above(ports: &[DownstreamPort], function: Bdf) -> Option<DomainId>
    ensures { result ≡ domain_above ports.now function }
{
    port_with_secondary(ports, function.bus()).map(|port| port.owner)
}

/// The devices of a layout.
/// These are upstream ports, downstream ports and functions, each in the order of their lines.
pub fn members_of(alloc: Global, layout: &Layout) -> Result<Vec<Member>, AllocError>
    ensures { IfOk result (λ members. members.items ≡ members_of layout.now) }
{
    let ports = layout.ports();
    let upstream = layout
        .switches()
        .iter()
        .map(|line| member_of(ports, line.id, None));
    let downstream = ports
        .iter()
        .map(|line| member_of(ports, line.id.id(), None));
    let functions = layout.functions().iter().map(|line| member_of(
        ports,
        line.id,
        domain_above(ports, line.id),
    ));
    upstream.chain(downstream).chain(functions).collect(alloc)
}

/// Is it a function of this domain?
fn is_of(domain: DomainId, member: &Member) -> bool
    ensures { result ≡ is_of domain member.now }
{
    match member.owner {
        Some(owner) => owner == domain,
        None => false,
    }
}

/// Has a function of this domain the group of this device?
fn is_with(members: &[Member], domain: DomainId, one: &Member) -> bool
    ensures { result ≡ is_with members.now domain one.now }
{
    members.iter().any(|member| is_of(domain, member) && member.group == one.group)
}

/// Is a function of the one domain in one group with another's?
pub fn have_common_group(members: &[Member], one: DomainId, other: DomainId) -> bool
    ensures { result ≡ have_common_group members.now one other }
{
    members.iter().any(|member| is_of(one, member) && is_with(members, other, member))
}
