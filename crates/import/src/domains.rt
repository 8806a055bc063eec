//! Which domain owns a port.

ghost use Rattle.std.specs.Prelude.{◌≡◌, ◌+◌, ◌≤◌};
ghost use Rattle.import.specs.Domains.{first_in, free_from, is_given, is_in, is_listed, owner_of, owns_port, top_owner};

use crate::owners::Owner;
use crate::tree::Tree;
use fab_types::Bdf;
use lspci::{BridgeBuses, Location};
use platform::{DownstreamPort, domain_of};

/// Is what stands at this place the port itself, or below it?
#[tactic(auto, unfolding(crate::specs::Domains::is_in))]
pub fn is_in(port: &Location, buses: &BridgeBuses, place: &Location) -> bool
    ensures { result ≡ is_in port.now buses.now place.now }
{
    let (above, below) = (port.id, place.id);
    port.segment == place.segment
        && (below == above
            || above.bus() < below.bus()
                && buses.secondary <= below.bus()
                && below.bus() <= buses.subordinate)
}

fn is_listed(owners: &[Owner], number: u8) -> bool
    ensures { result ≡ is_listed owners.now number }
{
    owners.iter().any(|owner| owner.domain.get() == number)
}

fn owns_port(ports: &[DownstreamPort], number: u8) -> bool
    ensures { result ≡ owns_port ports.now number }
{
    ports.iter().any(|port| port.owner.get() == number)
}

/// Is a device of this domain in the list, or a port of the layout?
fn is_given(owners: &[Owner], ports: &[DownstreamPort], number: u8) -> bool
    ensures { result ≡ is_given owners.now ports.now number }
{
    is_listed(owners, number) || owns_port(ports, number)
}

/// The first domain from this number on that has nothing yet, among so many; or the number behind them.
#[tactic(auto, using(crate::proofs::FreeSteps::free_none, crate::proofs::FreeSteps::free_step))]
fn free_from(owners: &[Owner], ports: &[DownstreamPort], left: u8, number: u8) -> u8
    requires { left + number ≤ 255 }
    ensures { result ≡ free_from owners.now ports.now left number }
{
    if left == 0 || !is_given(owners, ports, number) {
        return number;
    }
    free_from(owners, ports, left - 1, number + 1)
}

/// The first device of the list that is the port or below it.
pub fn first_in(owners: &[Owner], port: &Location, buses: &BridgeBuses) -> Option<Owner>
    ensures { result ≡ first_in owners.now port.now buses.now }
{
    for owner in owners {
        if is_in(port, buses, &owner.location) {
            return Some(*owner);
        }
    }
    None
}

/// The owner of a port of the top switch: that of the first device in the list that is below it, or a domain of its
/// own. Where there is none left it is 32, which is no domain.
fn top_owner(owners: &[Owner], ports: &[DownstreamPort], port: &Location, buses: &BridgeBuses) -> u8
    ensures { result ≡ top_owner owners.now ports.now port.now buses.now }
{
    match first_in(owners, port, buses) {
        Some(owner) => owner.domain.get(),
        None => free_from(owners, ports, 31, 1),
    }
}

/// The owner of a port, or 0, which is no domain, without one. A port below another has the owner of that.
pub fn owner_of(
    tree: &Tree,
    owners: &[Owner],
    ports: &[DownstreamPort],
    port: &Location,
    buses: &BridgeBuses,
    bus: u8,
) -> u8
    ensures { result ≡ owner_of tree.now owners.now ports.now port.now buses.now bus }
{
    if port.id.bus() == tree.bus {
        top_owner(owners, ports, port, buses)
    } else {
        domain_of(
            ports,
            Bdf::from_bits(u16::from(bus.saturating_sub(1)) * 256),
        )
    }
}
