//! Why there is no layout of a dump.

ghost use Rattle.std.specs.Prelude.{◌≡◌};
ghost use Rattle.std.specs.List.{list_all};
ghost use Rattle.import.specs.Refusals.{has_device, is_hidden, is_only, is_top, mixed, mixed_at, mixed_below, other_in, refusal, unknown_owner};

use crate::domains::{first_in, is_in};
use crate::fault::ImportFault;
use crate::owners::Owner;
use crate::reason::MachineId;
use crate::role::is_port;
use crate::tree::{Tree, is_at, role_at};
use fab_types::{Bdf, DomainId};
use lspci::{BridgeBuses, Device, Dump, Location};

/// Is no more shown of each device than what everybody may read, the first 64 bytes?
pub fn is_hidden(dump: &Dump) -> bool
    ensures { result ≡ is_hidden dump.now }
{
    dump.devices().iter().all(|device| device.count == 64)
}

#[tactic(auto, unfolding(crate::specs::Refusals::has_device))]
fn has_device(dump: &Dump, location: &Location) -> bool
    ensures { result ≡ has_device dump.now location.now }
{
    dump.devices().iter().any(|device| is_at(location, device))
}

/// The first device of the list that the dump hasn't.
fn unknown_owner(dump: &Dump, owners: &[Owner]) -> Option<Owner>
    ensures { result ≡ unknown_owner dump.now owners.now }
{
    for owner in owners {
        if !has_device(dump, &owner.location) {
            return Some(*owner);
        }
    }
    None
}

/// Is it a port of the top switch?
fn is_top(dump: &Dump, tree: &Tree, device: &Device) -> bool
    ensures { result ≡ is_top dump.now tree.now device.now }
{
    let id = device.location.id;
    device.location.segment == tree.segment
        && id.bus() == tree.bus
        && is_only(tree.only, id)
        && is_port(role_at(dump, device))
}

/// Is it that one, where it is one alone?
pub fn is_only(only: Option<Bdf>, id: Bdf) -> bool
    ensures { result ≡ is_only only id }
{
    match only {
        Some(only) => only == id,
        None => true,
    }
}

/// The first device of the list that is the port or below it, and has another owner.
fn other_in(
    owners: &[Owner],
    port: &Location,
    buses: &BridgeBuses,
    domain: DomainId,
) -> Option<Owner>
    ensures { result ≡ other_in owners.now port.now buses.now domain }
{
    for owner in owners {
        if is_in(port, buses, &owner.location) && owner.domain != domain {
            return Some(*owner);
        }
    }
    None
}

/// Two devices of the list with different owners, if such are the port or below it.
fn mixed_below(owners: &[Owner], port: &Location, buses: &BridgeBuses) -> Option<ImportFault>
    ensures { result ≡ mixed_below owners.now port.now buses.now }
{
    let one = first_in(owners, port, buses)?;
    let other = other_in(owners, port, buses, one.domain)?;
    Some(ImportFault::TwoOwners {
        one: MachineId::of(&one.location),
        other: MachineId::of(&other.location),
    })
}

/// The same of a device, if it is a port of the top switch.
#[tactic(auto, unfolding(crate::specs::Refusals::mixed_at))]
fn mixed_at(dump: &Dump, tree: &Tree, owners: &[Owner], device: &Device) -> Option<ImportFault>
    ensures { result ≡ mixed_at dump.now tree.now owners.now device.now }
{
    if !is_top(dump, tree, device) {
        return None;
    }
    let buses = dump.space(device).buses()?;
    mixed_below(owners, &device.location, &buses)
}

/// Two devices of the list with different owners below one port of the top switch.
fn mixed(dump: &Dump, tree: &Tree, owners: &[Owner]) -> Option<ImportFault>
    ensures { result ≡ mixed dump.now tree.now owners.now }
{
    for device in dump.devices() {
        if let Some(fault) = mixed_at(dump, tree, owners, device) {
            return Some(fault);
        }
    }
    None
}

/// Why the list of owners doesn't fit these devices, if it doesn't.
pub fn refusal(dump: &Dump, tree: &Tree, owners: &[Owner]) -> Option<ImportFault>
    ensures { result ≡ refusal dump.now tree.now owners.now }
{
    if let Some(owner) = unknown_owner(dump, owners) {
        return Some(ImportFault::NoDevice {
            device: MachineId::of(&owner.location),
        });
    }
    mixed(dump, tree, owners)
}
