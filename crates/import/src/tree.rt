//! The part of a machine that a layout is made of.

ghost use Rattle.std.specs.Prelude.{◌≡◌, count_by};
ghost use Rattle.std.specs.List.{find, list_any};
ghost use Rattle.lspci.specs.Acs.{is_number};
ghost use Rattle.import.specs.Trees.{asked_at, below_root, bus_below, bus_in, is_at, is_root_at, is_root_on_bus_0, is_root_port, is_upstream_on, is_upstream_to, last_bus_in, no_root, role_at, secondary_of, tree_of, upstream_to};

use crate::fault::ImportFault;
use crate::reason::MachineId;
use crate::role::{Role, is_root, is_upstream, role_of};
use fab_types::Bdf;
use lspci::{BridgeBuses, Device, Dump, Location};

/// The root port whose tree was asked for.
#[derive(Clone, Copy, Debug, PartialEq, Eq)]
pub struct Asked {
    /// The root port.
    pub root: Bdf,
    /// Its buses.
    pub buses: BridgeBuses,
}

/// Which ports are those of a layout's top switch.
#[derive(Clone, Copy, Debug, PartialEq, Eq)]
pub struct Tree {
    /// The PCI segment in which they stand.
    pub segment: u32,
    /// The bus on which they stand in the machine.
    pub bus: u8,
    /// The only one, where it is one alone.
    pub only: Option<Bdf>,
    /// The root port that was asked for, if one was.
    pub asked: Option<Asked>,
}

/// What a device of a dump is.
pub fn role_at(dump: &Dump, device: &Device) -> Role
    ensures { result ≡ role_at dump.now device.now }
{
    role_of(&dump.space(device))
}

/// Does the device stand at this place?
pub fn is_at(location: &Location, device: &Device) -> bool
    ensures { result ≡ is_at location.now device.now }
{
    device.location.segment == location.segment && device.location.id == location.id
}

/// Is it a root port?
#[tactic(auto, unfolding(crate::specs::Trees::is_root_port))]
fn is_root_port(dump: &Dump, device: &Device) -> bool
    ensures { result ≡ is_root_port dump.now device.now }
{
    is_root(role_at(dump, device))
}

#[tactic(auto, unfolding(crate::specs::Trees::is_root_at))]
fn is_root_at(dump: &Dump, location: &Location, device: &Device) -> bool
    ensures { result ≡ is_root_at dump.now location.now device.now }
{
    is_at(location, device) && is_root_port(dump, device)
}

/// The first bus below a bridge.
fn secondary_of(dump: &Dump, device: &Device) -> Option<u8>
    ensures { result ≡ secondary_of dump.now device.now }
{
    Some(dump.space(device).buses()?.secondary)
}

fn is_number(wanted: u8, number: Option<u8>) -> bool
    ensures { result ≡ is_number wanted number }
{
    match number {
        Some(number) => number == wanted,
        None => false,
    }
}

/// Is it the upstream port of the switch whose ports stand on this bus?
#[tactic(auto, unfolding(crate::specs::Trees::is_upstream_to))]
fn is_upstream_to(dump: &Dump, segment: u32, bus: u8, device: &Device) -> bool
    ensures { result ≡ is_upstream_to dump.now segment bus device.now }
{
    device.location.segment == segment
        && is_upstream(role_at(dump, device))
        && is_number(bus, secondary_of(dump, device))
}

/// The upstream port of the switch whose ports stand on this bus.
pub fn upstream_to(dump: &Dump, segment: u32, bus: u8) -> Option<Device>
    ensures { result ≡ upstream_to dump.now segment bus }
{
    for device in dump.devices() {
        if is_upstream_to(dump, segment, bus, device) {
            return Some(*device);
        }
    }
    None
}

/// Is it an upstream port on this bus?
#[tactic(auto, unfolding(crate::specs::Trees::is_upstream_on))]
fn is_upstream_on(dump: &Dump, segment: u32, bus: u8, device: &Device) -> bool
    ensures { result ≡ is_upstream_on dump.now segment bus device.now }
{
    device.location.segment == segment
        && device.location.id.bus() == bus
        && is_upstream(role_at(dump, device))
}

fn upstream_on(dump: &Dump, segment: u32, bus: u8) -> Option<Device>
    ensures { result ≡ find (is_upstream_on dump.now segment bus) (dump.now).devices }
{
    for device in dump.devices() {
        if is_upstream_on(dump, segment, bus, device) {
            return Some(*device);
        }
    }
    None
}

/// The bus of the ports of the switch directly below a root port, if there is a switch.
fn bus_below(dump: &Dump, root: &Device) -> Option<u8>
    ensures { result ≡ bus_below dump.now root.now }
{
    let bus = secondary_of(dump, root)?;
    let upstream = upstream_on(dump, root.location.segment, bus)?;
    secondary_of(dump, &upstream)
}

/// The root port and its buses, as what was asked for.
fn asked_at(dump: &Dump, root: &Device) -> Option<Asked>
    ensures { result ≡ asked_at dump.now root.now }
{
    let buses = dump.space(root).buses()?;
    Some(Asked {
        root: root.location.id,
        buses,
    })
}

/// The ports of the switch directly below a root port, or, where there is none, that root port alone.
fn below_root(dump: &Dump, root: &Device) -> Tree
    ensures { result ≡ below_root dump.now root.now }
{
    let segment = root.location.segment;
    let asked = asked_at(dump, root);
    match bus_below(dump, root) {
        Some(bus) => Tree {
            segment,
            bus,
            only: None,
            asked,
        },
        None => Tree {
            segment,
            bus: root.location.id.bus(),
            only: Some(root.location.id),
            asked,
        },
    }
}

#[tactic(auto, unfolding(crate::specs::Trees::is_root_on_bus_0))]
fn is_root_on_bus_0(dump: &Dump, device: &Device) -> bool
    ensures { result ≡ is_root_on_bus_0 dump.now device.now }
{
    device.location.segment == 0 && device.location.id.bus() == 0 && is_root_port(dump, device)
}

fn has_root(dump: &Dump) -> bool
    ensures { result ≡ list_any (is_root_on_bus_0 dump.now) (dump.now).devices }
{
    for device in dump.devices() {
        if is_root_on_bus_0(dump, device) {
            return true;
        }
    }
    false
}

fn root_at(dump: &Dump, location: &Location) -> Option<Device>
    ensures { result ≡ find (is_root_at dump.now location.now) (dump.now).devices }
{
    for device in dump.devices() {
        if is_root_at(dump, location, device) {
            return Some(*device);
        }
    }
    None
}

fn first_root(dump: &Dump) -> Option<Device>
    ensures { result ≡ find (is_root_port dump.now) (dump.now).devices }
{
    for device in dump.devices() {
        if is_root_port(dump, device) {
            return Some(*device);
        }
    }
    None
}

fn count_of_roots(dump: &Dump) -> usize
    ensures { result ≡ count_by (is_root_port dump.now) (dump.now).devices }
{
    dump.devices()
        .iter()
        .filter(|device| is_root_port(dump, device))
        .count()
}

/// Why there is no layout where no root port stands on bus 00.
fn no_root(dump: &Dump) -> ImportFault
    ensures { result ≡ no_root (count_by (is_root_port dump.now) (dump.now).devices) (find (is_root_port dump.now) (dump.now).devices) }
{
    match first_root(dump) {
        Some(root) => ImportFault::OtherRoots {
            first: MachineId::of(&root.location),
            count: count_of_roots(dump),
        },
        None => ImportFault::NoRoot,
    }
}

/// What is below the root port at a place, or below all root ports of bus 00.
///
/// # Errors
/// `NotRoot` where no root port stands there. Where no place is given and no root port stands on bus 00, `OtherRoots`
/// if any stands elsewhere, and `NoRoot` if there is none.
pub fn tree_of(dump: &Dump, root: Option<Location>) -> Result<Tree, ImportFault>
    ensures { result ≡ tree_of dump.now root }
{
    let Some(location) = root else {
        if !has_root(dump) {
            return Err(no_root(dump));
        }
        return Ok(Tree {
            segment: 0,
            bus: 0,
            only: None,
            asked: None,
        });
    };
    match root_at(dump, &location) {
        Some(device) => Ok(below_root(dump, &device)),
        None => Err(ImportFault::NotRoot {
            device: MachineId::of(&location),
        }),
    }
}

impl Tree {
    /// The number that a bus has in the layout. The ports of the top switch stand on bus 02 there.
    pub fn bus_in(&self, bus: u8) -> Option<u8>
        ensures { result ≡ bus_in self.now bus }
    {
        bus.checked_sub(self.bus)?.checked_add(2)
    }

    /// The same of the last bus below a port, which is 255 at most.
    pub fn last_bus_in(&self, bus: u8) -> u8
        ensures { result ≡ last_bus_in self.now bus }
    {
        bus.saturating_sub(self.bus).saturating_add(2)
    }
}
