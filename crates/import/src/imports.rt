//! The layout of a dump.

ghost use Rattle.std.specs.Prelude.{◌≡◌, ◌⊎◌, Err, IfErr, IfOk, None, Some, if◌then◌else◌};
ghost use Rattle.import.specs.declared.fault.ImportFault.TheVariants as fault;
ghost use Rattle.import.specs.Imports.{IsAnswer, IsMade, empty_fault, import_of, imported, made_with, no_function, place_refusal, placed, unplaced, with_vectors};

use crate::devices::{Devices, Source};
use crate::egress::vectors_of;
use crate::fault::ImportFault;
use crate::most::{endpoints_out, most_frequent};
use crate::names::Names;
use crate::owners::Owner;
use crate::places::left_out_at;
use crate::reason::{LeftOut, MachineId};
use crate::refusals::{is_hidden, refusal};
use crate::tree::tree_of;
use fab_types::NoMemory;
use layout_line::EgressText;
use lspci::{Dump, Location};
use std::alloc::Global;
use std::marker::Model;

/// A layout that was made of a dump.
/// A contract sees its platform and its text, and which devices it hasn't.
#[derive(Drop)]
pub struct Import {
    devices: Devices,
}

impl Model for Import {
    ghost use Rattle.import.specs.DeviceViews.{Imported};

    ghost Value = { Imported };

    ghost view = { λ s. s.devices };
}

impl Import {
    ghost use Rattle.std.specs.Prelude.{Ok, length};
    ghost use Rattle.layout.specs.Reading.{reading};
    ghost use Rattle.import.specs.Most.{endpoints_out};

    /// The text of the layout, with comments.
    pub fn text(&self) -> &str
        ensures text { result.now ≡ self.now.layout.text }
        ensures layout { reading result.now ≡ Ok self.now.layout.platform }
    {
        self.devices.draft.text()
    }

    /// How many functions the layout has.
    pub fn function_count(&self) -> usize
        ensures { result ≡ length self.now.layout.platform.functions }
    {
        self.devices.draft.layout().functions().len()
    }

    /// The devices that the layout hasn't, in the order of their lines.
    pub fn left_out(&self) -> &[LeftOut]
        ensures { result.now ≡ self.now.left_out }
    {
        &self.devices.left_out
    }

    /// How many of these are endpoints.
    pub fn endpoints_out(&self) -> usize
        ensures { result ≡ endpoints_out self.now.left_out }
    {
        endpoints_out(&self.devices.left_out)
    }
}

/// The devices one after another, in a layout with these vectors.
#[tactic(auto, unfolding(crate::specs::Imports::made_with))]
fn made_with(
    alloc: Global,
    source: &Source<'_>,
    text: &str,
    vectors: &[EgressText],
) -> Result<Devices, NoMemory>
    ensures { IfOk result (λ devices. devices ≡ made_with text.now source.now.dump.now source.now.tree source.now.owners.now vectors.now) }
{
    let mut devices = Devices::start(alloc, vectors)?;
    let mut names = Names::new(text);
    for device in source.dump.devices() {
        devices.take(alloc, source, vectors, &mut names, device)?;
    }
    Ok(devices)
}

/// Adds these vectors. It answers whether no rule of layouts is against one of them.
fn take_vectors(
    alloc: Global,
    devices: &mut Devices,
    vectors: &[EgressText],
) -> Result<bool, NoMemory>
    ensures { IfOk result (λ taken. with_vectors vectors.now devices.old ≡ (if taken then Some devices.new else None)) }
{
    for vector in vectors {
        if !devices.take_vector(alloc, vector)? {
            return Ok(false);
        }
    }
    Ok(true)
}

/// The same devices in a layout that says these vectors, unless a rule of layouts is against one of them.
fn with_vectors(
    alloc: Global,
    source: &Source<'_>,
    text: &str,
    vectors: &[EgressText],
) -> Result<Option<Devices>, NoMemory>
    ensures { IfOk result (λ devices. devices ≡ with_vectors vectors.now (made_with text.now source.now.dump.now source.now.tree source.now.owners.now vectors.now)) }
{
    let mut devices = made_with(alloc, source, text, vectors)?;
    if take_vectors(alloc, &mut devices, vectors)? {
        Ok(Some(devices))
    } else {
        Ok(None)
    }
}

/// The devices in a layout that says the vectors that it can, or none.
fn imported(alloc: Global, source: &Source<'_>, text: &str) -> Result<Devices, NoMemory>
    ensures { IfOk result (λ devices. devices ≡ imported text.now source.now.dump.now source.now.tree source.now.owners.now) }
{
    let first = made_with(alloc, source, text, &[])?;
    let vectors = vectors_of(alloc, source, &first)?;
    if vectors.is_empty() {
        return Ok(first);
    }
    match with_vectors(alloc, source, text, &vectors)? {
        Some(second) => Ok(second),
        None => Ok(first),
    }
}

/// The first device of the list that has no place.
fn unplaced(left_out: &[LeftOut], owners: &[Owner]) -> Option<ImportFault>
    ensures { result ≡ unplaced left_out.now owners.now }
{
    for owner in owners {
        if let Some(part) = left_out_at(left_out, &owner.location) {
            return Some(ImportFault::Unplaced {
                device: MachineId::of(&owner.location),
                why: part.why,
            });
        }
    }
    None
}

/// Why there is no function, if there is none.
fn no_function(devices: &Devices) -> Option<ImportFault>
    ensures { result ≡ no_function devices.now }
{
    if !devices.draft.layout().functions().is_empty() {
        return None;
    }
    match most_frequent(&devices.left_out) {
        Some(part) => Some(ImportFault::NoPlace { why: part.why }),
        None => Some(ImportFault::NoEndpoint),
    }
}

/// Why this layout isn't given, if it isn't.
fn place_refusal(devices: &Devices, owners: &[Owner]) -> Option<ImportFault>
    ensures { result ≡ place_refusal owners.now devices.now }
{
    match unplaced(&devices.left_out, owners) {
        Some(fault) => Some(fault),
        None => no_function(devices),
    }
}

/// The layout with its comments, if it has a function, and all devices of the list.
fn placed(alloc: Global, source: &Source<'_>, text: &str) -> Result<Import, ImportFault>
    ensures { IsAnswer text.now (placed source.now.owners.now (imported text.now source.now.dump.now source.now.tree source.now.owners.now)) result }
{
    let mut devices = imported(alloc, source, text)?;
    if let Some(fault) = place_refusal(&devices, source.owners) {
        return Err(fault);
    }
    devices.tell_left_out(alloc, &mut Names::new(text))?;
    Ok(Import { devices })
}

/// Makes a layout of the devices of a dump, whose text has their names. It is of what is below the root port at a place,
/// or below all root ports of bus 00. The owners are those of a list; a port of the top switch below which no device
/// is in the list is a domain of its own.
///
/// # Errors
///
/// `Unprivileged` where 64 bytes are shown of each device. `NotRoot` where no root port stands at that place;
/// `OtherRoots` or `NoRoot` where none stands on bus 00; `NoDevice` for the first device of the list that the dump hasn't,
/// `TwoOwners` for the first port of the top switch below which stand two devices of different owners; `Unplaced` for
/// the first device of the list that the layout hasn't, `NoPlace` or `NoEndpoint` where the layout has no function; and
/// `NoMemory` where memory was refused.
pub fn import_dump(
    alloc: Global,
    dump: &Dump,
    text: &str,
    root: Option<Location>,
    owners: &[Owner],
) -> Result<Import, ImportFault>
    ensures exact { IsAnswer text.now (import_of text.now dump.now root owners.now) result }
{
    if is_hidden(dump) {
        return Err(ImportFault::Unprivileged);
    }
    let tree = tree_of(dump, root)?;
    if let Some(fault) = refusal(dump, &tree, owners) {
        return Err(fault);
    }
    let source = Source { dump, tree, owners };
    placed(alloc, &source, text)
}
