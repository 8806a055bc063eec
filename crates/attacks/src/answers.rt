//! Reads in the names of a domain that a function answers to whom they name, since they go to it past the host.

ghost use Rattle.std.specs.Prelude.{◌≡◌, ◌++◌, IfOk, OnOk};
ghost use Rattle.std.specs.Option.{option_copied};
ghost use Rattle.attacks.specs.Tries.{answered, answered_by, reads, reads_at};

use crate::accesses::spoofed;
use crate::attack::{Access, Attack, Harm, Way};
use crate::names::names_of;
use crate::path::{is_validated_below, turn_of};
use fab_types::{Bdf, PortId};
use layout::{Layout, Start};
use platform::{DownstreamPort, EndpointFunction};
use std::alloc::{AllocError, Global};

/// The reads of this page in each of these names.
fn reads(
    alloc: Global,
    port: PortId,
    function: Bdf,
    page: u64,
    names: &[Bdf],
) -> Result<Vec<Attack>, AllocError>
    ensures { IfOk result (λ attacks. attacks.items ≡ reads port function page names.now) }
{
    names
        .iter()
        .map(|name| spoofed(
            port,
            function,
            *name,
            page,
            (Access::Read, Harm::Completion),
        ))
        .collect(alloc)
}

/// The reads of this address, which turn at this port.
fn reads_at(
    alloc: Global,
    ports: &[DownstreamPort],
    function: Bdf,
    names: &[Bdf],
    address: u64,
    turn: Option<&DownstreamPort>,
) -> Result<Vec<Attack>, AllocError>
    ensures { IfOk result (λ attacks. attacks.items ≡ reads_at ports.now function names.now address (option_copied turn.entry)) }
{
    match turn {
        Some(turn) if !is_validated_below(ports, function.bus(), turn) => {
            reads(alloc, turn.id, function, address / 4096, names)
        }
        _ => Ok(Vec::new(alloc)),
    }
}

/// Adds what a function answers to each of these names, since the read goes to it past the host.
fn add_answered(
    alloc: Global,
    attacks: &mut Vec<Attack>,
    ports: &[DownstreamPort],
    function: Bdf,
    names: &[Bdf],
    line: &EndpointFunction,
) -> Result<(), AllocError>
    ensures { OnOk result (attacks.new.items ≡ attacks.old.items ++ answered_by ports.now function names.now line.now) }
{
    let address = u64::from(line.bar);
    let turn = turn_of(ports, function.bus(), address);
    let more = reads_at(alloc, ports, function, names, address, turn)?;
    attacks.extend_from_slice(&more)?;
    Ok(())
}

/// What other functions answer to the IDs of the domain, if completions are to harm it.
pub(crate) fn answered(
    alloc: Global,
    layout: &Layout,
    way: Way,
    function: Bdf,
    victim: &Start,
) -> Result<Vec<Attack>, AllocError>
    ensures { IfOk result (λ attacks. attacks.items ≡ answered layout.now way function victim.now) }
{
    let mut attacks = Vec::new(alloc);
    if !matches!(way, Way::Completion) {
        return Ok(attacks);
    }
    let names = names_of(alloc, victim)?;
    for line in layout.functions() {
        add_answered(alloc, &mut attacks, layout.ports(), function, &names, line)?;
    }
    Ok(attacks)
}
