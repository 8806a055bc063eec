//! All packets that a fabric left are noted, by their names.

ghost use Rattle.std.specs.Prelude.{[], ◌∷◌, IfOk, OnOk, map, option_to_list};
ghost use Rattle.std.specs.List.{flat_map};
ghost use Rattle.std.specs.Option.{option_copied};
ghost use Rattle.thread_workers.specs.Sides.{landed, leaving};
ghost use Rattle.outboxes.specs.Outboxes.{waiting};
ghost use Rattle.thread_totals.specs.Named.{AreNoted};
ghost use Rattle.thread_totals.specs.Standing.{at_side, frames_left, in_hands, in_link, in_outbox, in_pair, in_parts};
ghost use Rattle.thread_staff.specs.declared.remains.Parts.TheVariants as parts;

use crate::packet_name::{PacketName, name_of};
use fab_types::NoMemory;
use frame_log::Frame;
use outboxes::OriginBox;
use std::alloc::Global;
use switch_output::VettedFrame;
use thread_rings::RingTally;
use thread_staff::{Parts, PortRemains, Remains};
use thread_workers::{DomainHost, FunctionParts, HostParts, LinkSide};

fn note(names: &mut Vec<PacketName>, frame: &Frame) -> Result<(), NoMemory>
    ensures { OnOk result (AreNoted names.old.items (frame.now ∷ []) names.new.items) }
{
    names.push(name_of(frame))?;
    Ok(())
}

/// Notes packets that are lent one by one.
fn note_lent(names: &mut Vec<PacketName>, frames: &[&Frame]) -> Result<(), NoMemory>
    ensures { OnOk result (AreNoted names.old.items (map (λ frame. frame.now) frames.now) names.new.items) }
{
    for frame in frames {
        note(names, frame)?;
    }
    Ok(())
}

fn note_frames(names: &mut Vec<PacketName>, frames: &[Frame]) -> Result<(), NoMemory>
    ensures { OnOk result (AreNoted names.old.items frames.now names.new.items) }
{
    for frame in frames {
        note(names, frame)?;
    }
    Ok(())
}

fn note_vetted(names: &mut Vec<PacketName>, packets: &[VettedFrame]) -> Result<(), NoMemory>
    ensures { OnOk result (AreNoted names.old.items (map (λ packet. packet.frame) packets.now) names.new.items) }
{
    for packet in packets {
        note(names, packet.frame())?;
    }
    Ok(())
}

/// What waits to be sent at a side of a link.
fn note_leaving(alloc: Global, names: &mut Vec<PacketName>, side: &LinkSide) -> Result<(), NoMemory>
    ensures { OnOk result (AreNoted names.old.items (leaving side.now) names.new.items) }
{
    let waiting = side.egress.all(alloc)?;
    note_lent(names, &waiting)?;
    Ok(())
}

/// What has come there.
fn note_landed(alloc: Global, names: &mut Vec<PacketName>, side: &LinkSide) -> Result<(), NoMemory>
    ensures { OnOk result (AreNoted names.old.items (landed side.now) names.new.items) }
{
    let waiting = side.ingress.all(alloc)?;
    note_lent(names, &waiting)?;
    Ok(())
}

#[tactic(auto, using(crate::proofs::Naming::noted_then))]
fn note_side(alloc: Global, names: &mut Vec<PacketName>, side: &LinkSide) -> Result<(), NoMemory>
    ensures { OnOk result (AreNoted names.old.items (at_side side.now) names.new.items) }
{
    note_leaving(alloc, names, side)?;
    note_landed(alloc, names, side)?;
    Ok(())
}

fn note_outbox(
    alloc: Global,
    names: &mut Vec<PacketName>,
    outbox: &OriginBox,
) -> Result<(), NoMemory>
    ensures { OnOk result (AreNoted names.old.items (waiting outbox.now) names.new.items) }
{
    let waiting = outbox.all(alloc)?;
    note_lent(names, &waiting)?;
    Ok(())
}

/// The answer that a port keeps, if it keeps one.
fn note_answer(names: &mut Vec<PacketName>, answer: Option<&Frame>) -> Result<(), NoMemory>
    ensures { OnOk result (AreNoted names.old.items (option_to_list (option_copied answer.entry)) names.new.items) }
{
    if let Some(frame) = answer {
        note(names, frame)?;
    }
    Ok(())
}

fn note_port(alloc: Global, names: &mut Vec<PacketName>, left: &PortRemains) -> Result<(), NoMemory>
    ensures { OnOk result (AreNoted names.old.items (in_parts (parts.Port left.now)) names.new.items) }
{
    note_side(alloc, names, &left.side)?;
    note_answer(names, left.port.kept_answer())?;
    note_frames(names, left.port.strays())?;
    Ok(())
}

fn note_function(
    alloc: Global,
    names: &mut Vec<PacketName>,
    left: &FunctionParts,
) -> Result<(), NoMemory>
    ensures { OnOk result (AreNoted names.old.items (in_parts (parts.Function left.now)) names.new.items) }
{
    note_outbox(alloc, names, &left.outbox)?;
    note_side(alloc, names, &left.side)?;
    note_frames(names, &left.strays)?;
    Ok(())
}

/// What waits in the outboxes of hosts.
fn note_hosts(
    alloc: Global,
    names: &mut Vec<PacketName>,
    hosts: &[DomainHost],
) -> Result<(), NoMemory>
    ensures { OnOk result (AreNoted names.old.items (flat_map in_outbox hosts.now) names.new.items) }
{
    for host in hosts {
        note_outbox(alloc, names, &host.outbox)?;
    }
    Ok(())
}

fn note_host(alloc: Global, names: &mut Vec<PacketName>, left: &HostParts) -> Result<(), NoMemory>
    ensures { OnOk result (AreNoted names.old.items (in_parts (parts.Host left.now)) names.new.items) }
{
    note_hosts(alloc, names, &left.hosts)?;
    note_side(alloc, names, &left.side)?;
    note_frames(names, &left.strays)?;
    Ok(())
}

/// What a worker had in its hands.
fn note_hands(alloc: Global, names: &mut Vec<PacketName>, remains: &Remains) -> Result<(), NoMemory>
    ensures { OnOk result (AreNoted names.old.items (in_hands remains.now) names.new.items) }
{
    match &remains.parts {
        Parts::Port(left) => note_port(alloc, names, left),
        Parts::Function(left) => note_function(alloc, names, left),
        Parts::Host(left) => note_host(alloc, names, left),
    }
}

fn note_all_hands(
    alloc: Global,
    names: &mut Vec<PacketName>,
    remains: &[Remains],
) -> Result<(), NoMemory>
    ensures { OnOk result (AreNoted names.old.items (flat_map in_hands remains.now) names.new.items) }
{
    for worker in remains {
        note_hands(alloc, names, worker)?;
    }
    Ok(())
}

/// What is left in the rings of links.
fn note_links(names: &mut Vec<PacketName>, rings: &[RingTally<Frame>]) -> Result<(), NoMemory>
    ensures { OnOk result (AreNoted names.old.items (flat_map in_link rings.now) names.new.items) }
{
    for ring in rings {
        note_frames(names, &ring.left)?;
    }
    Ok(())
}

/// What is left in the rings between the ports of switches.
fn note_pairs(names: &mut Vec<PacketName>, rings: &[RingTally<VettedFrame>]) -> Result<(), NoMemory>
    ensures { OnOk result (AreNoted names.old.items (flat_map in_pair rings.now) names.new.items) }
{
    for ring in rings {
        note_vetted(names, &ring.left)?;
    }
    Ok(())
}

/// The name of each packet that stands anywhere, as often as it does.
pub(crate) fn standing(
    alloc: Global,
    remains: &[Remains],
    links: &[RingTally<Frame>],
    pairs: &[RingTally<VettedFrame>],
) -> Result<Vec<PacketName>, NoMemory>
    ensures { IfOk result (λ names. AreNoted [] (frames_left remains.now links.now pairs.now) names.items) }
{
    let mut names = Vec::new(alloc);
    note_all_hands(alloc, &mut names, remains)?;
    note_links(&mut names, links)?;
    note_pairs(&mut names, pairs)?;
    Ok(names)
}
