//! All packets at a place.

ghost use Rattle.std.specs.Prelude.{IfOk, map};
ghost use Rattle.std.specs.List.Sorted.{IsPermutation};
ghost use Rattle.interconnect.specs.Views.{channels};
ghost use Rattle.packet_places.specs.Standing.{channel_in, egress_of, ingress_of, standing_in, wire_of};

use domains::Agents;
use fab_types::{Direction, NoMemory, Place};
use frame_log::Frame;
use interconnect::Interconnect;
use std::alloc::Global;

fn at_sender(
    interconnect: &Interconnect,
    alloc: Global,
    direction: Direction,
) -> Result<Vec<&Frame>, NoMemory>
    ensures { IfOk result (λ all. IsPermutation (map (λ frame. frame.now) all.items) (egress_of (channel_in (interconnect.now.tree).links (channels interconnect.now) direction))) }
{
    match interconnect.sender(direction) {
        Some(end) => interconnect.direction_at(end).at_sender(alloc),
        None => Ok(Vec::new(alloc)),
    }
}

fn on_wire(
    interconnect: &Interconnect,
    alloc: Global,
    direction: Direction,
) -> Result<Vec<&Frame>, NoMemory>
    ensures { IfOk result (λ all. IsPermutation (map (λ frame. frame.now) all.items) (wire_of (channel_in (interconnect.now.tree).links (channels interconnect.now) direction))) }
{
    match interconnect.sender(direction) {
        Some(end) => interconnect.direction_at(end).on_wire(alloc),
        None => Ok(Vec::new(alloc)),
    }
}

fn at_receiver(
    interconnect: &Interconnect,
    alloc: Global,
    direction: Direction,
) -> Result<Vec<&Frame>, NoMemory>
    ensures { IfOk result (λ all. IsPermutation (map (λ frame. frame.now) all.items) (ingress_of (channel_in (interconnect.now.tree).links (channels interconnect.now) direction))) }
{
    match interconnect.sender(direction) {
        Some(end) => interconnect.direction_at(end).at_receiver(alloc),
        None => Ok(Vec::new(alloc)),
    }
}

/// All packets at a place, in no order that a caller may rely on.
pub(crate) fn standing<'a>(
    interconnect: &'a Interconnect,
    agents: &'a Agents,
    alloc: Global,
    place: &Place,
) -> Result<Vec<&'a Frame>, NoMemory>
    ensures { IfOk result (λ all. IsPermutation (map (λ frame. frame.now) all.items) (standing_in (interconnect.now.tree).links (channels interconnect.now) agents.now.outboxes place.now)) }
{
    match place {
        Place::Outbox(origin) => agents.all(alloc, *origin),
        Place::Egress(direction) => at_sender(interconnect, alloc, *direction),
        Place::Wire(direction) => on_wire(interconnect, alloc, *direction),
        Place::Ingress(direction) => at_receiver(interconnect, alloc, *direction),
    }
}
