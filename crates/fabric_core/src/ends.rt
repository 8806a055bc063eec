//! Packets that the host or a function takes.

ghost use Rattle.std.specs.Prelude.{◌≡◌, List};
ghost use Rattle.fab_types.specs.declared.violation.Violation.{Violation};
ghost use Rattle.fab_types.specs.declared.outcome.Outcome.TheVariants.{NoMemory};
ghost use Rattle.topology.specs.Links.{sender_of};
ghost use Rattle.topology.specs.Topologies.{IsEnd};
ghost use Rattle.fabric_core.specs.declared.event.Event.TheVariants.{Arrive, Root};
ghost use Rattle.fabric_core.specs.Arrivals.{agents_by_function, agents_by_host, received_in, from_host, own_by_function, own_by_host};
ghost use Rattle.received.specs.Received.{received_at_host};
ghost use Rattle.received.specs.Receivers.{receiver_at_host};
ghost use Rattle.fabric_core.specs.Events.{StepsTo};
ghost use Rattle.fabric_core.specs.Settling.{IsBack, IsTaken, IsTakenIn, EntryWants, Relays, Settles, Strays, Takes, entry_by_function, entry_by_host};
ghost use Rattle.domains.specs.Aliens.{owner_of_frame};
ghost use Rattle.domains.specs.Domains.{Emits};
ghost use Rattle.fabric_core.specs.World.{world_over};

use crate::wires::TOP_SWITCH;
use domains::Agents;
use fab_types::{Bdf, Class, Direction, DomainId, Outcome, Place, Way};
use frame_log::{Frame, FrameFault};
use interconnect::Interconnect;
use received::{Received, is_relayed, received_at_function, received_at_host, receiver_at_host};
use topology::LinkEnd;

/// The link between the host and the top switch.
pub(crate) fn top_link(way: Way) -> Direction
    ensures { result ≡ record { lower = 0x0100; way = way } }
{
    Direction {
        lower: Bdf::from_bits(TOP_SWITCH),
        way,
    }
}

/// The packet stays where it was taken.
fn put_back(interconnect: &mut Interconnect, end: LinkEnd, frame: Frame) -> Outcome
    requires end { IsEnd (interconnect.old.tree).outputs end }
    requires taken { IsTaken interconnect.old end frame }
    ensures value { result ≡ NoMemory }
    ensures back { IsBack interconnect.old interconnect.new end frame }
{
    interconnect.put_back_at(end, frame);
    Outcome::NoMemory
}

/// Nobody has a case for the packet.
fn keep_stray(
    interconnect: &mut Interconnect,
    strays: &mut Vec<Frame>,
    end: LinkEnd,
    frame: Frame,
) -> Outcome
    requires end { IsEnd (interconnect.old.tree).outputs end }
    requires taken { IsTaken interconnect.old end frame }
    ensures { Strays interconnect.old interconnect.new strays.old.items strays.new.items end frame result }
{
    match strays.push(frame) {
        Ok(()) => Outcome::Moved,
        Err(failed) => put_back(interconnect, end, failed.value),
    }
}

/// What becomes of a packet that its home took or gave back.
fn settle(
    interconnect: &mut Interconnect,
    strays: &mut Vec<Frame>,
    end: LinkEnd,
    ended: Result<(), FrameFault>,
) -> Outcome
    requires end { IsEnd (interconnect.old.tree).outputs end }
    requires taken { IsTakenIn interconnect.old end ended }
    ensures { Settles interconnect.old interconnect.new strays.old.items strays.new.items end result ended }
{
    match ended {
        Ok(()) => Outcome::Moved,
        Err(FrameFault::Stray(frame)) => keep_stray(interconnect, strays, end, frame),
        Err(FrameFault::NoMemory(frame)) => put_back(interconnect, end, frame),
    }
}

/// The host sends the eligible packet of a class down again, if the root port has a place for it.
fn relay(interconnect: &mut Interconnect, end: LinkEnd, class: Class) -> Outcome
    requires { IsEnd (interconnect.old.tree).outputs end }
    ensures { Relays interconnect.old interconnect.new (sender_of (interconnect.old.tree).links from_host) end class result }
{
    let Some(exit) = interconnect.sender(top_link(Way::Down)) else {
        return Outcome::Idle;
    };
    if interconnect.is_full_at(exit, class) {
        return Outcome::Idle;
    }
    match interconnect.take_at(end, class) {
        Some(frame) => {
            interconnect.put_at(exit, frame);
            Outcome::Moved
        }
        None => Outcome::Idle,
    }
}

/// The domain that a packet at the host is for, or else its home.
fn receiver_of(interconnect: &Interconnect, agents: &Agents, frame: &Frame) -> DomainId
    ensures { result ≡ receiver_at_host (interconnect.now.routes).ports (owner_of_frame agents.now.domains) frame.now }
{
    receiver_at_host(interconnect.bridge(), agents, frame)
}

fn end_at_host(
    interconnect: &Interconnect,
    agents: &mut Agents,
    frame: Frame,
) -> Result<(), FrameFault>
    ensures { Takes (agents_by_host (interconnect.now.routes).ports agents.old frame (received_at_host frame)) (EntryWants (entry_by_host agents.old.domains frame (received_at_host frame))) frame agents.old agents.new result }
{
    match end_at_home(agents, frame) {
        Err(FrameFault::Stray(frame)) => {
            let receiver = receiver_of(interconnect, agents, &frame);
            agents.alien_at_host(receiver, Place::Ingress(top_link(Way::Up)), frame)
        }
        ended => ended,
    }
}

/// The host of its home takes a packet, which is stray where its home has no case for it.
fn end_at_home(agents: &mut Agents, frame: Frame) -> Result<(), FrameFault>
    ensures { Takes (own_by_host agents.old frame (received_at_host frame)) (Emits (entry_by_host agents.old.domains frame (received_at_host frame))) frame agents.old agents.new result }
{
    match received_at_host(&frame) {
        Received::Request => agents.carry_by_host(frame),
        Received::Completion => agents.complete(frame),
        Received::Relayed => Err(FrameFault::Stray(frame)),
        Received::Unknown => Err(FrameFault::Stray(frame)),
    }
}

/// The host takes the eligible packet of a class.
pub(crate) fn arrive_at_host(
    interconnect: &mut Interconnect,
    agents: &mut Agents,
    strays: &mut Vec<Frame>,
    class: Class,
) -> Outcome
    ensures { (violations : List Violation) → StepsTo (world_over interconnect.old agents.old violations strays.old.items) (Root class) result (world_over interconnect.new agents.new violations strays.new.items) }
{
    let Some(end) = interconnect.sender(top_link(Way::Up)) else {
        return Outcome::Idle;
    };
    let Some(head) = interconnect.head_at(end, class) else {
        return Outcome::Idle;
    };
    if is_relayed(head.header) {
        return relay(interconnect, end, class);
    }
    let Some(frame) = interconnect.take_at(end, class) else {
        return Outcome::Idle;
    };
    let ended = end_at_host(interconnect, agents, frame);
    settle(interconnect, strays, end, ended)
}

fn end_at_function(
    interconnect: &Interconnect,
    agents: &mut Agents,
    function: Bdf,
    frame: Frame,
) -> Result<(), FrameFault>
    ensures { Takes (agents_by_function agents.old function frame (received_in (interconnect.now.routes).ports agents.old.domains function frame)) (EntryWants (entry_by_function agents.old.domains function frame (received_in (interconnect.now.routes).ports agents.old.domains function frame))) frame agents.old agents.new result }
{
    match end_at_own(interconnect, agents, function, frame) {
        Err(FrameFault::Stray(frame)) => {
            let down = Direction {
                lower: function,
                way: Way::Down,
            };
            agents.alien_at_function(function, Place::Ingress(down), frame)
        }
        ended => ended,
    }
}

/// A function takes a packet of its own domain, which is stray where that has no case for it.
fn end_at_own(
    interconnect: &Interconnect,
    agents: &mut Agents,
    function: Bdf,
    frame: Frame,
) -> Result<(), FrameFault>
    ensures { Takes (own_by_function agents.old function frame (received_in (interconnect.now.routes).ports agents.old.domains function frame)) (Emits (entry_by_function agents.old.domains function frame (received_in (interconnect.now.routes).ports agents.old.domains function frame))) frame agents.old agents.new result }
{
    let is_own = agents.is_function_of(function, frame.domain());
    match received_at_function(interconnect.bridge(), function, is_own, &frame) {
        Received::Request => agents.carry_by_function(function, frame),
        Received::Completion => agents.complete(frame),
        Received::Relayed => Err(FrameFault::Stray(frame)),
        Received::Unknown => Err(FrameFault::Stray(frame)),
    }
}

/// A function takes the eligible packet of a class. That the layout has the function is tested last, since mostly
/// nothing waits.
pub(crate) fn arrive(
    interconnect: &mut Interconnect,
    agents: &mut Agents,
    strays: &mut Vec<Frame>,
    function: Bdf,
    class: Class,
) -> Outcome
    ensures { (violations : List Violation) → StepsTo (world_over interconnect.old agents.old violations strays.old.items) (Arrive function class) result (world_over interconnect.new agents.new violations strays.new.items) }
{
    let down = Direction {
        lower: function,
        way: Way::Down,
    };
    let Some(end) = interconnect.sender(down) else {
        return Outcome::Idle;
    };
    if interconnect.head_at(end, class).is_none() || !agents.has_function(function) {
        return Outcome::Idle;
    }
    let Some(frame) = interconnect.take_at(end, class) else {
        return Outcome::Idle;
    };
    let ended = end_at_function(interconnect, agents, function, frame);
    settle(interconnect, strays, end, ended)
}
