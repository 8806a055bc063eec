//! A packet ends at the host.

ghost use Rattle.std.specs.Prelude.{◌≡◌, ◌≢◌, ◌++◌, ◌∷◌, [], IsSome, None, Some, false};
ghost use Rattle.lane.specs.Lanes.{eligible};
ghost use Rattle.lane.specs.Queues.{frames_of, frames_restored};
ghost use Rattle.thread_workers.specs.HostEnds.{EndsAsAlien, EndsAsStray, EndsAtHome, IsUnreceived, StaysThere, TakesAlienAt, at_host};
ghost use Rattle.thread_workers.specs.Hosts.{AreSameHosts, HostChanges};
ghost use Rattle.received.specs.Receivers.{receiver_at_host};
ghost use Rattle.thread_workers.specs.FrameOwners.{owner_of_frame};
ghost use Rattle.thread_workers.specs.Relaying.{AreRelayed};

use crate::ends::{NotTaken, TakenBy, end_alien, keep_stray};
use crate::host::domain_host::DomainHost;
use crate::host::frame_owners::FrameOwners;
use crate::host::hosts::{end_at_home, host_place};
use bridge::Bridge;
use fab_types::{Bdf, Class, Direction, DomainId, Place, Way};
use frame_log::Frame;
use link::Ingress;
use received::receiver_at_host;
use std::sync::Wait;
use thread_domains::Locks;

// The ID of the top switch, at the lower end of the host's link.
const TOP_SWITCH: u16 = 0x0100;

/// Where the host takes packets: up the link of the top switch.
fn at_host() -> Place
    ensures { result ≡ at_host }
{
    Place::Ingress(Direction {
        lower: Bdf::from_bits(TOP_SWITCH),
        way: Way::Up,
    })
}

/// This domain gets the entry of a packet that was just taken, for which its home has no case.
#[tactic(auto, using(crate::proofs::Growing::same_hosts))]
fn end_as_alien<R: Wait>(
    rt: &R,
    locks: &Locks,
    receiver: DomainId,
    hosts: &mut [DomainHost],
    input: &mut Ingress,
    strays: &mut Vec<Frame>,
    frame: Frame,
) -> TakenBy
    requires { IsSome (frames_restored input.old.queue.queue frame) }
    ensures alien { result ≡ TakenBy.Alien → HostChanges receiver (TakesAlienAt receiver frame) hosts.old hosts.new × (frames_of input.new.queue.queue.waiting ≡ frames_of input.old.queue.queue.waiting) × (strays.new.items ≡ strays.old.items) }
    ensures stray { result ≡ TakenBy.Stray → IsUnreceived locks.now receiver hosts.old frame × AreSameHosts hosts.old hosts.new × (frames_of input.new.queue.queue.waiting ≡ frames_of input.old.queue.queue.waiting) × (strays.new.items ≡ strays.old.items ++ frame ∷ []) }
    ensures waits { result ≡ TakenBy.Waits → AreSameHosts hosts.old hosts.new × (frames_restored input.old.queue.queue frame ≡ Some (frames_of input.new.queue.queue.waiting)) × (strays.new.items ≡ strays.old.items) }
    ensures others { (result ≢ TakenBy.Own) × (result ≢ TakenBy.Idle) }
{
    match host_place(hosts, receiver) {
        Some(place) => end_alien(
            rt,
            locks,
            receiver,
            at_host(),
            &mut hosts[place].outbox,
            input,
            strays,
            frame,
        ),
        None => keep_stray(input, strays, frame),
    }
}

/// The host takes the eligible packet of a class, which it doesn't relay. Its home has an entry of it, or where
/// that has no case for it the domain that it is for, as only in layouts that aren't guarded; what follows waits in the
/// outbox of that domain's host, and the record of a completion goes out there. Else it is kept, or it waits: memory was
/// refused, or it is a completion and its host's ring holds a record.
pub(crate) fn end_here<R: Wait>(
    rt: &R,
    class: Class,
    input: &mut Ingress,
    hosts: &mut [DomainHost],
    frames: &FrameOwners,
    bridge: &Bridge,
    locks: &Locks,
    strays: &mut Vec<Frame>,
) -> TakenBy
    requires { AreRelayed false class (frames_of input.old.queue.queue.waiting) }
    ensures own { result ≡ TakenBy.Own → EndsAtHome class (frames_of input.old.queue.queue.waiting) (frames_of input.new.queue.queue.waiting) hosts.old hosts.new strays.old.items strays.new.items }
    ensures alien { result ≡ TakenBy.Alien → EndsAsAlien locks.now (receiver_at_host bridge.now.ports (owner_of_frame frames.now)) class (frames_of input.old.queue.queue.waiting) (frames_of input.new.queue.queue.waiting) hosts.old hosts.new strays.old.items strays.new.items }
    ensures stray { result ≡ TakenBy.Stray → EndsAsStray locks.now (receiver_at_host bridge.now.ports (owner_of_frame frames.now)) class (frames_of input.old.queue.queue.waiting) (frames_of input.new.queue.queue.waiting) hosts.old hosts.new strays.old.items strays.new.items }
    ensures waits { result ≡ TakenBy.Waits → StaysThere (frames_of input.old.queue.queue.waiting) (frames_of input.new.queue.queue.waiting) hosts.old hosts.new strays.old.items strays.new.items }
    ensures idle { result ≡ TakenBy.Idle → (eligible class (frames_of input.old.queue.queue.waiting) ≡ None) × StaysThere (frames_of input.old.queue.queue.waiting) (frames_of input.new.queue.queue.waiting) hosts.old hosts.new strays.old.items strays.new.items }
{
    let Some(frame) = input.release(class) else {
        return TakenBy::Idle;
    };
    match end_at_home(rt, locks, hosts, frame) {
        Ok(()) => TakenBy::Own,
        Err(NotTaken::Stray(frame)) => {
            let receiver = receiver_at_host(bridge, frames, &frame);
            end_as_alien(rt, locks, receiver, hosts, input, strays, frame)
        }
        Err(NotTaken::Waits(frame)) => {
            input.give_back(frame);
            TakenBy::Waits
        }
    }
}
