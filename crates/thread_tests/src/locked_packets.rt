//! Packets whose home has no lock.

use crate::locked_scenes::{GUARDED, SECOND, locks_of, submitted, write};
use fab_types::{Bdf, Direction, DomainId, Place, PortId, Way};
use frame_log::{Frame, FrameFault};
use std::alloc::Global;
use std::sync::Wait;
use thread_domains::Locks;

/// Where the host takes packets.
fn at_the_host() -> Place {
    Place::Ingress(Direction {
        lower: Bdf::from_bits(0x0100),
        way: Way::Up,
    })
}

/// No call takes the packet, whose home has no lock here.
fn strays<R: Wait>(rt: &R, locks: &Locks, frame: Frame) -> Option<Frame> {
    let Err(FrameFault::Stray(frame)) = locks.carry(rt, frame) else {
        return None;
    };
    let port = PortId::new(Bdf::from_bits(0x0200));
    let Err(FrameFault::Stray(frame)) = locks.refuse(rt, frame, port) else {
        return None;
    };
    let Err(FrameFault::Stray(frame)) = locks.complete(rt, frame) else {
        return None;
    };
    Some(frame)
}

/// Nor has its home's number a lock, bytes or an alien entry here.
fn has_no_lock<R: Wait>(rt: &R, locks: &Locks, frame: Frame) -> Option<Frame> {
    let number = DomainId::new(SECOND.number)?;
    if locks.has(number) || locks.bytes_of(rt, &frame).is_some() {
        return None;
    }
    let bytes = write(SECOND.bus);
    let Err(FrameFault::Stray(frame)) = locks.alien(rt, number, at_the_host(), frame, &bytes) else {
        return None;
    };
    Some(frame)
}

/// A packet of domain 2 goes to the locks of domain 1, and then to its own. Was it taken there?
fn is_taken_at_home<R: Wait>(rt: &R, alloc: Global) -> Option<bool> {
    let here = locks_of(alloc, GUARDED, &[1])?;
    let there = locks_of(alloc, GUARDED, &[2])?;
    let frame = submitted(rt, &there, SECOND, &write(SECOND.bus))?;
    let frame = strays(rt, &here, frame)?;
    let frame = has_no_lock(rt, &here, frame)?;
    Some(matches!(there.carry(rt, frame), Ok(None)))
}

#[test]
fn a_packet_whose_home_has_no_lock_is_given_back(rt: HostRuntime) {
    assert_eq!(rt; is_taken_at_home(&rt, rt.alloc()), Some(true));
}
