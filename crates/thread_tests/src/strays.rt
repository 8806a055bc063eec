//! A packet that nobody has a case for.

ghost use Rattle.std.specs.Prelude.{◌≡◌, IfSome};
ghost use Rattle.credit.specs.Limits.{MayStart};
ghost use Rattle.fab_types.specs.declared.class.Class.TheVariants.{Posted};
ghost use Rattle.lane.specs.Lanes.{class_of};

use credit::{Credits, Limits};
use fab_types::{Bdf, Class, Cost, DomainId, Head, Header, Parties};
use frame_log::{Frame, Log};
use link::Ingress;
use std::alloc::Global;
use thread_workers::{TakenBy, keep_stray};

/// Credits for a packet of each class.
fn one_packet() -> Limits
    ensures { MayStart result }
{
    Limits {
        posted: Credits::new(1, 1),
        non_posted: Credits::new(1, 1),
        completion: Credits::new(1, 1),
    }
}

fn packet(log: &Log) -> Option<Frame>
    ensures { IfSome result (λ frame. class_of frame ≡ Posted) }
{
    let head = Head {
        parties: Parties::Upward(Bdf::from_bits(0x0300)),
        cost: Cost::of_payload(Class::Posted, 4)?,
        header: Header::Malformed,
    };
    let (frame, token) = log.emit(DomainId::new(1)?, 0, head, &[0x40]).ok()?;
    drop(token);
    Some(frame)
}

/// A packet comes, is taken, and kept: did it leave nothing behind, and how many strays are there?
fn kept(alloc: Global) -> Option<(bool, usize)> {
    let log = Log::new(alloc).ok()?;
    let frame = packet(&log)?;
    let mut input = Ingress::new(alloc, one_packet()).ok()?;
    if input.has_no_place(Class::Posted) {
        return None;
    }
    input.arrive(frame);
    let frame = input.release(Class::Posted)?;
    let mut strays = Vec::new(alloc);
    let is_stray = matches!(keep_stray(&mut input, &mut strays, frame), TakenBy::Stray);
    Some((is_stray && input.is_empty(), strays.len()))
}

#[test]
fn a_packet_without_a_case_stands_among_the_strays(rt: HostRuntime) {
    assert_eq!(rt; kept(rt.alloc()), Some((true, 1)));
}
