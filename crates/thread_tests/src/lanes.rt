//! A ring of packets as the lane out of a port.

use bridge::Bridge;
use fab_types::{Bdf, Class, Cost, DomainId, Head, Header, Parties};
use frame_log::Log;
use layout::Layout;
use std::alloc::Global;
use std::test::Fail;
use switch_output::{LaneOut, VettedFrame};
use thread_rings::{InEnd, OutEnd, Wire, are_within, deal, lay};

const ONE_SWITCH: &str = "pciefab 1\nswitch 01:00.0 root\n";

const WIRES: [Wire; 1] = [Wire {
    from: 0,
    to: 1,
    places: 1,
}];

fn packet(bridge: &Bridge, log: &Log, number: u64) -> Option<VettedFrame> {
    let head = Head {
        parties: Parties::Upward(Bdf::from_bits(0x0300)),
        cost: Cost::of_payload(Class::Posted, 4)?,
        header: Header::Malformed,
    };
    let domain = DomainId::new(1)?;
    let (frame, token) = log.emit(domain, number, head, &[0x40]).ok()?;
    drop(token);
    VettedFrame::new(frame, bridge).ok()
}

fn both_ends(alloc: Global) -> Option<(OutEnd<VettedFrame>, InEnd<VettedFrame>)> {
    if !are_within(2, &WIRES) {
        return None;
    }
    let rings = lay(alloc, &WIRES).ok()?;
    let mut workers = deal(alloc, 2, rings).ok()?;
    let mut receiver = workers.pop()?;
    let mut sender = workers.pop()?;
    Some((sender.outs.pop()?, receiver.ins.pop()?))
}

/// How often the lane said no: when it is asked, and when it gives the second packet back.
fn refusals(out: &mut OutEnd<VettedFrame>, first: VettedFrame, second: VettedFrame) -> Option<u64> {
    if out.is_full(Class::Posted) || out.push(first).is_err() {
        return None;
    }
    if !out.is_full(Class::Posted) || out.push(second).is_ok() {
        return None;
    }
    Some(out.refusals)
}

/// The number of the packet that waits first, and that of the one that is taken.
fn numbers(input: &mut InEnd<VettedFrame>) -> Option<(u64, u64)> {
    if !input.has_item() {
        return None;
    }
    let first = input.front().frame().number();
    let packet = input.take_known();
    Some((first, packet.frame().number()))
}

/// Is there a place again, for one packet?
fn has_one_place(out: &mut OutEnd<VettedFrame>, packet: VettedFrame) -> bool {
    if !out.has_place() {
        return false;
    }
    out.put_reserved(packet);
    !out.has_place()
}

#[test]
fn a_ring_is_a_lane_that_counts_how_often_it_was_full(rt: HostRuntime) -> Result<(), Fail> {
    let log = Log::new(rt.alloc())?;
    let layout = Layout::read(rt.alloc(), ONE_SWITCH).map_err(|_| "no layout")?;
    let bridge = Bridge::new(rt.alloc(), &layout)?;
    let (mut out, mut input) = both_ends(rt.alloc()).ok_or("no ends")?;
    let first = packet(&bridge, &log, 7).ok_or("no packet")?;
    let second = packet(&bridge, &log, 8).ok_or("no packet")?;
    let third = packet(&bridge, &log, 9).ok_or("no packet")?;
    assert_eq!(rt; refusals(&mut out, first, second), Some(2));
    assert_eq!(rt; numbers(&mut input), Some((7, 7)));
    assert!(rt; has_one_place(&mut out, third));
    Ok(())
}
