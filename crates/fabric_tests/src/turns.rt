//! Turns of ports over queues in memory, with one domain at the desk.

use crate::fakes::{Giving, OneDomain, Place};
use crate::tenants::domain_of;
use bridge::Bridge;
use fab_types::Class::{Completion, NonPosted, Posted};
use fab_types::{Bdf, Class, Outcome, PortId};
use frame_log::Frame;
use lane::{FrameQueue, LaneIn};
use layout::Layout;
use layout_tests::EXAMPLE;
use port::{Port, Reports, TurnParts};
use std::alloc::Global;

fn port_id(id: u16) -> PortId {
    PortId::new(Bdf::from_bits(id))
}

/// A port and its surroundings: the packets that came into it, its switch's lanes, a domain, the reports.
#[derive(Drop)]
struct Scene {
    alloc: Global,
    bridge: Bridge,
    port: Port,
    input: FrameQueue<127>,
    outs: Vec<Giving>,
    desk: OneDomain,
    place: Place,
}

/// The lanes of a port's switch. Each takes this many packets.
fn lanes_of(alloc: Global, port: &Port, left: u64) -> Option<Vec<Giving>> {
    let mut outs = Vec::new(alloc);
    for _ in 0..port.lanes() {
        let lane = Giving {
            queue: FrameQueue::new(alloc).ok()?,
            left,
            refused: 0,
        };
        outs.push(lane).ok()?;
    }
    Some(outs)
}

/// The port of this ID, whose lanes each take this many packets, with the domain of this number.
fn port_with(alloc: Global, id: u16, number: u8, left: u64) -> Option<Scene> {
    let layout = Layout::read(alloc, EXAMPLE).ok()?;
    let bridge = Bridge::new(alloc, &layout).ok()?;
    let port = Port::new(alloc, &layout, port_id(id)).ok()??;
    let outs = lanes_of(alloc, &port, left)?;
    let domain = domain_of(alloc, &layout, number)?;
    let place = Place {
        reports: Reports::new(alloc),
        is_free: true,
        refused: 0,
    };
    Some(Scene {
        alloc,
        bridge,
        port,
        input: FrameQueue::new(alloc).ok()?,
        outs,
        desk: OneDomain { domain },
        place,
    })
}

impl Scene {
    /// A function submits the packet of these bytes, which comes into the port.
    fn submit(&mut self, function: u16, word: &str) -> bool {
        match self.submitted(function, word) {
            Some(frame) => self.input.put(frame).is_ok(),
            None => false,
        }
    }

    fn submitted(&mut self, function: u16, word: &str) -> Option<Frame> {
        let bytes = hex::decode(self.alloc, word).ok()?;
        self.desk
            .domain
            .submit(Bdf::from_bits(function), &bytes)
            .ok()
    }

    /// A turn of the port, which has a lane for each way out of its switch.
    fn turn(&mut self, class: Class) -> Option<Outcome> {
        if self.outs.len() != self.port.lanes() {
            return None;
        }
        let mut lanes = TurnParts {
            bridge: &self.bridge,
            input: &mut self.input,
            outs: self.outs.as_mut_slice(),
            desk: &mut self.desk,
            reporter: &mut self.place,
        };
        Some(self.port.turn(class, &mut lanes))
    }

    /// The number of the first packet that waits before the port, and how many there are.
    fn waiting(&self) -> Option<(u64, usize)> {
        let packets = self.input.all(self.alloc).ok()?;
        let first = packets.first()?;
        Some((first.number(), packets.len()))
    }

    fn moves(&mut self, class: Class) -> bool {
        matches!(self.turn(class), Some(Outcome::Moved))
    }

    fn rests(&mut self, class: Class) -> bool {
        matches!(self.turn(class), Some(Outcome::Idle))
    }

    /// Is this packet the first of so many that wait before the port?
    fn is_first(&self, number: u64, count: usize) -> bool {
        matches!(self.waiting(), Some((first, all)) if first == number && all == count)
    }

    fn rests_before(&mut self, number: u64, count: usize) -> bool {
        self.rests(Posted) && self.is_first(number, count)
    }

    fn stays(&mut self, number: u64, count: usize) -> bool {
        self.is_first(number, count) && self.rests_before(number, count)
    }

    /// Does the lane give this packet back, and it stays the first of so many before the port? From then on the lane
    /// takes one.
    fn gives_back(&mut self, number: u64, count: usize) -> bool {
        self.stays(number, count) && self.permit(0)
    }

    /// Does a packet of the class wait in this lane?
    fn has_sent(&mut self, lane: usize, class: Class) -> bool {
        match self.outs.get_mut(lane) {
            Some(out) => out.queue.head(class).is_some(),
            None => false,
        }
    }

    /// Lets a lane take one packet.
    fn permit(&mut self, lane: usize) -> bool {
        match self.outs.get_mut(lane) {
            Some(out) => {
                out.left = 1;
                true
            }
            None => false,
        }
    }

    /// Does the step go as it says?
    fn does(&mut self, step: Step) -> bool {
        match step {
            Step::Submits(word) => self.submit(SENDER, word),
            Step::Moves(class) => self.moves(class),
            Step::Rests(class) => self.rests(class),
            Step::Permits(lane) => self.permit(lane),
            Step::Sent(lane, class) => self.has_sent(lane, class),
            Step::SentNothing(lane, class) => !self.has_sent(lane, class),
            Step::FreesPlace(is_free) => {
                self.place.is_free = is_free;
                true
            }
            Step::HoldsReport => self.port.held_report().is_some(),
            Step::Reported(count) => self.place.reports.violations().len() == count,
        }
    }
}

/// A step of a test, and what is to come of it.
#[derive(Clone, Copy)]
enum Step {
    /// The function below the port submits a packet, which comes into the port.
    Submits(&'static str),
    /// A turn moves a packet of the class, or none.
    Moves(Class),
    Rests(Class),
    /// A lane takes one packet from now on.
    Permits(usize),
    /// A packet of the class waits in a lane, or none.
    Sent(usize, Class),
    SentNothing(usize, Class),
    /// From now on there is a place for a report, or there is none.
    FreesPlace(bool),
    HoldsReport,
    /// So many violations were reported.
    Reported(usize),
}

/// How many of these steps go as they say, at the port above 06:00.0 of domain 2, whose lanes each take this many
/// packets.
fn steps_done(alloc: Global, left: u64, steps: &[Step]) -> Option<usize> {
    let mut scene = port_with(alloc, PORT, 2, left)?;
    let mut done = 0_usize;
    for step in steps {
        if !scene.does(*step) {
            return Some(done);
        }
        done = done.wrapping_add(1);
    }
    Some(done)
}

/// Three packets go to a lane that takes so many of them, and each further one where it was asked once more: is each that it
/// gives back where it was, and do all go on in their order?
fn stay_until_taken(alloc: Global, left: u64) -> Option<bool> {
    let mut scene = port_with(alloc, PORT, 2, left)?;
    for _ in 0..3 {
        if !scene.submit(SENDER, WRITE_TO_A_PEER) {
            return None;
        }
    }
    for number in 0..3_u8 {
        let (packet, count) = (u64::from(number), usize::from(3 - number));
        if packet >= left && !scene.gives_back(packet, count) {
            return Some(false);
        }
        if !scene.moves(Posted) {
            return Some(false);
        }
    }
    Some(scene.waiting().is_none() && scene.has_sent(0, Posted))
}

const SENDER: u16 = 0x0600;

const PORT: u16 = 0x0500;

const SPOOFED_WRITE: &str = "400000010300000f00001000deadbeef";

const SPOOFED_READ: &str = "000000010300200f00001000";

const WRITE_TO_A_PEER: &str = "400000010600000f9000000000000001";

#[test]
fn a_packet_that_the_lane_gives_back_stays_where_it_was(rt: HostRuntime) {
    for left in 0..3 {
        assert_eq!(rt; stay_until_taken(rt.alloc(), left), Some(true));
    }
}

#[test]
fn an_answer_that_the_lane_gives_back_is_put_later(rt: HostRuntime) {
    let steps = [
        Step::Submits(SPOOFED_READ),
        Step::Moves(NonPosted),
        Step::SentNothing(1, Completion),
        Step::Permits(1),
        Step::Rests(NonPosted),
        Step::Sent(1, Completion),
    ];
    assert_eq!(rt; steps_done(rt.alloc(), 0, &steps), Some(steps.len()));
}

#[test]
fn nothing_goes_on_while_a_report_is_held(rt: HostRuntime) {
    let steps = [
        Step::FreesPlace(false),
        Step::Submits(SPOOFED_WRITE),
        Step::Submits(WRITE_TO_A_PEER),
        Step::Moves(Posted),
        Step::HoldsReport,
        Step::Rests(Posted),
        Step::FreesPlace(true),
        Step::Moves(Posted),
        Step::Reported(1),
        Step::SentNothing(0, Posted),
        Step::Moves(Posted),
        Step::Sent(0, Posted),
    ];
    assert_eq!(rt; steps_done(rt.alloc(), 16, &steps), Some(steps.len()));
}
