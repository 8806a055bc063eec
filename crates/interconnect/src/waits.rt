//! Which packets wait at a port for a place in a lane.

ghost use Rattle.std.specs.Prelude.{◌≡◌, ◌≤◌, ◌↔◌, IfOk, IfSome, IsTrue, None, length, replicate};
ghost use Rattle.port.specs.Courses.{course_of};
ghost use Rattle.interconnect.specs.Views.{IsSameRest, channels};
ghost use Rattle.interconnect.specs.Waits.{IsCourse, lane_of, waits_at};

use crate::interconnect::Interconnect;
use crate::outputs::{head_at, is_full_at};
use crate::pass::index_of;
use bridge::Bridge;
use fab_types::{Class, Cost, Head, Header, NoMemory, Parties, PortId};
use port::{Forwarding, Port};
use std::alloc::Global;
use topology::LinkEnd;

/// The lane that a packet with this head goes down.
#[derive(Clone, Copy, Debug, PartialEq, Eq)]
pub(crate) struct KnownCourse {
    head: Head,
    lane: usize,
}

/// Nothing is known of any port.
pub(crate) fn none_known(
    alloc: Global,
    ports: &[Port],
) -> Result<Vec<Option<KnownCourse>>, NoMemory>
    ensures { IfOk result (λ courses. courses.items ≡ replicate (length ports.now) None) }
{
    Ok(vec![in alloc; None; ports.len()]?)
}

fn lane_of(course: Forwarding) -> Option<usize>
    ensures { result ≡ lane_of course }
{
    match course {
        Forwarding::To(lane) => Some(lane),
        Forwarding::Stop(_) | Forwarding::NoCase => None,
    }
}

fn same_parties(one: Parties, other: Parties) -> bool
    ensures { IsTrue result ↔ (one ≡ other) }
{
    one == other
}

fn same_cost(one: Cost, other: Cost) -> bool
    ensures { IsTrue result ↔ (one ≡ other) }
{
    one.class == other.class && one.data.get() == other.data.get()
}

fn same_header(one: Header, other: Header) -> bool
    ensures { IsTrue result ↔ (one ≡ other) }
{
    one == other
}

fn same_head(one: &Head, other: &Head) -> bool
    ensures { IsTrue result ↔ (one.now ≡ other.now) }
{
    same_header(one.header, other.header)
        && same_parties(one.parties, other.parties)
        && same_cost(one.cost, other.cost)
}

/// The lane that a packet with this head goes down, if it goes on. It is kept for the next time: a packet that waits is
/// asked for in each sweep.
fn lane_for(
    known: &mut Option<KnownCourse>,
    port: &Port,
    bridge: &Bridge,
    head: &Head,
) -> Option<usize>
    requires { IfSome known.old (IsCourse bridge.now port.now.config) }
    ensures value { result ≡ lane_of (course_of bridge.now port.now.config head.now) }
    ensures within { IfSome result (λ lane. lane ≤ length port.now.config.exits) }
    ensures known { IfSome known.new (IsCourse bridge.now port.now.config) }
{
    if let Some(course) = known {
        if same_head(&course.head, head) {
            return Some(course.lane);
        }
    }
    let lane = lane_of(port.course(bridge, head))?;
    *known = Some(KnownCourse { head: *head, lane });
    Some(lane)
}

impl Interconnect {
    /// Does a class's eligible packet that came into this port wait for a place?
    /// It goes on by a lane of the port's switch, and that has none for its class. Not so where the port stops the packet or
    /// has no case for it, where no packet is eligible, and where there is no such port or nothing comes into it.
    pub fn waits(&mut self, id: PortId, class: Class) -> bool
        ensures value { result ≡ waits_at self.old id class }
        ensures same { channels self.new ≡ channels self.old }
        ensures rest { IsSameRest self.old self.new }
    {
        let Some(index) = index_of(&self.topology, id) else {
            return false;
        };
        let place = self.topology.places()[index];
        let Some(input) = place.input else {
            return false;
        };
        let Some(head) = head_at(&mut self.nodes, input, class) else {
            return false;
        };
        let known = &mut self.courses[index];
        let Some(output) = lane_for(known, &self.ports[index], &self.bridge, &head) else {
            return false;
        };
        let node = place.node;
        is_full_at(&mut self.nodes, LinkEnd { node, output }, class)
    }
}
