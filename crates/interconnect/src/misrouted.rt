//! What a port is about to misroute.

ghost use Rattle.std.specs.Prelude.{◌≡◌, ◌≤◌, IfSome, length};
ghost use Rattle.port.specs.Courses.{course_of};
ghost use Rattle.interconnect.specs.Misrouted.{misrouted_by, own_end};

use bridge::Bridge;
use fab_types::{Head, Place, Violation};
use port::Port;
use topology::LinkEnd;

/// A packet that came into a port and that the port has no case for.
#[derive(Clone, Copy, Debug, PartialEq, Eq)]
pub struct Misrouted {
    /// Where it was sent from: it waits at the receiver of this direction.
    pub input: LinkEnd,
    /// The output out of the port itself, by which its answer leaves.
    pub own: LinkEnd,
    /// Where it waits, as an entry names it.
    pub place: Place,
    /// The violation that the port finds, if it finds one.
    pub report: Option<Violation>,
}

fn own_end(port: &Port, node: usize) -> LinkEnd
    ensures value { result ≡ own_end node port.now.config }
    ensures within { result.output ≤ length port.now.config.exits }
{
    LinkEnd {
        node,
        output: port.own_lane(),
    }
}

/// A packet with this head, if the port has no case for it.
/// It came into the port, at a node, from an end.
pub(crate) fn misrouted_by(
    port: &Port,
    bridge: &Bridge,
    node: usize,
    input: LinkEnd,
    head: &Head,
) -> Option<Misrouted>
    ensures value { result ≡ misrouted_by bridge.now node input port.now.config head.now (course_of bridge.now port.now.config head.now) }
    ensures input { IfSome result (λ misrouted. misrouted.input ≡ input) }
    ensures own { IfSome result (λ misrouted. (misrouted.own.node ≡ node) × (misrouted.own.output ≤ length port.now.config.exits)) }
{
    let misroute = port.misroute_of(bridge, head)?;
    Some(Misrouted {
        input,
        own: own_end(port, node),
        place: misroute.place,
        report: misroute.report,
    })
}
