//! What a port has no case for.

ghost use Rattle.std.specs.Prelude.{◌≡◌};
ghost use Rattle.port.specs.Courses.{course_of};
ghost use Rattle.port.specs.Misroutes.{misroute_of};

use crate::course::Forwarding;
use crate::port::Port;
use bridge::Bridge;
use fab_types::{Head, Place, Violation};

/// A packet that came into a port which has no case for it. In a layout that isn't guarded it ends there, by an
/// entry of a domain; in a guarded one none comes so far.
#[derive(Clone, Copy, Debug, PartialEq, Eq)]
pub struct Misroute {
    /// Where it waits, as an entry names it.
    pub place: Place,
    /// The ACS violation that the port finds, if it finds one (PCIe 4.0, 6.12.1.1).
    pub report: Option<Violation>,
}

impl Port {
    /// What a port misroutes: a packet that it has no case for.
    /// The packet came into the port with this head. There is none where the port has a case for it.
    pub fn misroute_of(&self, bridge: &Bridge, head: &Head) -> Option<Misroute>
        ensures { result ≡ misroute_of bridge.now self.now.config head.now (course_of bridge.now self.now.config head.now) }
    {
        match self.course(bridge, head) {
            Forwarding::To(_) | Forwarding::Stop(_) => None,
            Forwarding::NoCase => Some(Misroute {
                place: Place::Ingress(self.direction_in()),
                report: self.report_elsewhere(bridge, head),
            }),
        }
    }
}
