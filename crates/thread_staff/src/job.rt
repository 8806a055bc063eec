//! What a worker has beside the ends of its rings.

ghost use Rattle.std.specs.Prelude.{◌≡◌};
ghost use Rattle.thread_rings.specs.Wired.{tags_of};
ghost use Rattle.thread_staff.specs.Kept.{duty_of, seat_in};

use credit::Limits;
use frame_log::Frame;
use std::sync::Wait;
use switch_output::VettedFrame;
use thread_rings::Ends;
use thread_workers::{FunctionWork, HostWork, PortWork};

/// The work of a port, of a function or of the host.
#[derive(Drop)]
pub enum Job {
    /// The work of a port of a switch.
    Port(PortWork),
    /// The work of a function.
    Function(FunctionWork),
    /// The work of the host.
    Host(HostWork),
}

impl Job {
    /// Makes one turn of the work, with the worker's ends of rings.
    pub fn turn<R: Wait>(
        &mut self,
        rt: &R,
        links: &mut Ends<Frame>,
        credits: &mut Ends<Limits>,
        pairs: &mut Ends<VettedFrame>,
    )
        ensures duty { duty_of self.new ≡ duty_of self.old }
        ensures seat { seat_in self.new ≡ seat_in self.old }
        ensures links { tags_of links.new ≡ tags_of links.old }
        ensures credits { tags_of credits.new ≡ tags_of credits.old }
        ensures pairs { tags_of pairs.new ≡ tags_of pairs.old }
    {
        match self {
            Job::Port(work) => work.turn(rt, links, credits, pairs),
            Job::Function(work) => work.turn(rt, links, credits),
            Job::Host(work) => work.turn(rt, links, credits),
        }
    }
}
