//! The plan of a layout's fabric in threads.

ghost use Rattle.std.specs.Prelude.{◌≡◌, IfOk, length};
ghost use Rattle.thread_rings.specs.Wired.{AreWithin};
ghost use Rattle.thread_plan.specs.Plans.{plan_of};

use crate::links::link_routes;
use crate::pairs::pair_routes;
use crate::route::turned;
use crate::tables::wires_of;
use crate::workers::workers_of;
use fab_types::NoMemory;
use layout::Layout;
use std::alloc::Global;
use std::marker::Model;
use thread_crew::WorkerId;
use thread_rings::Wire;

// How many packets a ring along a link has room for: as many as a receiver can have credits for, 127 of each class.
const LINK_PLACES: usize = 381;

// How many credit updates may be on the way, and how many packets between two ports of a switch.
const SHORT_PLACES: usize = 16;

/// Which workers the fabric of a layout has, and which rings.
/// A ring leads from one worker to another. A contract sees `Tables`.
#[derive(Drop)]
pub struct Plan {
    workers: Vec<WorkerId>,
    links: Vec<Wire>,
    credits: Vec<Wire>,
    pairs: Vec<Wire>,
}

impl Model for Plan {
    ghost use Rattle.thread_plan.specs.Plans.{IsSound, Tables, plan_view};

    ghost Value = { Tables };

    ghost view = { plan_view };

    ghost invariant = { IsSound };
}

impl Plan {
    /// The plan of a layout's fabric. It answers `NoMemory` where memory was refused.
    pub fn new(alloc: Global, layout: &Layout) -> Result<Plan, NoMemory>
        ensures { IfOk result (λ plan. plan ≡ plan_of layout.now) }
    {
        let workers = workers_of(alloc, layout)?;
        let routes = link_routes(alloc, layout)?;
        let back = turned(alloc, &routes)?;
        let between = pair_routes(alloc, layout)?;
        Ok(Plan {
            links: wires_of(alloc, &workers, LINK_PLACES, &routes)?,
            credits: wires_of(alloc, &workers, SHORT_PLACES, &back)?,
            pairs: wires_of(alloc, &workers, SHORT_PLACES, &between)?,
            workers,
        })
    }

    /// The workers; a worker's number is its place here.
    /// They are those of upstream ports, of downstream ports and of functions, each in the order of the
    /// layout's lines, and that of the host.
    pub fn workers(&self) -> &[WorkerId]
        ensures { result.now ≡ self.now.workers }
    {
        &self.workers
    }

    /// A wire for the packets of each direction of each link.
    /// First comes the one up the link and then the one down it, the links of switches before those of
    /// functions.
    pub fn links(&self) -> &[Wire]
        ensures value { result.now ≡ self.now.links }
        ensures within { AreWithin (length self.now.workers) result.now }
    {
        &self.links
    }

    /// A wire for the credits of each direction of each link.
    /// They stand in the same order. Each leads from the worker that takes the packets to the one that sends
    /// them.
    pub fn credits(&self) -> &[Wire]
        ensures value { result.now ≡ self.now.credits }
        ensures within { AreWithin (length self.now.workers) result.now }
    {
        &self.credits
    }

    /// A wire from each port of a switch to each port of it, itself too.
    /// They stand by switch, then by the port that a wire leads from, then by the other, the upstream port
    /// first and then the downstream ports in the order of the layout's lines.
    pub fn pairs(&self) -> &[Wire]
        ensures value { result.now ≡ self.now.pairs }
        ensures within { AreWithin (length self.now.workers) result.now }
    {
        &self.pairs
    }
}
