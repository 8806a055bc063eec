//! The rings of a fabric, with their ends dealt out.

ghost use Rattle.std.specs.Prelude.{◌≡◌, IfOk, length, map, vec_len};
ghost use Rattle.thread_rings.specs.Wired.{AreWithin, tags_of};
ghost use Rattle.port_threads.specs.Building.{AreRingsOf};
ghost use Rattle.port_threads.specs.Fabrics.{AreDealt};

use credit::Limits;
use fab_types::NoMemory;
use frame_log::Frame;
use std::alloc::Global;
use std::snapshot::Snapshot;
use switch_output::VettedFrame;
use thread_plan::Plan;
use thread_rings::{Ends, Laid, Wire, deal, lay};

/// The rings of one table: the ends of each worker, and the rings as they were laid, for contracts alone.
#[derive(Drop)]
pub(crate) struct Strand<T: Drop> {
    /// The ends of each worker, by its number.
    pub ends: Vec<Ends<T>>,
    /// The rings as they were laid, for contracts alone.
    pub made: Snapshot<Vec<Laid<T>>>,
}

/// The rings of the three tables of a plan.
#[derive(Drop)]
pub(crate) struct Rings {
    /// The rings of packets on links.
    pub links: Strand<Frame>,
    /// The rings of credits.
    pub credits: Strand<Limits>,
    /// The rings between the ports of switches.
    pub pairs: Strand<VettedFrame>,
}

/// Lays a ring for each wire, and deals their ends out to so many workers.
fn strung<T: Drop>(alloc: Global, count: usize, wires: &[Wire]) -> Result<Strand<T>, NoMemory>
    requires { AreWithin count wires.now }
    ensures dealt { IfOk result (λ s. AreDealt wires.now s.made.value.items (map tags_of s.ends.items)) }
    ensures count { IfOk result (λ s. vec_len s.ends ≡ count) }
{
    let rings = lay(alloc, wires)?;
    let made = Snapshot::of(&rings);
    let ends = deal(alloc, count, rings)?;
    Ok(Strand { ends, made })
}

/// The rings of a plan, dealt out to its workers. It answers `NoMemory` where memory was refused.
pub(crate) fn rings_of(alloc: Global, plan: &Plan) -> Result<Rings, NoMemory>
    ensures { IfOk result (λ rings. AreRingsOf plan.now rings) }
{
    let count = plan.workers().len();
    let links = strung(alloc, count, plan.links())?;
    let credits = strung(alloc, count, plan.credits())?;
    let pairs = strung(alloc, count, plan.pairs())?;
    Ok(Rings {
        links,
        credits,
        pairs,
    })
}
