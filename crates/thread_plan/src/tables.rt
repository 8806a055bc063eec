//! Routes by the numbers of their workers.

ghost use Rattle.std.specs.Prelude.{◌≡◌, IfOk};
ghost use Rattle.thread_plan.specs.Plans.{wire_of, wires_of};

use crate::route::Route;
use crate::workers::number_of;
use fab_types::NoMemory;
use std::alloc::Global;
use thread_crew::WorkerId;
use thread_rings::Wire;

fn wire_of(workers: &[WorkerId], places: usize, route: &Route) -> Option<Wire>
    ensures { result ≡ wire_of workers.now places route.now }
{
    let from = number_of(workers, route.from)?;
    let to = number_of(workers, route.to)?;
    Some(Wire { from, to, places })
}

/// A wire for each route, for a ring of so many places.
pub(crate) fn wires_of(
    alloc: Global,
    workers: &[WorkerId],
    places: usize,
    routes: &[Route],
) -> Result<Vec<Wire>, NoMemory>
    ensures { IfOk result (λ wires. wires.items ≡ wires_of workers.now places routes.now) }
{
    Ok(
        routes
            .iter()
            .filter_map(|route| wire_of(workers, places, route))
            .collect(alloc)?,
    )
}
