//! Ways between workers.

ghost use Rattle.std.specs.Prelude.{◌≡◌, IfOk, map};
ghost use Rattle.thread_plan.specs.Routes.{back, route};

use fab_types::NoMemory;
use std::alloc::Global;
use thread_crew::WorkerId;

/// Who puts items into a ring, and who takes them out.
#[derive(Clone, Copy, Debug, PartialEq, Eq)]
pub(crate) struct Route {
    /// The worker that puts items in.
    pub from: WorkerId,
    /// The worker that takes them out.
    pub to: WorkerId,
}

impl Route {
    /// The route from the first worker to the second.
    pub fn between(from: &WorkerId, to: &WorkerId) -> Route
        ensures { result ≡ route from.now to.now }
    {
        Route {
            from: *from,
            to: *to,
        }
    }

    /// The route the other way.
    pub fn back(&self) -> Route
        ensures { result ≡ back self.now }
    {
        Route {
            from: self.to,
            to: self.from,
        }
    }
}

/// The same routes, each the other way.
pub(crate) fn turned(alloc: Global, routes: &[Route]) -> Result<Vec<Route>, NoMemory>
    ensures { IfOk result (λ turned. turned.items ≡ map back routes.now) }
{
    Ok(routes.iter().map(|route| route.back()).collect(alloc)?)
}
