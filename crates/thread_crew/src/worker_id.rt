//! Which worker one is.

use fab_types::{Bdf, PortId};

/// Names a worker, by what it works for.
#[derive(Clone, Copy, Debug, PartialEq, Eq)]
pub enum WorkerId {
    /// The worker of a switch's port.
    Port(PortId),
    /// The worker of a function.
    Function(Bdf),
    /// The worker of the host.
    Host,
    /// The worker that collects what ports report.
    Monitor,
}
