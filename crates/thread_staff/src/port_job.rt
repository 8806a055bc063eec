//! The worker of a port: made, and taken apart.

ghost use Rattle.std.specs.Prelude.{◌≡◌, ◌++◌, ◌∷◌, [], OnOk, map};
ghost use Rattle.std.specs.Arc.{arc_value};
ghost use Rattle.thread_crew.specs.declared.worker_id.WorkerId.TheVariants as worker;
ghost use Rattle.monitor.specs.Reporting.{seat_of};
ghost use Rattle.thread_staff.specs.Marks.{config_left};
ghost use Rattle.thread_staff.specs.declared.remains.Parts.TheVariants as parts;
ghost use Rattle.thread_staff.specs.Kept.{role_of};
ghost use Rattle.thread_staff.specs.Roles.{port_role};
ghost use Rattle.std.specs.Prelude.{Some};

use crate::remains::{Parts, PortRemains};
use crate::shared::Shared;
use crate::sides::side_of;
use crate::staff::Staff;
use fab_types::{NoMemory, PortId};
use layout::Layout;
use monitor::QueueReporter;
use port::Port;
use std::alloc::Global;
use thread_workers::{PortParts, PortWork};

/// Takes on the worker of a port of the layout, at its side of its link.
pub(crate) fn add_port(
    alloc: Global,
    layout: &Layout,
    shared: &Shared,
    id: PortId,
    port: Port,
    staff: &mut Staff,
) -> Result<(), NoMemory>
    ensures { OnOk result (map role_of staff.new ≡ map role_of staff.old ++ port_role (worker.Port id) port.config (arc_value shared.now.bridge) ∷ []) }
{
    let side = side_of(alloc, layout, port.direction_in().lower)?;
    let bridge = shared.bridge()?;
    let locks = shared.locks()?;
    staff.add_port(id, port, bridge, side, locks)?;
    Ok(())
}

/// What is left of a port's worker, and its end of the queue of violations.
pub(crate) fn port_parts(work: PortWork) -> (Parts, QueueReporter)
    ensures parts { result.0 ≡ parts.Port (record { port = work.parts.port; side = work.parts.side }) }
    ensures config { config_left result.0 ≡ Some work.kept.config }
    ensures reporter { result.1 ≡ work.parts.reporter }
    ensures seat { seat_of result.1 ≡ work.kept.seat }
{
    let PortParts {
        port,
        side,
        reporter,
    } = work.into_parts();
    (Parts::Port(PortRemains { port, side }), reporter)
}
