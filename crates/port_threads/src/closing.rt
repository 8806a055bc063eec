//! The queue of violations is closed.

ghost use Rattle.std.specs.Prelude.{◌≡◌, [], IfOk, length, map};
ghost use Rattle.monitor.specs.Reporting.{seat_of};
ghost use Rattle.port_threads.specs.Left.{AreReported, reported_by, seat_left};
ghost use Rattle.thread_staff.specs.Seats.{AreSeated};

use fab_types::NoMemory;
use monitor::{QueueReporter, Report, Watch};
use std::alloc::Global;
use std::snapshot::Snapshot;
use std::sync::Wait;

/// What the monitor took, and the ports' ends of the queue as they were at the end.
#[derive(Drop)]
pub(crate) struct Reported {
    /// The reports that the monitor took.
    pub list: Vec<Report>,
    /// The ports' ends of the queue as they were at the end, by their seats.
    pub ports: Vec<Snapshot<QueueReporter>>,
}

/// Takes in the ports' ends, in the order of their seats.
fn close_all(
    alloc: Global,
    watch: &mut Watch,
    reporters: Vec<QueueReporter>,
) -> Result<Vec<Snapshot<QueueReporter>>, NoMemory>
    requires none { watch.old.ended ≡ [] }
    requires seated { AreSeated watch.old.queue 0 (map seat_of reporters.items) }
    ensures seats { IfOk result (λ ports. map seat_left ports.items ≡ map seat_of reporters.items) }
    ensures ended { IfOk result (λ ports. map reported_by ports.items ≡ watch.new.ended) }
    ensures same { watch.new.seats ≡ watch.old.seats }
{
    let mut ports = Vec::new(alloc);
    for reporter in reporters {
        ports.push(Snapshot::of(&reporter))?;
        watch.close(reporter);
    }
    Ok(ports)
}

/// Takes in the ports' ends, and then all reports that wait. It answers `NoMemory` where memory was refused; then nothing
/// is left of the queue.
pub(crate) fn closed<R: Wait>(
    rt: &R,
    alloc: Global,
    watch: Watch,
    reporters: Vec<QueueReporter>,
) -> Result<Reported, NoMemory>
    requires none { watch.ended ≡ [] }
    requires seated { AreSeated watch.queue 0 (map seat_of reporters.items) }
    requires seats { length (map seat_of reporters.items) ≡ watch.seats }
    ensures seats { IfOk result (λ r. map seat_left r.ports.items ≡ map seat_of reporters.items) }
    ensures reports { IfOk result (λ r. AreReported r.list.items r.ports.items) }
{
    let mut watch = watch;
    let ports = close_all(alloc, &mut watch, reporters)?;
    let list = watch.finish(rt)?;
    Ok(Reported { list, ports })
}
