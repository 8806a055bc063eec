//! The workers of a layout's fabric.

ghost use Rattle.std.specs.Prelude.{◌≡◌, ◌++◌, ◌<◌, IfOk, IfSome, OnOk, length, map};
ghost use Rattle.thread_plan.specs.Workers.{downstream_worker, function_worker, number_of, same_worker, upstream_worker, workers_of};

use fab_types::{NoMemory, PortId};
use layout::Layout;
use std::alloc::Global;
use thread_crew::WorkerId;

fn of_ports(alloc: Global, layout: &Layout) -> Result<Vec<WorkerId>, NoMemory>
    ensures { IfOk result (λ workers. workers.items ≡ map upstream_worker layout.now.switches ++ map downstream_worker layout.now.ports) }
{
    let upstream = layout
        .switches()
        .iter()
        .map(|line| WorkerId::Port(PortId::new(line.id)));
    let downstream = layout.ports().iter().map(|line| WorkerId::Port(line.id));
    Ok(upstream.chain(downstream).collect(alloc)?)
}

fn add_functions(layout: &Layout, workers: &mut Vec<WorkerId>) -> Result<(), NoMemory>
    ensures { OnOk result (workers.new.items ≡ workers.old.items ++ map function_worker layout.now.functions) }
{
    for line in layout.functions() {
        workers.push(WorkerId::Function(line.id))?;
    }
    Ok(())
}

/// Of upstream ports, of downstream ports, of functions and of the host.
pub(crate) fn workers_of(alloc: Global, layout: &Layout) -> Result<Vec<WorkerId>, NoMemory>
    ensures { IfOk result (λ workers. workers.items ≡ workers_of layout.now) }
{
    let mut workers = of_ports(alloc, layout)?;
    add_functions(layout, &mut workers)?;
    workers.push(WorkerId::Host)?;
    Ok(workers)
}

fn same_worker(one: WorkerId, other: WorkerId) -> bool
    ensures { result ≡ same_worker one other }
{
    match one {
        WorkerId::Port(port) => match other {
            WorkerId::Port(other_port) => port == other_port,
            _ => false,
        },
        WorkerId::Function(function) => match other {
            WorkerId::Function(other_function) => function == other_function,
            _ => false,
        },
        WorkerId::Host => match other {
            WorkerId::Host => true,
            _ => false,
        },
        WorkerId::Monitor => match other {
            WorkerId::Monitor => true,
            _ => false,
        },
    }
}

/// The place of the worker of this name.
pub(crate) fn number_of(workers: &[WorkerId], worker: WorkerId) -> Option<usize>
    ensures value { result ≡ number_of workers.now worker }
    ensures within { IfSome result (λ number. number < length workers.now) }
{
    workers.iter().position(|other| same_worker(worker, *other))
}
