//! Starting workers.

ghost use Rattle.std.specs.Prelude.{◌≡◌, IfOk};
ghost use Rattle.std.specs.Arc.{arc_value};
ghost use Rattle.port_threads.specs.Fabrics.{IsFabricOf};

use crate::build::build;
use crate::resting::Resting;
use crate::running::Running;
use fab_types::StartFault;
use layout::Layout;
use std::alloc::Global;
use std::sync::atomic::{AtomicBool, Ordering};
use std::sync::{Arc, Wait};
use std::thread::Threads;
use thread_crew::{Gate, end_all, start_one};

/// Starts a thread for each worker and for the monitor. After a fault none runs.
fn run<G, R>(
    rt: R,
    alloc: Global,
    fabric: Resting,
    turns: u32,
    gate: &Arc<G, Global>,
) -> Result<Running, StartFault>
where
    G: Gate + Send + Sync + Drop + 'static,
    R: Threads + Wait + Copy + Send + 'static,
    ensures { IfOk result (λ running. running ≡ fabric) }
{
    let Ok(flag) = Arc::new(alloc, AtomicBool::new(false)) else {
        return Err(StartFault::NoMemory);
    };
    let Resting {
        plan,
        is_guarded,
        workers,
        monitor,
        locks,
        injectors,
        links,
        credits,
        pairs,
    } = fabric;
    let workers = thread_crew::start(rt, alloc, workers, gate, &flag, turns)?;
    match start_one(rt, monitor, gate, &flag, turns) {
        Ok(monitor) => Ok(Running {
            plan,
            is_guarded,
            workers,
            monitor,
            flag,
            locks,
            injectors,
            links,
            credits,
            pairs,
        }),
        Err(fault) => {
            // They need not make the turns that are left.
            flag.store(true, Ordering::SeqCst);
            end_all(&rt, workers);
            Err(fault)
        }
    }
}

impl Running {
    /// Starts the fabric of a layout.
    /// Each port, each function, the host and the monitor make their turns in a thread of their own, at
    /// most `turns` of them. All ask this gate before each turn. Nothing has been begun, and no packet is
    /// anywhere.
    ///
    /// # Errors
    ///
    /// `NoMemory`: memory was refused, or the gate is shared too often. `NoThread`: a thread could not be made,
    /// since memory was refused or by the system's limits. After either no thread of it runs.
    pub fn start<G, R>(
        rt: R,
        alloc: Global,
        layout: &Arc<Layout, Global>,
        turns: u32,
        gate: &Arc<G, Global>,
    ) -> Result<Running, StartFault>
    where
        G: Gate + Send + Sync + Drop + 'static,
        R: Threads + Wait + Copy + Send + 'static,
        ensures { IfOk result (λ running. IsFabricOf (arc_value layout.now) running) }
    {
        let Ok(fabric) = build(alloc, layout) else {
            return Err(StartFault::NoMemory);
        };
        let running = run(rt, alloc, fabric, turns, gate)?;
        Ok(running)
    }
}
