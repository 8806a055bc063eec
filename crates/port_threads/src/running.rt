//! A fabric whose workers run.

use crate::monitor_worker::Monitor;
use crate::worker::Worker;
use credit::Limits;
use frame_log::Frame;
use injector::Injector;
use std::alloc::Global;
use std::marker::Model;
use std::snapshot::Snapshot;
use std::sync::Arc;
use std::sync::atomic::AtomicBool;
use std::thread::PromisedHandle;
use switch_output::VettedFrame;
use thread_crew::Keeps;
use thread_domains::Locks;
use thread_plan::Plan;
use thread_rings::Laid;

/// The fabric of a layout whose workers run.
/// Each port, each function, the host and the monitor runs in a thread of its own. The value can't be
/// let go but by `stop`, so that no thread is left. A contract sees a `FabricView`.
pub struct Running {
    pub(crate) plan: Plan,
    pub(crate) is_guarded: bool,
    pub(crate) workers: Vec<PromisedHandle<Worker, Keeps<Worker>>>,
    pub(crate) monitor: PromisedHandle<Monitor, Keeps<Monitor>>,
    pub(crate) flag: Arc<AtomicBool, Global>,
    pub(crate) locks: Arc<Locks, Global>,
    pub(crate) injectors: Vec<Injector>,
    pub(crate) links: Snapshot<Vec<Laid<Frame>>>,
    pub(crate) credits: Snapshot<Vec<Laid<Limits>>>,
    pub(crate) pairs: Snapshot<Vec<Laid<VettedFrame>>>,
}

impl Model for Running {
    ghost use Rattle.port_threads.specs.Fabrics.{FabricView, IsRunning, running_view};

    ghost Value = { FabricView };

    ghost view = { running_view };

    ghost invariant = { IsRunning };
}
