//! A fabric whose workers don't run.

use crate::monitor_worker::Monitor;
use crate::worker::Worker;
use credit::Limits;
use frame_log::Frame;
use injector::Injector;
use std::alloc::Global;
use std::marker::Model;
use std::snapshot::Snapshot;
use std::sync::Arc;
use switch_output::VettedFrame;
use thread_domains::Locks;
use thread_plan::Plan;
use thread_rings::Laid;

/// All workers of a fabric, before they run or after: with the plan of their rings, the domains, and, for contracts alone,
/// the rings as they were laid. A contract sees a `FabricView`.
#[derive(Drop)]
pub(crate) struct Resting {
    /// Which workers there are, and which rings lead between them.
    pub plan: Plan,
    /// Are all five controls set on each downstream port?
    pub is_guarded: bool,
    /// The workers of the plan, with their ends of rings.
    pub workers: Vec<Worker>,
    /// The worker that collects violations.
    pub monitor: Monitor,
    /// The domains under locks.
    pub locks: Arc<Locks, Global>,
    /// The injectors of functions and hosts.
    pub injectors: Vec<Injector>,
    /// The rings of packets on links as they were laid.
    pub links: Snapshot<Vec<Laid<Frame>>>,
    /// The rings of credits as they were laid.
    pub credits: Snapshot<Vec<Laid<Limits>>>,
    /// The rings between the ports of switches as they were laid.
    pub pairs: Snapshot<Vec<Laid<VettedFrame>>>,
}

impl Model for Resting {
    ghost use Rattle.port_threads.specs.Fabrics.{FabricView, IsResting, resting_view};

    ghost Value = { FabricView };

    ghost view = { resting_view };

    ghost invariant = { IsResting };
}
