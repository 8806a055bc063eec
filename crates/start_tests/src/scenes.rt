//! Fabrics that are started and stopped.

use fab_types::StopFault;
use layout::Layout;
use port_threads::{Ending, Gate, Running, Stopped};
use std::alloc::Global;
use std::sync::{Arc, Wait};
use std::thread::Threads;

/// Domain 1 has function 03:00.0, domain 2 has 04:00.0. These are three ports, two functions and the host.
pub const SMALL: &str = "pciefab 1
frames 2
switch 01:00.0 root
port 02:00.0 03 03 90000000 900fffff 1f 1
port 02:01.0 04 04 90100000 901fffff 1f 2
function 03:00.0 90000000
function 04:00.0 90100000
map 03:00.0 1 frame 0 rw
map 04:00.0 1 frame 1 rw
";

/// How many there are of what is left of a fabric.
#[derive(Clone, Copy, Debug, PartialEq, Eq)]
pub struct Counts {
    /// What is left of workers.
    pub workers: usize,
    /// The ports' ends of the queue of violations.
    pub ports: usize,
    /// Domains.
    pub domains: usize,
    /// Rings of packets on links.
    pub links: usize,
    /// Rings of credits.
    pub credits: usize,
    /// Rings between the ports of switches.
    pub pairs: usize,
    /// Violations that were reported.
    pub violations: usize,
}

fn counts_of(stopped: &Stopped) -> Counts {
    Counts {
        workers: stopped.remains.len(),
        ports: stopped.ports.len(),
        domains: stopped.domains.len(),
        links: stopped.links.rings.len(),
        credits: stopped.credits.rings.len(),
        pairs: stopped.pairs.rings.len(),
        violations: stopped.list.len(),
    }
}

/// Starts the fabric of a layout.
pub fn started<R, G>(
    rt: R,
    alloc: Global,
    text: &str,
    gate: &Arc<G, Global>,
    turns: u32,
) -> Option<Running>
where
    G: Gate + Send + Sync + Drop + 'static,
    R: Threads + Wait + Copy + Send + 'static,
{
    let layout = Arc::new(alloc, Layout::read(alloc, text).ok()?).ok()?;
    Running::start(rt, alloc, &layout, turns, gate).ok()
}

/// What is left of a fabric that was stopped.
pub fn counted(stopped: Result<Stopped, StopFault>) -> Option<Counts> {
    match stopped {
        Ok(stopped) => Some(counts_of(&stopped)),
        Err(_) => None,
    }
}

/// Starts the fabric of a layout and stops it, and answers what is left.
pub fn ran<R, G>(
    rt: R,
    alloc: Global,
    text: &str,
    gate: &Arc<G, Global>,
    turns: u32,
    ending: Ending,
) -> Option<Counts>
where
    G: Gate + Send + Sync + Drop + 'static,
    R: Threads + Wait + Copy + Send + 'static,
{
    let running = started(rt, alloc, text, gate, turns)?;
    counted(running.stop(&rt, alloc, ending))
}
