//! Reports of ACS violations (PCIe 4.0, 6.12.4): the queue in which they wait for the monitor, and their lines.
#![tactic(auto)]

mod queue;
mod queue_reporter;
mod report;
mod watch;

pub use queue::{PLACES, Report};
pub use queue_reporter::QueueReporter;
pub use report::line;
pub use watch::Watch;
