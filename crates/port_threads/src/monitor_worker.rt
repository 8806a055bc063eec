//! The worker that collects what ports report.

ghost use Rattle.std.specs.Prelude.{◌≡◌};
ghost use Rattle.port_threads.specs.Kept.{monitor_kept};

use monitor::{PLACES, Watch};
use std::sync::Wait;
use thread_crew::{Work, WorkerId};

/// The monitor, with its end of the queue of violations.
#[derive(Drop)]
pub(crate) struct Monitor {
    /// The monitor's end of the queue.
    pub watch: Watch,
}

impl Monitor {
    /// Takes reports while one waits, at most as many as the queue has places. Where memory for one more is refused, it
    /// waits in the queue.
    fn take_all(&mut self)
        ensures { monitor_kept self.new ≡ monitor_kept self.old }
    {
        for _ in 0..PLACES {
            if !self.watch.take().unwrap_or(false) {
                break;
            }
        }
    }
}

impl Work for Monitor {
    ghost use Rattle.thread_staff.specs.Watched.{MonitorKept};
    ghost use Rattle.port_threads.specs.Kept.{monitor_kept};

    ghost Kept = { MonitorKept };

    ghost kept = { monitor_kept };

    fn id(&self) -> WorkerId {
        WorkerId::Monitor
    }

    fn turn<R: Wait>(&mut self, _rt: &R) {
        self.take_all();
    }
}
