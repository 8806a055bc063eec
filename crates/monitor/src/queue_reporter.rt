//! A port's end of the queue of violations.

use crate::queue::{Pushed, Report, View, ViolationQueue};
use crossbeam_queue::Pass;
use fab_types::{NoMemory, Violation};
use lane::Reporter;
use std::alloc::Global;
use std::marker::Model;
use std::sync::Arc;

/// A port's end of the queue of violations.
/// It has its seat, the number of its next report, and how often a report was given back. A contract sees a
/// `ReporterView`.
#[derive(Drop)]
pub struct QueueReporter {
    pub(crate) queue: Arc<ViolationQueue, Global>,
    pub(crate) pass: Pass<Report, View>,
    pub(crate) seat: u64,
    pub(crate) next: u64,
    pub(crate) refusals: u64,
}

impl Model for QueueReporter {
    ghost use Rattle.monitor.specs.Reporting.{ReporterView, reporter_view, KeepsSeat};

    ghost Value = { ReporterView };

    ghost view = { reporter_view };

    ghost invariant = { KeepsSeat };
}

impl Reporter for QueueReporter {
    ghost use Rattle.std.specs.Prelude.{◌≡◌, IsOk, false};
    ghost use Rattle.monitor.specs.Reporting.{QueueSeat, seat_of};

    ghost Line = { QueueSeat };

    ghost line = { seat_of };

    ghost reported = { λ r. r.reported };

    ghost refusals = { λ r. r.refusals };

    ghost has_room = { λ _. false };

    ghost is_sure = { false };

    /// Takes no memory, and promises no place: another port may take the last one.
    fn prepare_report(&mut self) -> Result<(), NoMemory>
        ensures ok { IsOk result }
        ensures same { self.new ≡ self.old }
    {
        Ok(())
    }

    /// Reports a violation, in one try that never waits. The report is given back where the queue is
    /// full, where another thread is just reporting or taking, or where this port has used all numbers.
    fn report(&mut self, violation: Violation) -> Result<(), Violation> {
        if self.next == u64::MAX {
            self.refusals = self.refusals.wrapping_add(1);
            return Err(violation);
        }
        let report = Report {
            seat: self.seat,
            number: self.next,
            violation,
        };
        match self.queue.try_push_as::<Pushed>(&mut self.pass, report) {
            Ok(()) => {
                self.next += 1;
                Ok(())
            }
            Err(back) => {
                self.refusals = self.refusals.wrapping_add(1);
                Err(back.violation)
            }
        }
    }
}
