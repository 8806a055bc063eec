//! The monitor's end of the queue of violations.

ghost use Rattle.std.specs.Prelude.{◌≡◌, ℕ, ◌+◌, ◌<◌, ◌≤◌, ◌++◌, ◌∷◌, [], length, slice_index_or, IfOk, OnOk, OnErr, MatchBool, false};
ghost use Rattle.monitor.specs.declared.queue.Report.{Report};
ghost use Rattle.monitor.specs.Numbering.{reports_of};
ghost use Rattle.monitor.specs.Order.{of_seat};

use crate::queue::{OnePort, PLACES, Popped, Report, View, ViolationQueue};
use crate::queue_reporter::QueueReporter;
use crossbeam_queue::Pass;
use fab_types::NoMemory;
use std::alloc::Global;
use std::marker::Model;
use std::sync::{Arc, Wait};

/// The monitor's end of the queue of violations.
/// It has how many ports it gave an end, and the reports that it took, oldest first. A contract sees a
/// `WatchView`.
#[derive(Drop)]
pub struct Watch {
    queue: Arc<ViolationQueue, Global>,
    pass: Pass<Report, View>,
    seats: u64,
    taken: Vec<Report>,
}

impl Model for Watch {
    ghost use Rattle.monitor.specs.Watching.{WatchView, watch_view, KeepsWatch};

    ghost Value = { WatchView };

    ghost view = { watch_view };

    ghost invariant = { KeepsWatch };
}

impl Watch {
    /// An empty queue of `PLACES` places, and the monitor's end of it. It answers `NoMemory` where memory
    /// was refused.
    pub fn open(alloc: Global) -> Result<Watch, NoMemory>
        ensures { IfOk result (λ watch. (watch.seats ≡ 0) × (watch.taken ≡ []) × (watch.ended ≡ [])) }
    {
        let (queue, pass) = ViolationQueue::ruled(alloc, PLACES)?;
        let queue = Arc::new(alloc, queue)?;
        Ok(Watch {
            queue,
            pass,
            seats: 0,
            taken: Vec::new(alloc),
        })
    }

    /// The end of one port more, at the next seat. It answers `NoMemory` where memory was refused, and
    /// after 2^64 - 1 ports; then nothing changes.
    pub fn admit(&mut self) -> Result<QueueReporter, NoMemory>
        ensures ok { IfOk result (λ port. (port.queue ≡ self.old.queue) × (port.seat ≡ self.old.seats) × (port.reported ≡ []) × (port.refusals ≡ 0)) }
        ensures seats { OnOk result (self.new.seats ≡ self.old.seats + 1) }
        ensures same { (self.new.queue ≡ self.old.queue) × (self.new.taken ≡ self.old.taken) × (self.new.ended ≡ self.old.ended) }
        ensures err { OnErr result (self.new ≡ self.old) }
    {
        let Some(seats) = self.seats.checked_add(1) else {
            return Err(NoMemory);
        };
        let queue = Arc::try_clone(&self.queue)?;
        let pass = self.queue.another::<OnePort>(&mut self.pass);
        let seat = self.seats;
        self.seats = seats;
        Ok(QueueReporter {
            queue,
            pass,
            seat,
            next: 0,
            refusals: 0,
        })
    }

    /// Takes the oldest report into the list, in one try that never waits. It answers false where it took
    /// none: none waits, or a port is just reporting. It answers `NoMemory` where memory for a place in the
    /// list was refused; then nothing changes.
    pub fn take(&mut self) -> Result<bool, NoMemory>
        ensures taken { IfOk result (λ is_one. MatchBool is_one ((report : Report) × (self.new.taken ≡ self.old.taken ++ report ∷ [])) (self.new.taken ≡ self.old.taken)) }
        ensures same { (self.new.queue ≡ self.old.queue) × (self.new.seats ≡ self.old.seats) × (self.new.ended ≡ self.old.ended) }
        ensures err { OnErr result (self.new ≡ self.old) }
    {
        self.taken.reserve(1)?;
        match self.queue.try_pop_as::<Popped>(&mut self.pass) {
            Some(oldest) => {
                self.taken.push_reserved(oldest);
                Ok(true)
            }
            None => Ok(false),
        }
    }

    /// Takes back the end of a port that has ended. Ends come back in the order in which they were given.
    pub fn close(&mut self, port: QueueReporter)
        requires { (port.queue ≡ self.old.queue) × (port.seat ≡ length self.old.ended) }
        ensures ended { self.new.ended ≡ self.old.ended ++ reports_of port.seat port.reported ∷ [] }
        ensures same { (self.new.queue ≡ self.old.queue) × (self.new.seats ≡ self.old.seats) × (self.new.taken ≡ self.old.taken) }
    {
        let QueueReporter {
            queue: _,
            pass,
            seat: _,
            next: _,
            refusals: _,
        } = port;
        self.queue.absorb::<OnePort>(&mut self.pass, pass);
    }

    /// Takes the oldest report into the list. It answers false where none waits: the list then has all
    /// reports of the ports that have ended. It answers `NoMemory` where memory was refused.
    fn take_next<R: Wait>(&mut self, rt: &R) -> Result<bool, NoMemory>
        ensures same { (self.new.queue ≡ self.old.queue) × (self.new.seats ≡ self.old.seats) × (self.new.ended ≡ self.old.ended) }
        ensures all { IfOk result (λ is_one. is_one ≡ false → (k : ℕ) → k < length self.new.ended → of_seat k self.new.taken ≡ slice_index_or self.new.ended k []) }
        ensures others { IfOk result (λ is_one. is_one ≡ false → (seat : ℕ) → self.new.seats ≤ seat → of_seat seat self.new.taken ≡ []) }
    {
        self.taken.reserve(1)?;
        match self.queue.pop_as::<Popped, R>(rt, &mut self.pass) {
            Some(report) => {
                self.taken.push_reserved(report);
                Ok(true)
            }
            None => Ok(false),
        }
    }

    /// Takes all reports that wait, and gives the list. Of each port whose end came back, it has what that
    /// port reported, each report once and in order; and it has none of a seat that no port had. It answers
    /// `NoMemory` where memory was refused; then nothing is left of the queue.
    pub fn finish<R: Wait>(self, rt: &R) -> Result<Vec<Report>, NoMemory>
        ensures all { IfOk result (λ list. (k : ℕ) → k < length self.ended → of_seat k list.items ≡ slice_index_or self.ended k []) }
        ensures others { IfOk result (λ list. (seat : ℕ) → self.seats ≤ seat → of_seat seat list.items ≡ []) }
    {
        let mut watch = self;
        for _ in rt.forever() {
            if !watch.take_next(rt)? {
                let Watch {
                    queue: _,
                    pass: _,
                    seats: _,
                    taken,
                } = watch;
                return Ok(taken);
            }
        }
        unreachable!()
    }
}
