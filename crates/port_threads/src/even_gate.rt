//! A gate that lets no worker get far ahead.

ghost use Rattle.std.specs.Prelude.{◌≡◌, true};

use fab_types::NoMemory;
use layout::Layout;
use std::alloc::{AllocError, Global};
use std::io;
use std::sync::atomic::{AtomicBool, AtomicU64, Ordering};
use std::thread::yield_now;
use std::time::{Clock, Duration, Instant};
use thread_crew::{Gate, WorkerId};
use thread_plan::Plan;

// How many turns a worker may be ahead of the last one.
const AHEAD: u64 = 64;

// How often it is looked whether a worker that waits may go, before it goes all the same.
const LOOKS: u32 = 1_000;

// How long a look takes, in milliseconds.
const LOOK: u64 = 1;

// How often a look polls at most, should the clock stand still.
const POLLS: u32 = 100_000;

/// A worker, and the turn that it has come to.
#[derive(Drop)]
struct Runner {
    id: WorkerId,
    turn: AtomicU64,
}

/// Keeps the workers of a layout's fabric together. It holds each worker's first turn until it is released, and a turn
/// while another worker is more than 64 turns behind; either for 1,000 looks of a millisecond at most. So no turn is
/// skipped, and a worker that stays behind holds up no other for ever. All workers share it.
#[derive(Drop)]
pub struct EvenGate<C> {
    clock: C,
    runners: Vec<Runner>,
    /// No worker was behind this turn when it was last looked.
    least: AtomicU64,
    is_released: AtomicBool,
}

fn add_runner(runners: &mut Vec<Runner>, id: &WorkerId) -> Result<(), AllocError> {
    runners.push(Runner {
        id: *id,
        turn: AtomicU64::new(0),
    })?;
    Ok(())
}

impl<C: Clock> EvenGate<C> {
    /// A gate for the workers of a layout's fabric, which is not released. It answers `NoMemory` where memory was refused.
    pub fn new(alloc: Global, clock: C, layout: &Layout) -> Result<EvenGate<C>, NoMemory>
    where
        C: Drop,
    {
        let plan = Plan::new(alloc, layout)?;
        let mut runners = Vec::new(alloc);
        for id in plan.workers() {
            add_runner(&mut runners, id)?;
        }
        add_runner(&mut runners, &WorkerId::Monitor)?;
        Ok(EvenGate {
            clock,
            runners,
            least: AtomicU64::new(0),
            is_released: AtomicBool::new(false),
        })
    }

    /// Lets the first turns be made.
    pub fn release(&self) {
        self.is_released.store(true, Ordering::SeqCst);
    }

    /// The turn of the worker that is furthest behind.
    fn last(&self) -> u64 {
        let mut least = u64::MAX;
        for runner in &self.runners {
            least = least.min(runner.turn.load(Ordering::SeqCst));
        }
        least
    }

    /// May a worker make this turn?
    fn is_open(&self, turn: u64) -> bool {
        if !self.is_released.load(Ordering::SeqCst) {
            return false;
        }
        if turn <= self.least.load(Ordering::SeqCst).saturating_add(AHEAD) {
            return true;
        }
        let least = self.last();
        self.least.store(least, Ordering::SeqCst);
        turn <= least.saturating_add(AHEAD)
    }

    /// Has a look taken its time?
    fn is_over(&self, began: Instant) -> io::Result<bool> {
        Ok(began.elapsed(&self.clock)? >= Duration::from_millis(LOOK))
    }

    /// One look: it polls for a millisecond, and lets other threads run between. May the turn be made?
    fn look(&self, turn: u64) -> io::Result<bool> {
        let began = Instant::now(&self.clock)?;
        for _ in 0..POLLS {
            if self.is_open(turn) {
                return Ok(true);
            }
            if self.is_over(began)? {
                break;
            }
            yield_now();
        }
        Ok(false)
    }

    /// Waits until the turn may be made, for as many looks as there are at most. Where the clock can't be read it waits no
    /// longer.
    fn wait(&self, turn: u64) {
        for _ in 0..LOOKS {
            match self.look(turn) {
                Ok(false) => {}
                Ok(true) | Err(_) => return,
            }
        }
    }
}

impl<C: Clock> Gate for EvenGate<C> {
    fn before(&self, worker: WorkerId, turn: u32) -> bool
        ensures { result ≡ true }
    {
        let turn = u64::from(turn);
        for runner in &self.runners {
            if runner.id == worker {
                runner.turn.store(turn, Ordering::SeqCst);
            }
        }
        if !self.is_open(turn) {
            self.wait(turn);
        }
        true
    }
}
