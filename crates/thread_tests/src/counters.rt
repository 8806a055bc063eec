//! Workers that count their turns, and gates.

use std::alloc::Global;
use std::sync::atomic::{AtomicU64, Ordering};
use std::sync::{Arc, Wait};
use std::thread;
use std::time::{Clock, Duration};
use thread_crew::{Gate, Work, WorkerId};

/// Counts its turns, for itself and for all.
#[derive(Drop)]
pub struct Counter {
    /// Which worker it is.
    pub id: WorkerId,
    /// How many turns it made.
    pub turns: u32,
    /// How many turns all made.
    pub all: Arc<AtomicU64, Global>,
}

impl Work for Counter {
    ghost use Rattle.thread_crew.specs.declared.worker_id.WorkerId.{WorkerId};

    ghost Kept = { WorkerId };

    ghost kept = { λ c. c.id };

    fn id(&self) -> WorkerId {
        self.id
    }

    fn turn<R: Wait>(&mut self, _rt: &R) {
        self.turns = self.turns.wrapping_add(1);
        self.all.fetch_add(1, Ordering::SeqCst);
    }
}

/// Skips all even turns.
#[derive(Drop)]
pub struct OddTurns;

impl Gate for OddTurns {
    fn before(&self, _worker: WorkerId, turn: u32) -> bool {
        turn % 2 == 1
    }
}

/// Lets a turn through once two workers have come. It looks at most 1,000 times, a millisecond apart, and then skips it.
#[derive(Drop)]
pub struct Meeting<C: Clock + Drop> {
    /// The clock of its waits.
    pub clock: C,
    /// How many workers have come.
    pub come: AtomicU64,
}

impl<C: Clock + Drop> Gate for Meeting<C> {
    fn before(&self, _worker: WorkerId, _turn: u32) -> bool {
        self.come.fetch_add(1, Ordering::SeqCst);
        for _ in 0..1000 {
            if self.come.load(Ordering::SeqCst) >= 2 {
                return true;
            }
            thread::sleep(&self.clock, Duration::from_millis(1));
        }
        false
    }
}
