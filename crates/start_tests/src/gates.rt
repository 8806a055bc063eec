//! Gates before the turns of workers.

use fab_types::{Bdf, PortId};
use port_threads::{Gate, WorkerId};
use std::sync::atomic::{AtomicU64, Ordering};
use std::thread;
use std::time::{Clock, Duration};

/// Lets every turn be made.
#[derive(Drop)]
pub struct Open;

impl Gate for Open {
    fn before(&self, _worker: WorkerId, _turn: u32) -> bool {
        true
    }
}

/// Counts the turns that it lets through.
#[derive(Drop)]
pub struct Counting {
    /// How many turns it let through.
    pub turns: AtomicU64,
}

impl Gate for Counting {
    fn before(&self, _worker: WorkerId, _turn: u32) -> bool {
        self.turns.fetch_add(1, Ordering::SeqCst);
        true
    }
}

/// Two ports wait for each other before their first turn. Each looks at most 1,000 times, a millisecond apart, whether the
/// other has come, and counts as met if so.
#[derive(Drop)]
pub struct Meeting<C: Clock + Drop> {
    /// The clock of its waits.
    pub clock: C,
    /// How many ports have come.
    pub come: AtomicU64,
    /// How many ports met the other.
    pub met: AtomicU64,
}

/// Is it the worker of the port 02:00.0 or 05:00.0?
fn takes_part(worker: WorkerId) -> bool {
    let port = |bits: u16| WorkerId::Port(PortId::new(Bdf::from_bits(bits)));
    worker == port(0x0200) || worker == port(0x0500)
}

impl<C: Clock + Drop> Meeting<C> {
    fn meet(&self) -> bool {
        self.come.fetch_add(1, Ordering::SeqCst);
        for _ in 0..1000 {
            if self.come.load(Ordering::SeqCst) >= 2 {
                self.met.fetch_add(1, Ordering::SeqCst);
                return true;
            }
            thread::sleep(&self.clock, Duration::from_millis(1));
        }
        false
    }
}

impl<C: Clock + Drop> Gate for Meeting<C> {
    fn before(&self, worker: WorkerId, turn: u32) -> bool {
        turn > 0 || !takes_part(worker) || self.meet()
    }
}
