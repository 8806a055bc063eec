//! Fabrics start and stop.

use crate::gates::{Counting, Meeting};
use crate::scenes::{Counts, SMALL, ran};
use layout::Layout;
use layout_tests::EXAMPLE;
use port_threads::{Ending, EvenGate};
use std::alloc::Global;
use std::sync::atomic::{AtomicU64, Ordering};
use std::sync::{Arc, Wait};
use std::thread::Threads;
use std::time::Clock;

/// What is left of the fabric of `SMALL`.
pub const SMALL_COUNTS: Counts = Counts {
    workers: 6,
    ports: 3,
    domains: 2,
    links: 6,
    credits: 6,
    pairs: 9,
    violations: 0,
};

// What is left of the fabric of `EXAMPLE`.
const EXAMPLE_COUNTS: Counts = Counts {
    workers: 12,
    ports: 7,
    domains: 2,
    links: 12,
    credits: 12,
    pairs: 25,
    violations: 0,
};

/// What is left of the fabric of `SMALL`, and how many turns were made.
fn small<R>(rt: R, alloc: Global, turns: u32, ending: Ending) -> Option<(Counts, u64)>
where
    R: Threads + Wait + Copy + Send + 'static,
{
    let gate = Counting {
        turns: AtomicU64::new(0),
    };
    let gate = Arc::new(alloc, gate).ok()?;
    let counts = ran(rt, alloc, SMALL, &gate, turns, ending)?;
    Some((counts, gate.turns.load(Ordering::SeqCst)))
}

/// What is left of the fabric of `EXAMPLE` after a turn of each worker, and how many of the two ports met the other.
fn met<R>(rt: R, alloc: Global) -> Option<(Counts, u64)>
where
    R: Threads + Wait + Clock + Copy + Send + Sync + Drop + 'static,
{
    let gate = Meeting {
        clock: rt,
        come: AtomicU64::new(0),
        met: AtomicU64::new(0),
    };
    let gate = Arc::new(alloc, gate).ok()?;
    let counts = ran(rt, alloc, EXAMPLE, &gate, 1, Ending::AfterTurns)?;
    Some((counts, gate.met.load(Ordering::SeqCst)))
}

/// What is left of the fabric of `SMALL` after so many turns of each worker, none of which gets far ahead.
fn evenly<R>(rt: R, alloc: Global, turns: u32) -> Option<Counts>
where
    R: Threads + Wait + Clock + Copy + Send + Sync + Drop + 'static,
{
    let layout = Layout::read(alloc, SMALL).ok()?;
    let gate = Arc::new(alloc, EvenGate::new(alloc, rt, &layout).ok()?).ok()?;
    gate.release();
    ran(rt, alloc, SMALL, &gate, turns, Ending::AfterTurns)
}

#[test]
fn an_even_gate_that_is_released_lets_all_turns_be_made(rt: HostRuntime) {
    assert_eq!(rt; evenly(rt, rt.alloc(), 300), Some(SMALL_COUNTS));
}

#[test]
fn a_fabric_that_makes_no_turn_comes_back_whole(rt: HostRuntime) {
    let left = small(rt, rt.alloc(), 0, Ending::AfterTurns);
    assert_eq!(rt; left, Some((SMALL_COUNTS, 0)));
}

#[test]
fn each_worker_and_the_monitor_make_their_turns(rt: HostRuntime) {
    let left = small(rt, rt.alloc(), 5, Ending::AfterTurns);
    assert_eq!(rt; left, Some((SMALL_COUNTS, 35)));
}

#[test]
fn a_fabric_is_stopped_before_its_turns_are_made(rt: HostRuntime) {
    let Some((counts, turns)) = small(rt, rt.alloc(), u32::MAX, Ending::Now) else {
        panic!(rt; "no fabric");
    };
    assert_eq!(rt; counts, SMALL_COUNTS);
    assert!(rt; turns < 30_000_000_000);
}

#[test]
fn two_ports_make_their_turns_at_the_same_time(rt: HostRuntime) {
    assert_eq!(rt; met(rt, rt.alloc()), Some((EXAMPLE_COUNTS, 2)));
}
