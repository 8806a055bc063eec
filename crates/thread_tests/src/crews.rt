//! Workers really run in threads, and make the turns that they are let make.

use crate::counters::{Counter, Meeting, OddTurns};
use std::alloc::Global;
use std::sync::atomic::{AtomicBool, AtomicU64, Ordering};
use std::sync::{Arc, Wait};
use std::thread::Threads;
use thread_crew::{Gate, WorkerId, end_all, join_all, join_one, start, start_one};

fn counter(id: WorkerId, all: &Arc<AtomicU64, Global>) -> Option<Counter> {
    let all = Arc::try_clone(all).ok()?;
    Some(Counter { id, turns: 0, all })
}

fn two(alloc: Global, all: &Arc<AtomicU64, Global>) -> Option<Vec<Counter>> {
    let mut workers = Vec::new(alloc);
    workers.push(counter(WorkerId::Host, all)?).ok()?;
    workers.push(counter(WorkerId::Monitor, all)?).ok()?;
    Some(workers)
}

/// Runs two workers, and answers who came back with how many turns.
fn ran<R, G>(
    rt: R,
    alloc: Global,
    gate: G,
    is_stopped: bool,
    turns: u32,
) -> Option<((WorkerId, u32), (WorkerId, u32))>
where
    G: Gate + Send + Sync + Drop + 'static,
    R: Threads + Wait + Copy + Send + 'static,
{
    let gate = Arc::new(alloc, gate).ok()?;
    let stop = Arc::new(alloc, AtomicBool::new(is_stopped)).ok()?;
    let all = Arc::new(alloc, AtomicU64::new(0)).ok()?;
    let workers = two(alloc, &all)?;
    let handles = start(rt, alloc, workers, &gate, &stop, turns).ok()?;
    let mut workers = join_all(&rt, alloc, handles).ok()?;
    let second = workers.pop()?;
    let first = workers.pop()?;
    Some(((first.id, first.turns), (second.id, second.turns)))
}

/// Runs two workers and lets them go, and answers how many turns they had made by then.
fn let_go<R>(rt: R, alloc: Global, turns: u32) -> Option<u64>
where
    R: Threads + Wait + Copy + Send + 'static,
{
    let gate = Arc::new(alloc, OddTurns).ok()?;
    let stop = Arc::new(alloc, AtomicBool::new(false)).ok()?;
    let all = Arc::new(alloc, AtomicU64::new(0)).ok()?;
    let workers = two(alloc, &all)?;
    let handles = start(rt, alloc, workers, &gate, &stop, turns).ok()?;
    end_all(&rt, handles);
    Some(all.load(Ordering::SeqCst))
}

/// Runs one worker, and answers how many turns it made.
fn alone<R>(rt: R, alloc: Global, turns: u32) -> Option<u32>
where
    R: Threads + Wait + Copy + Send + 'static,
{
    let gate = Arc::new(alloc, OddTurns).ok()?;
    let stop = Arc::new(alloc, AtomicBool::new(false)).ok()?;
    let all = Arc::new(alloc, AtomicU64::new(0)).ok()?;
    let worker = counter(WorkerId::Monitor, &all)?;
    let handle = start_one(rt, worker, &gate, &stop, turns).ok()?;
    Some(join_one(&rt, handle).turns)
}

#[test]
fn a_gate_skips_turns_and_workers_come_back_in_their_order(rt: HostRuntime) {
    let made = ran(rt, rt.alloc(), OddTurns, false, 7);
    assert_eq!(rt; made, Some(((WorkerId::Host, 3), (WorkerId::Monitor, 3))));
}

#[test]
fn a_stop_flag_that_is_set_leaves_no_turn(rt: HostRuntime) {
    let made = ran(rt, rt.alloc(), OddTurns, true, 7);
    assert_eq!(rt; made, Some(((WorkerId::Host, 0), (WorkerId::Monitor, 0))));
}

#[test]
fn workers_run_at_the_same_time(rt: HostRuntime) {
    let gate = Meeting {
        clock: rt,
        come: AtomicU64::new(0),
    };
    let made = ran(rt, rt.alloc(), gate, false, 1);
    assert_eq!(rt; made, Some(((WorkerId::Host, 1), (WorkerId::Monitor, 1))));
}

#[test]
fn workers_that_are_let_go_have_ended(rt: HostRuntime) {
    assert_eq!(rt; let_go(rt, rt.alloc(), 8), Some(8));
    assert_eq!(rt; alone(rt, rt.alloc(), 4), Some(2));
}
