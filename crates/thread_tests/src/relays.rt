//! Two workers in threads pass numbers to each other, and none is lost.

ghost use Rattle.std.specs.Prelude.{◌≡◌, map, IfSome};
ghost use Rattle.thread_rings.specs.Wired.{tags_of};

use crate::counters::OddTurns;
use std::alloc::Global;
use std::snapshot::Snapshot;
use std::sync::atomic::AtomicBool;
use std::sync::{Arc, Wait};
use std::thread::Threads;
use thread_crew::{Work, WorkerId, join_all, start};
use thread_rings::{Ends, RingTally, Wire, are_within, deal, lay, undo};

const WIRES: [Wire; 2] = [
    Wire {
        from: 0,
        to: 1,
        places: 4,
    },
    Wire {
        from: 1,
        to: 0,
        places: 4,
    },
];

/// Puts the numbers from 0 on, one a turn where it can, and takes those of the other.
#[derive(Drop)]
struct Relay {
    ends: Ends<u32>,
    count: Count,
}

/// How many numbers a relay put and took, and did those that it took come in order?
#[derive(Clone, Copy)]
struct Count {
    put: u32,
    taken: u32,
    is_in_order: bool,
}

impl Work for Relay {
    ghost use Rattle.thread_rings.specs.Wired.{Tags, tags_of};

    ghost Kept = { Tags };

    ghost kept = { λ r. tags_of r.ends };

    fn id(&self) -> WorkerId {
        WorkerId::Host
    }

    fn turn<R: Wait>(&mut self, _rt: &R) {
        if self.ends.put(0, self.count.put).is_ok() {
            self.count.put = self.count.put.wrapping_add(1);
        }
        if let Some(number) = self.ends.pull(0) {
            self.count.is_in_order &= number == self.count.taken;
            self.count.taken = self.count.taken.wrapping_add(1);
        }
    }
}

fn relays_of(alloc: Global, ends: Vec<Ends<u32>>) -> Option<Vec<Relay>>
    ensures { IfSome result (λ relays. map (λ r. tags_of r.ends) relays.items ≡ map tags_of ends.items) }
{
    let mut relays = Vec::new(alloc);
    for ends in ends {
        let count = Count {
            put: 0,
            taken: 0,
            is_in_order: true,
        };
        relays.push(Relay { ends, count }).ok()?;
    }
    Some(relays)
}

fn apart(alloc: Global, relays: Vec<Relay>) -> Option<(Vec<Ends<u32>>, Vec<Count>)>
    ensures { IfSome result (λ r. map tags_of r.0.items ≡ map (λ r. tags_of r.ends) relays.items) }
{
    let mut all_ends = Vec::new(alloc);
    let mut counts = Vec::new(alloc);
    for relay in relays {
        let Relay { ends, count } = relay;
        all_ends.push(ends).ok()?;
        counts.push(count).ok()?;
    }
    Some((all_ends, counts))
}

/// The ends come back from the threads, each in its place.
fn crossed<R>(
    rt: R,
    alloc: Global,
    ends: Vec<Ends<u32>>,
    turns: u32,
) -> Option<(Vec<Ends<u32>>, Vec<Count>)>
where
    R: Threads + Wait + Copy + Send + 'static,
    ensures { IfSome result (λ r. map tags_of r.0.items ≡ map tags_of ends.items) }
{
    let gate = Arc::new(alloc, OddTurns).ok()?;
    let stop = Arc::new(alloc, AtomicBool::new(false)).ok()?;
    let relays = relays_of(alloc, ends)?;
    let handles = start(rt, alloc, relays, &gate, &stop, turns).ok()?;
    let relays = join_all(&rt, alloc, handles).ok()?;
    apart(alloc, relays)
}

fn ran<R>(rt: R, alloc: Global, turns: u32) -> Option<(Vec<RingTally<u32>>, Vec<Count>)>
where
    R: Threads + Wait + Copy + Send + 'static,
{
    if !are_within(2, &WIRES) {
        return None;
    }
    let rings = lay(alloc, &WIRES).ok()?;
    let made = Snapshot::of(&rings);
    let ends = deal(alloc, 2, rings).ok()?;
    let (ends, counts) = crossed(rt, alloc, ends, turns)?;
    if ends.len() != 2 {
        return None;
    }
    let tallies = undo(alloc, &made, &WIRES, ends).ok()?;
    Some((tallies, counts))
}

/// Is what was left what the one had put and the other had not taken?
fn adds_up(tally: &RingTally<u32>, from: Count, to: Count) -> bool {
    let mut next = to.taken;
    for number in tally.left.as_slice() {
        if *number != next {
            return false;
        }
        next = next.wrapping_add(1);
    }
    next == from.put && to.is_in_order
}

/// Ring 1 is tallied first. Each relay put a number at least.
fn all_add_up(tallies: &[RingTally<u32>], counts: &[Count]) -> bool {
    match (tallies, counts) {
        ([back, forth], [first, second]) => {
            first.put > 0
                && second.put > 0
                && adds_up(forth, *first, *second)
                && adds_up(back, *second, *first)
        }
        _ => false,
    }
}

#[test]
fn no_number_is_lost_between_two_threads(rt: HostRuntime) {
    let Some((tallies, counts)) = ran(rt, rt.alloc(), 20000) else {
        assert!(rt; false, "no rings");
        return;
    };
    assert!(rt; all_add_up(&tallies, &counts));
}
