//! A table of wires: items go through the ends that two workers are dealt, and each ring comes back with what was left.

ghost use Rattle.std.specs.Prelude.{◌≡◌, ◌<◌, map, vec_len};
ghost use Rattle.thread_rings.specs.Wired.{tags_of};

use std::alloc::Global;
use std::snapshot::Snapshot;
use thread_rings::{Ends, RingTally, Wire, are_within, deal, lay, undo};

/// Worker 0 puts by its ends 0 and 1 into the rings 0 and 2, and takes by its ends 0 and 1 from the rings 1 and 2.
const WIRES: [Wire; 3] = [
    Wire {
        from: 0,
        to: 1,
        places: 4,
    },
    Wire {
        from: 1,
        to: 0,
        places: 1,
    },
    Wire {
        from: 0,
        to: 0,
        places: 2,
    },
];

/// Was the item put in?
#[tactic(auto, using(thread_rings::proofs::Used::same_tags))]
fn put(workers: &mut Vec<Ends<u32>>, worker: usize, end: usize, item: u32) -> bool
    requires { worker < vec_len workers.old }
    ensures count { vec_len workers.new ≡ vec_len workers.old }
    ensures tags { map tags_of workers.new.items ≡ map tags_of workers.old.items }
{
    workers[worker].put(end, item).is_ok()
}

#[tactic(auto, using(thread_rings::proofs::Used::same_tags))]
fn pull(workers: &mut Vec<Ends<u32>>, worker: usize, end: usize) -> Option<u32>
    requires { worker < vec_len workers.old }
    ensures count { vec_len workers.new ≡ vec_len workers.old }
    ensures tags { map tags_of workers.new.items ≡ map tags_of workers.old.items }
{
    workers[worker].pull(end)
}

/// Three items go from worker 0 to worker 1, which takes one. Was each call answered so?
fn cross(workers: &mut Vec<Ends<u32>>) -> bool
    requires { vec_len workers.old ≡ 2 }
    ensures count { vec_len workers.new ≡ vec_len workers.old }
    ensures tags { map tags_of workers.new.items ≡ map tags_of workers.old.items }
{
    let first = put(workers, 0, 0, 10);
    let second = put(workers, 0, 0, 11);
    let third = put(workers, 0, 0, 12);
    let taken = pull(workers, 1, 0);
    first && second && third && taken == Some(10)
}

/// Worker 1 fills its ring, and finds it full. It has no second end. Was each call answered so?
fn fill(workers: &mut Vec<Ends<u32>>) -> bool
    requires { vec_len workers.old ≡ 2 }
    ensures count { vec_len workers.new ≡ vec_len workers.old }
    ensures tags { map tags_of workers.new.items ≡ map tags_of workers.old.items }
{
    let fits = put(workers, 1, 0, 20);
    let is_full = !put(workers, 1, 0, 21);
    let has_no_end = !put(workers, 1, 1, 22);
    fits && is_full && has_no_end
}

/// Worker 0 puts an item into its own ring, and takes it. Was each call answered so?
fn turn_round(workers: &mut Vec<Ends<u32>>) -> bool
    requires { vec_len workers.old ≡ 2 }
    ensures count { vec_len workers.new ≡ vec_len workers.old }
    ensures tags { map tags_of workers.new.items ≡ map tags_of workers.old.items }
{
    let fits = put(workers, 0, 1, 30);
    let taken = pull(workers, 0, 1);
    let rest = pull(workers, 0, 1);
    fits && taken == Some(30) && rest.is_none()
}

/// The rings of the table, once all this happened.
fn tallied(alloc: Global) -> Option<Vec<RingTally<u32>>> {
    if !are_within(2, &WIRES) {
        return None;
    }
    let rings = lay(alloc, &WIRES).ok()?;
    let made = Snapshot::of(&rings);
    let mut workers = deal(alloc, 2, rings).ok()?;
    if !(cross(&mut workers) && fill(&mut workers) && turn_round(&mut workers)) {
        return None;
    }
    undo(alloc, &made, &WIRES, workers).ok()
}

fn left_in(rings: &[RingTally<u32>], number: usize) -> Option<&[u32]> {
    for tally in rings {
        if tally.ring == number {
            return Some(tally.left.as_slice());
        }
    }
    None
}

#[test]
fn each_ring_comes_back_with_what_was_left_in_it(rt: HostRuntime) {
    let Some(rings) = tallied(rt.alloc()) else {
        assert!(rt; false, "no rings");
        return;
    };
    assert_eq!(rt; rings.len(), 3);
    assert_eq!(rt; left_in(&rings, 0), Some(&[11, 12][..]));
    assert_eq!(rt; left_in(&rings, 1), Some(&[20][..]));
    assert_eq!(rt; left_in(&rings, 2), Some(&[][..]));
}
