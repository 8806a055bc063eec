//! Two threads have packets of the same two domains refused and carried at once.

use crate::locked_scenes::{FIRST, GUARDED, SECOND, Side, locks_of, submitted, write};
use domain::{Domain, Entry};
use fab_types::{Bdf, PortId};
use lane::Desk;
use std::alloc::Global;
use std::sync::{Arc, Wait};
use std::thread;
use std::thread::Threads;
use thread_domains::{LockedDesk, Locks};

/// How often each thread does the same, in each domain.
const ROUNDS: u32 = 20;

/// A function writes in its own name, which the host takes, and in a foreign one, which the port stops. Was it so?
fn round<R: Wait>(desk: &mut LockedDesk<'_, R>, side: Side) -> Option<bool> {
    let own = submitted(desk.rt, desk.locks, side, &write(side.bus))?;
    let foreign = submitted(desk.rt, desk.locks, side, &write(side.other))?;
    let is_carried = matches!(desk.locks.carry(desk.rt, own), Ok(None));
    let port = PortId::new(Bdf::from_bits(0x0200));
    let is_refused = matches!(desk.refuse(foreign, port), Ok(None));
    Some(is_carried && is_refused)
}

/// All rounds of a thread, at a desk of its own. The locks are let go after them.
fn all_rounds<R: Wait>(rt: &R, locks: Arc<Locks, Global>) -> bool {
    let mut desk = LockedDesk { locks: &locks, rt };
    for _ in 0..ROUNDS {
        let first = round(&mut desk, FIRST);
        let second = round(&mut desk, SECOND);
        if first != Some(true) || second != Some(true) {
            return false;
        }
    }
    true
}

/// Two threads, each with a desk of its own. Did all go as it should?
fn both<R>(rt: R, locks: &Arc<Locks, Global>) -> Option<bool>
where
    R: Threads + Wait + Copy + Send + 'static,
{
    let one = Arc::try_clone(locks).ok()?;
    let other = Arc::try_clone(locks).ok()?;
    let Ok(first) = thread::spawn(&rt, move || all_rounds(&rt, one)) else {
        return None;
    };
    let second = all_rounds(&rt, other);
    let first = first.join(&rt);
    Some(first && second)
}

/// The domains after that.
fn ran<R>(rt: R, alloc: Global) -> Option<Vec<Domain>>
where
    R: Threads + Wait + Copy + Send + 'static,
{
    let locks = Arc::new(alloc, locks_of(alloc, GUARDED, &[1, 2])?).ok()?;
    if both(rt, &locks) != Some(true) {
        return None;
    }
    let Ok(locks) = Arc::try_unwrap(locks) else {
        return None;
    };
    locks.into_domains(alloc).ok()
}

/// How many entries are submits, refusals and carriages.
fn tally(journal: &[Entry]) -> (u32, u32, u32) {
    let mut submits = 0u32;
    let mut refusals = 0u32;
    let mut carriages = 0u32;
    for entry in journal {
        match entry {
            Entry::Submit(..) => submits = submits.wrapping_add(1),
            Entry::Refuse(_) => refusals = refusals.wrapping_add(1),
            Entry::Carry(_) => carriages = carriages.wrapping_add(1),
            _ => {}
        }
    }
    (submits, refusals, carriages)
}

/// The number of each domain, and its tally.
fn tallies(domains: &[Domain]) -> Option<((u8, (u32, u32, u32)), (u8, (u32, u32, u32)))> {
    let [first, second] = domains else {
        return None;
    };
    Some((
        (first.start().domain().get(), tally(first.journal())),
        (second.start().domain().get(), tally(second.journal())),
    ))
}

#[test]
fn no_entry_of_two_threads_is_lost(rt: HostRuntime) {
    let Some(domains) = ran(rt, rt.alloc()) else {
        assert!(rt; false, "no domains");
        return;
    };
    let all = (80, 40, 40);
    assert_eq!(rt; tallies(&domains), Some(((1, all), (2, all))));
}
