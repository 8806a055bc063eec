//! Thousands of packets over the largest layout, while each worker skips turns at random.

use crate::begins::first_byte;
use crate::largest::LARGEST;
use domain::Domain;
use fab_types::{Bdf, Origin};
use layout::Layout;
use port_threads::{Ending, Gate, Injector, Running, Stopped, WorkerId};
use std::alloc::Global;
use std::sync::atomic::{AtomicU64, Ordering};
use std::sync::{Arc, Wait};
use std::thread::{Threads, yield_now};
use std::time::Clock;

/// How many functions the largest layout has.
const FUNCTIONS: usize = 57;

/// How many writes each function submits, before a read.
const WRITES: u32 = 50;

/// Has each worker skip about every third turn.
#[derive(Drop)]
struct Skipping {
    drawn: AtomicU64,
}

impl Gate for Skipping {
    fn before(&self, _worker: WorkerId, _turn: u32) -> bool {
        // a Weyl sequence, whose upper half is mixed into the lower one
        let drawn = self
            .drawn
            .fetch_add(0x9e37_79b9_7f4a_7c15, Ordering::SeqCst);
        yield_now();
        (drawn ^ (drawn >> 31)) % 3 > 0
    }
}

/// A write to page 1 in the name of this ID.
fn write(requester: Bdf) -> [u8; 16] {
    let [bus, below] = requester.bits().to_be_bytes();
    [
        0x40, 0, 0, 1, bus, below, 0, 0x0f, 0, 0, 0x10, 0, 0x11, 0x22, 0x33, 0x44,
    ]
}

/// A read of what that writes.
fn read(requester: Bdf) -> [u8; 12] {
    let [bus, below] = requester.bits().to_be_bytes();
    [0, 0, 0, 1, bus, below, 7, 0x0f, 0, 0, 0x10, 0]
}

/// The injector of a function that has submitted its writes, every fourth in the name of another, and then its read.
fn flooded(running: &mut Running, own: Bdf) -> Option<Injector> {
    let mut injector = running.injector(Origin::Function(own))?;
    let other = Bdf::from_bits(own.bits() ^ 0x4000);
    for number in 0..WRITES {
        let name = if number % 4 == 3 { other } else { own };
        injector.submit(&write(name)).ok()?;
    }
    injector.submit(&read(own)).ok()?;
    Some(injector)
}

/// Those of all functions.
fn all_flooded(alloc: Global, running: &mut Running, layout: &Layout) -> Option<Vec<Injector>> {
    let mut injectors = Vec::new(alloc);
    for line in layout.functions() {
        injectors.push(flooded(running, line.id)?).ok()?;
    }
    Some(injectors)
}

/// How many functions read what they wrote. No packet is under way by then, since a read passes no write.
fn answered<C: Clock>(
    clock: &C,
    alloc: Global,
    running: &mut Running,
    layout: &Layout,
) -> Option<usize> {
    let mut answered = 0usize;
    for mut injector in all_flooded(alloc, running, layout)? {
        if first_byte(clock, &mut injector) == Some(0x11) {
            answered = answered.wrapping_add(1);
        }
    }
    Some(answered)
}

/// How many functions read what they wrote, and what is left of the fabric then.
fn stormed<R>(rt: R, alloc: Global) -> Option<(usize, Stopped)>
where
    R: Threads + Wait + Clock + Copy + Send + 'static,
{
    let layout = Arc::new(alloc, Layout::read(alloc, LARGEST).ok()?).ok()?;
    let drawn = AtomicU64::new(1);
    let gate = Arc::new(alloc, Skipping { drawn }).ok()?;
    let mut running = Running::start(rt, alloc, &layout, u32::MAX, &gate).ok()?;
    let answered = answered(&rt, alloc, &mut running, &layout);
    let stopped = running.stop(&rt, alloc, Ending::Now).ok()?;
    Some((answered?, stopped))
}

/// How many entries its journal has, if it replays.
fn replayed(alloc: Global, domain: &Domain) -> Option<usize> {
    let journal = domain.journal();
    Domain::replay(alloc, domain.start(), journal).ok()?;
    Some(journal.len())
}

/// Those of all.
fn all_replayed(alloc: Global, domains: &[Domain]) -> Option<usize> {
    let mut entries = 0usize;
    for domain in domains {
        entries = entries.wrapping_add(replayed(alloc, domain)?);
    }
    Some(entries)
}

#[test]
fn no_packet_is_lost_where_turns_are_skipped_at_random(rt: HostRuntime) {
    let Some((answered, stopped)) = stormed(rt, rt.alloc()) else {
        panic!(rt; "no fabric");
    };
    assert_eq!(rt; answered, FUNCTIONS);
    // Each write is begun and consumed, and so is each read and its completion.
    assert_eq!(rt;
        all_replayed(rt.alloc(), &stopped.domains),
        Some(57 * (50 * 2 + 3))
    );
    assert_eq!(rt; stopped.list.len(), 57 * 12);
}
