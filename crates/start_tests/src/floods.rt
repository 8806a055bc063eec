//! A function floods the queue of violations while the monitor is held back, and nothing is lost.

use crate::scenes::started;
use domain::{Domain, Entry};
use fab_types::{Bdf, DomainId, Origin};
use layout::Layout;
use layout_tests::EXAMPLE;
use port_threads::{Ending, EvenGate, Gate, Running, Stopped, Totals, WorkerId};
use std::alloc::Global;
use std::sync::{Arc, Wait};
use std::thread::Threads;
use std::time::Clock;

/// A write of one DW at 1000h in the name of 03:00.0.
const SPOOFED: [u8; 16] = [
    0x40, 0, 0, 1, 3, 0, 0, 0x0f, 0, 0, 0x10, 0, 0xde, 0xad, 0xbe, 0xef,
];

/// An even gate, but the monitor makes no turn.
#[derive(Drop)]
struct WithoutMonitor<C> {
    even: EvenGate<C>,
}

impl<C: Clock> Gate for WithoutMonitor<C> {
    fn before(&self, worker: WorkerId, turn: u32) -> bool {
        let is_monitor = worker == WorkerId::Monitor;
        self.even.before(worker, turn) && !is_monitor
    }
}

/// What is left after a flood.
#[derive(Clone, Copy, Debug, PartialEq, Eq)]
struct Flooded {
    /// How many violations the monitor's list has.
    reported: usize,
    /// How many packets of domain 2 a port refused, by its journal.
    refused: usize,
    /// What counts of domain 1.
    quiet: Totals,
    /// What counts of domain 2.
    loud: Totals,
}

/// 06:00.0, of domain 2, submits 100 writes in the name of a function of domain 1.
fn flood(running: &mut Running) -> Option<()> {
    let mut injector = running.injector(Origin::Function(Bdf::from_bits(0x0600)))?;
    for _ in 0..100 {
        injector.submit(&SPOOFED).ok()?;
    }
    Some(())
}

/// How many packets a port refused, by a domain's journal.
fn refused(domain: &Domain) -> usize {
    let is_refused = |entry: &&Entry| matches!(entry, Entry::Refuse(_));
    domain.journal().iter().filter(is_refused).count()
}

fn left_of(stopped: &Stopped) -> Option<Flooded> {
    let quiet = DomainId::new(1)?;
    let loud = DomainId::new(2)?;
    Some(Flooded {
        reported: stopped.list.len(),
        refused: refused(stopped.domains.get(1)?),
        quiet: stopped.totals(quiet)?,
        loud: stopped.totals(loud)?,
    })
}

/// What is left of the fabric of `EXAMPLE` after 100,000 turns, of which the monitor makes none.
fn outcome<R>(rt: R, alloc: Global) -> Option<Flooded>
where
    R: Threads + Wait + Clock + Copy + Send + Sync + Drop + 'static,
{
    let layout = Layout::read(alloc, EXAMPLE).ok()?;
    let even = EvenGate::new(alloc, rt, &layout).ok()?;
    let gate = Arc::new(alloc, WithoutMonitor { even }).ok()?;
    let mut running = started(rt, alloc, EXAMPLE, &gate, 100_000)?;
    let begun = flood(&mut running);
    gate.even.release();
    let stopped = running.stop(&rt, alloc, Ending::AfterTurns).ok()?;
    begun?;
    left_of(&stopped)
}

/// The queue takes 64 reports. The port holds the 65th, and stops no other packet from then on: 35 stay where they are.
#[test]
fn a_full_queue_of_violations_stops_the_flood_and_loses_no_packet(rt: HostRuntime) {
    let none = Totals {
        emitted: 0,
        consumed: 0,
        found: 0,
        taken: 0,
        begins: 0,
        refused: 0,
        held: 0,
    };
    let loud = Totals {
        emitted: 100,
        consumed: 65,
        found: 35,
        taken: 100,
        begins: 100,
        ..none
    };
    let expected = Flooded {
        reported: 64,
        refused: 65,
        quiet: none,
        loud,
    };
    assert_eq!(rt; outcome(rt, rt.alloc()), Some(expected));
}
