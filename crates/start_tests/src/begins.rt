//! A program begins something while the workers run, and takes its completion.

use crate::gates::Open;
use crate::scenes::{Counts, SMALL, counted, started};
use crate::starts::SMALL_COUNTS;
use fab_types::{Bdf, Origin};
use port_threads::{Ending, Injector, Running};
use std::alloc::Global;
use std::sync::{Arc, Wait};
use std::thread;
use std::thread::Threads;
use std::time::{Clock, Duration};

/// A write of one DW at 1000h by 03:00.0.
const WRITE: [u8; 16] = [
    0x40, 0, 0, 1, 3, 0, 0, 0x0f, 0, 0, 0x10, 0, 0x11, 0x22, 0x33, 0x44,
];

/// A read of the same.
pub const READ: [u8; 12] = [0, 0, 0, 1, 3, 0, 7, 0x0f, 0, 0, 0x10, 0];

/// The injector of function 03:00.0, if it wasn't given yet.
fn injector(running: &mut Running) -> Option<Injector> {
    running.injector(Origin::Function(Bdf::from_bits(0x0300)))
}

/// The first byte of data of the first completion.
/// It looks for that at most 20,000 times, a millisecond apart.
pub fn first_byte<C: Clock>(clock: &C, injector: &mut Injector) -> Option<u8> {
    for _ in 0..20_000 {
        if let Some(record) = injector.take_record() {
            return record.bytes().get(12).copied();
        }
        thread::sleep(clock, Duration::from_millis(1));
    }
    None
}

/// What 03:00.0 reads back of what it wrote.
fn read_back<C: Clock>(clock: &C, running: &mut Running) -> Option<u8> {
    let mut injector = injector(running)?;
    injector.submit(&WRITE).ok()?;
    injector.submit(&READ).ok()?;
    first_byte(clock, &mut injector)
}

/// What was read back, whether the injector was given once more, and what is left of the fabric.
fn outcome<R>(rt: R, alloc: Global) -> Option<(Option<u8>, bool, Counts)>
where
    R: Threads + Wait + Clock + Copy + Send + 'static,
{
    let gate = Arc::new(alloc, Open).ok()?;
    let mut running = started(rt, alloc, SMALL, &gate, u32::MAX)?;
    let byte = read_back(&rt, &mut running);
    let is_given_again = injector(&mut running).is_some();
    let counts = counted(running.stop(&rt, alloc, Ending::Now))?;
    Some((byte, is_given_again, counts))
}

#[test]
fn a_write_is_read_back_while_the_workers_run(rt: HostRuntime) {
    let outcome = outcome(rt, rt.alloc());
    assert_eq!(rt; outcome, Some((Some(0x11), false, SMALL_COUNTS)));
}
