//! A host writes a program into a function's page, and the function performs it, while the workers run.

use crate::begins::{READ, first_byte};
use crate::gates::Open;
use crate::scenes::{SMALL, started};
use fab_types::{Bdf, DomainId, HostAccess, Operation, Origin, PacketBytes};
use port_threads::{Ending, Injector, Running};
use std::alloc::Global;
use std::sync::{Arc, Wait};
use std::thread::Threads;
use std::time::Clock;

/// A line of a program: a write of the first DW of the buffer to address 1000h.
const LINE: [u8; 16] = [1, 1, 0, 0, 0, 0, 0, 0, 0, 0x10, 0, 0, 0, 0, 0, 0];

/// What a host asks of the page of 03:00.0.
fn access(offset: u16, operation: Operation) -> HostAccess {
    HostAccess {
        function: Bdf::from_bits(0x0300),
        offset,
        operation,
    }
}

/// The host writes these bytes there.
fn writes(alloc: Global, host: &mut Injector, offset: u16, bytes: &[u8]) -> Option<()> {
    let bytes = PacketBytes::copy_of(alloc, bytes).ok()?;
    host.mmio(access(offset, Operation::Write(bytes))).ok()
}

/// The host writes data and a program, and starts it. What STATUS is then.
fn start_program<C: Clock>(clock: &C, alloc: Global, host: &mut Injector) -> Option<u8> {
    writes(alloc, host, 0x400, &[0xca, 0xfe, 1, 2])?;
    writes(alloc, host, 0x100, &LINE)?;
    writes(alloc, host, 0x004, &[1, 0, 0, 0])?;
    host.mmio(access(0x008, Operation::Read(1))).ok()?;
    first_byte(clock, host)
}

/// The function performs two lines, and reads its memory. The first byte of that.
fn perform<C: Clock>(clock: &C, function: &mut Injector) -> Option<u8> {
    function.tick().ok()?;
    function.tick().ok()?;
    function.submit(&READ).ok()?;
    first_byte(clock, function)
}

/// STATUS once the program was started, and the first byte of memory once it was performed.
fn performed<C: Clock>(clock: &C, alloc: Global, running: &mut Running) -> Option<(u8, u8)> {
    let mut host = running.injector(Origin::Host(DomainId::new(1)?))?;
    let mut function = running.injector(Origin::Function(Bdf::from_bits(0x0300)))?;
    let status = start_program(clock, alloc, &mut host)?;
    let byte = perform(clock, &mut function)?;
    Some((status, byte))
}

/// The same, and how many entries the journal of domain 1 has when the fabric was stopped.
fn outcome<R>(rt: R, alloc: Global) -> Option<(u8, u8, usize)>
where
    R: Threads + Wait + Clock + Copy + Send + 'static,
{
    let gate = Arc::new(alloc, Open).ok()?;
    let mut running = started(rt, alloc, SMALL, &gate, u32::MAX)?;
    let performed = performed(&rt, alloc, &mut running);
    let stopped = running.stop(&rt, alloc, Ending::Now).ok()?;
    let (status, byte) = performed?;
    Some((status, byte, stopped.domains.first()?.journal().len()))
}

/// The host's three writes and its read are four begins, and end by four entries, the read's completion by one more; the two
/// ticks are two, and what the first emits ends by one; the function's read is one, and ends by two.
#[test]
fn a_program_that_the_host_starts_is_performed(rt: HostRuntime) {
    assert_eq!(rt; outcome(rt, rt.alloc()), Some((1, 0xca, 15)));
}
