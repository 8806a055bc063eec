//! What a thread of the program does for a tenant: it has the tenant's function write and read, and takes the completion.

use domain::Record;
use port_threads::Injector;
use std::thread;
use std::time::{Clock, Duration};

/// A function, by its bus, and the four bytes that it writes.
#[derive(Clone, Copy)]
pub struct Writer {
    /// The bus of the function.
    pub bus: u8,
    /// The bytes that it writes, from the lowest address on.
    pub data: [u8; 4],
}

/// A memory write of the four bytes at address 1000h (PCIe 4.0, 2.2.7).
fn write(writer: Writer) -> [u8; 16] {
    let [a, b, c, d] = writer.data;
    [
        0x40, 0, 0, 1, writer.bus, 0, 0, 0x0f, 0, 0, 0x10, 0, a, b, c, d,
    ]
}

/// A memory read of the same four bytes, with Tag 7.
fn read(writer: Writer) -> [u8; 12] {
    [0, 0, 0, 1, writer.bus, 0, 7, 0x0f, 0, 0, 0x10, 0]
}

/// Looks for a completion at most 1,000 times, a millisecond apart.
fn next_record<C: Clock>(clock: &C, injector: &mut Injector) -> Option<Record> {
    for _ in 0..1_000 {
        if let Some(record) = injector.take_record() {
            return Some(record);
        }
        thread::sleep(clock, Duration::from_millis(1));
    }
    None
}

/// The function writes, and reads what it wrote. None where a ring was full, or the completion didn't come in time.
pub fn write_and_read<C: Clock>(clock: &C, injector: Injector, writer: Writer) -> Option<Record> {
    let mut injector = injector;
    injector.submit(&write(writer)).ok()?;
    injector.submit(&read(writer)).ok()?;
    next_record(clock, &mut injector)
}
