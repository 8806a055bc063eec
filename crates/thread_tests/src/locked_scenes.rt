//! Two domains under locks, and what their functions submit.

use domain::Domain;
use fab_types::{Bdf, DomainId};
use frame_log::{Frame, Log};
use layout::Layout;
use std::alloc::Global;
use std::sync::{Arc, Wait};
use thread_domains::Locks;

/// Domain 1 has function 03:00.0, domain 2 has 04:00.0. Each port has all five controls set.
pub const GUARDED: &str = "pciefab 1
frames 2
switch 01:00.0 root
port 02:00.0 03 03 90000000 900fffff 1f 1
port 02:01.0 04 04 90100000 901fffff 1f 2
function 03:00.0 90000000
function 04:00.0 90100000
map 03:00.0 1 frame 0 rw
map 04:00.0 1 frame 1 rw
";

/// A domain, the bus of its function, and the bus of the other's.
#[derive(Clone, Copy)]
pub struct Side {
    /// The number of the domain.
    pub number: u8,
    /// The bus of its function.
    pub bus: u8,
    /// The bus of the other's function.
    pub other: u8,
}

/// Domain 1, with function 03:00.0.
pub const FIRST: Side = Side {
    number: 1,
    bus: 3,
    other: 4,
};

/// Domain 2, with function 04:00.0.
pub const SECOND: Side = Side {
    number: 2,
    bus: 4,
    other: 3,
};

/// A write to page 1, in the name of the function on this bus.
pub fn write(bus: u8) -> [u8; 16] {
    [
        0x40, 0, 0, 1, bus, 0, 0, 0x0f, 0, 0, 0x10, 0, 0x11, 0x22, 0x33, 0x44,
    ]
}

fn domain_of(alloc: Global, layout: &Layout, log: &Arc<Log>, number: u8) -> Option<Domain> {
    let number = DomainId::new(number)?;
    let start = layout.start(alloc, number).ok()??;
    let log = Arc::try_clone(log).ok()?;
    Domain::new(alloc, &start, log).ok()
}

/// The domains of these numbers, as the layout starts them, under locks.
pub fn locks_of(alloc: Global, text: &str, numbers: &[u8]) -> Option<Locks> {
    let layout = Layout::read(alloc, text).ok()?;
    let log = Arc::new(alloc, Log::new(alloc).ok()?).ok()?;
    let mut domains = Vec::new(alloc);
    for number in numbers {
        domains
            .push(domain_of(alloc, &layout, &log, *number)?)
            .ok()?;
    }
    Locks::new(alloc, domains).ok()
}

/// The function of a domain submits these bytes.
pub fn submitted<R: Wait>(rt: &R, locks: &Locks, side: Side, bytes: &[u8]) -> Option<Frame> {
    let function = Bdf::new(side.bus, 0, 0)?;
    let lock = locks.lock_of(DomainId::new(side.number)?)?;
    let mut domain = lock.lock(rt);
    domain.submit(function, bytes).ok()
}
