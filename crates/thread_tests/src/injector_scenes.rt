//! A domain with one function, and what it is asked.

use domain::Domain;
use fab_types::{Bdf, BeginFault, DomainId, HostAccess, Operation, Origin};
use frame_log::{Frame, Log};
use injector::{Injector, WorkerEnds, flush, serve, settle};
use layout::Layout;
use std::alloc::Global;
use std::sync::Arc;

/// Domain 1 has function 03:00.0, whose page 1 is mapped to a frame of memory.
const LAYOUT: &str = "pciefab 1
frames 1
switch 01:00.0 root
port 02:00.0 03 03 90000000 900fffff 1f 1
function 03:00.0 90000000
map 03:00.0 1 frame 0 rw
";

/// A domain, and the ends of the rings of one of its origins.
#[derive(Drop)]
pub struct Scene {
    /// The domain.
    pub domain: Domain,
    /// The injector of the origin.
    pub injector: Injector,
    /// The other ends of its rings.
    pub ends: WorkerEnds,
}

/// The ID of the function.
fn requester() -> Bdf {
    Bdf::from_bits(0x0300)
}

/// A write of 11 22 33 44 to the start of page 1.
pub fn write() -> [u8; 16] {
    [
        0x40, 0, 0, 1, 3, 0, 0, 0x0f, 0, 0, 0x10, 0, 0x11, 0x22, 0x33, 0x44,
    ]
}

/// More bytes than a packet may have.
pub fn too_long() -> [u8; 273] {
    [0; 273]
}

/// A read of the first DW of page 1, with this Tag.
pub fn read(tag: u8) -> [u8; 12] {
    [0, 0, 0, 1, 3, 0, tag, 0x0f, 0, 0, 0x10, 0]
}

/// The host reads the first DW of the function's register page.
pub fn access() -> HostAccess {
    HostAccess {
        function: requester(),
        offset: 0,
        operation: Operation::Read(1),
    }
}

/// The function as an origin.
pub fn function() -> Origin {
    Origin::Function(requester())
}

/// The host of domain 1 as an origin.
pub fn host() -> Option<Origin> {
    Some(Origin::Host(DomainId::new(1)?))
}

impl Scene {
    /// Asks for a submit of these bytes. The number of the refusal, or 0.
    pub fn submit(&mut self, bytes: &[u8]) -> u8 {
        match self.injector.submit(bytes) {
            Ok(()) => 0,
            Err(fault) => fault.number(),
        }
    }

    /// Asks for a tick. The number of the refusal, or 0.
    pub fn tick(&mut self) -> u8 {
        match self.injector.tick() {
            Ok(()) => 0,
            Err(fault) => fault.number(),
        }
    }

    /// Asks for an access. The number of the refusal, or 0.
    pub fn mmio(&mut self) -> u8 {
        match self.injector.mmio(access()) {
            Ok(()) => 0,
            Err(refused) => refused.fault.number(),
        }
    }

    /// Serves the next begin.
    pub fn serve(&mut self) -> Result<Option<Frame>, BeginFault> {
        serve(&mut self.domain, &mut self.ends.begins)
    }

    /// The request reaches the host. What follows from it.
    pub fn carry(&mut self, request: Frame) -> Option<Frame> {
        self.domain.carry(request).ok()?
    }

    /// Settles the completion, where no record is held.
    pub fn settle(&mut self, completion: Frame) -> bool {
        if self.ends.records.holds_record() {
            return false;
        }
        settle(&mut self.domain, completion, &mut self.ends.records).is_ok()
    }

    /// Puts the held record, if there is one. Is one held then?
    pub fn flush(&mut self) -> bool {
        flush(&mut self.ends.records);
        self.ends.records.holds_record()
    }

    /// How many begins were accepted and refused, and how many entries the journal has.
    pub fn counts(&self) -> (u64, u64, usize) {
        let begins = &self.ends.begins;
        let entries = self.domain.journal().len();
        (begins.accepted(), begins.refused(), entries)
    }
}

fn domain_of(alloc: Global) -> Option<Domain> {
    let layout = Layout::read(alloc, LAYOUT).ok()?;
    let log = Arc::new(alloc, Log::new(alloc).ok()?).ok()?;
    let start = layout.start(alloc, DomainId::new(1)?).ok()??;
    Domain::new(alloc, &start, log).ok()
}

/// The domain at its start, and the rings of this origin.
/// They have room for so many records.
pub fn started(alloc: Global, origin: Origin, records: u32) -> Option<Scene> {
    let domain = domain_of(alloc)?;
    let (injector, ends) = Injector::open(alloc, origin, records).ok()?;
    Some(Scene {
        domain,
        injector,
        ends,
    })
}
