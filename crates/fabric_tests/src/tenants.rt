//! A domain by itself: packets that it doesn't take.

use domain::Domain;
use fab_types::{Bdf, DomainId, PortId};
use frame_log::{Frame, FrameFault, Log};
use layout::Layout;
use std::alloc::Global;
use std::sync::Arc;
use std::test::Fail;

const LAYOUT: &str = "pciefab 1
frames 1
switch 01:00.0 root
port 02:00.0 03 03 90000000 900fffff 1f 1
function 03:00.0 90000000
map 03:00.0 1 frame 0 rw
";

/// A write of 03:00.0 to its page 1.
const WRITE: [u8; 16] = [
    0x40, 0, 0, 1, 3, 0, 0, 0x0f, 0, 0, 0x10, 0, 0x11, 0x22, 0x33, 0x44,
];

/// The helpers have no clauses: a test that calls them knows nothing of the domain, and so is proved in short time.
#[derive(Drop)]
struct Scene {
    domain: Domain,
}

/// The domain of this number as a layout starts it.
pub fn domain_of(alloc: Global, layout: &Layout, number: u8) -> Option<Domain> {
    let number = DomainId::new(number)?;
    let start = layout.start(alloc, number).ok()??;
    let log = Arc::new(alloc, Log::new(alloc).ok()?).ok()?;
    Domain::new(alloc, &start, log).ok()
}

impl Scene {
    fn new(alloc: Global) -> Option<Scene> {
        let layout = Layout::read(alloc, LAYOUT).ok()?;
        let domain = domain_of(alloc, &layout, 1)?;
        Some(Scene { domain })
    }

    fn write(&mut self) -> Option<Frame> {
        self.domain.submit(Bdf::from_bits(0x0300), &WRITE).ok()
    }

    /// The packet, which no call takes but `carry`: a write to the host is no completion, and its port has no cause
    /// to stop it.
    fn strays(&mut self, frame: Frame) -> Option<Frame> {
        let Err(FrameFault::Stray(frame)) = self.domain.deliver(frame) else {
            return None;
        };
        let port = PortId::new(Bdf::from_bits(0x0200));
        let Err(FrameFault::Stray(frame)) = self.domain.refuse(frame, port) else {
            return None;
        };
        Some(frame)
    }

    fn carries(&mut self, frame: Frame) -> bool {
        matches!(self.domain.carry(frame), Ok(None))
    }

    fn entries(&self) -> usize {
        self.domain.journal().len()
    }
}

#[test]
fn a_packet_is_taken_by_the_call_of_its_case_alone(rt: HostRuntime) -> Result<(), Fail> {
    let mut scene = Scene::new(rt.alloc()).ok_or("a domain")?;
    let frame = scene.write().ok_or("a write")?;
    let frame = scene.strays(frame).ok_or("a stray")?;
    assert_eq!(rt; scene.entries(), 1);
    assert!(rt; scene.carries(frame));
    assert_eq!(rt; scene.entries(), 2);
    Ok(())
}
