//! Where the packets of a domain stand, after each of a list of events.

use crate::moves::{FUNCTION_06, Move, STOPPED_READ, direction};
use domain::Domain;
use fab_types::Class::{Completion, NonPosted};
use fab_types::{Bdf, DomainId, Origin, Outcome, PacketBytes, Place, PlacesFault, Way};
use fabric_core::{Event, Fabric};
use layout::Layout;
use layout_tests::EXAMPLE;
use std::alloc::Global;
use std::test::Fail;

/// A read of one DW at 1000 by 03:00.0.
const READ_BY_03: [u8; 12] = [0, 0, 0, 1, 3, 0, 0x20, 0x0f, 0, 0, 0x10, 0];

const FUNCTION_03: u16 = 0x0300;

/// A fabric, and what is asked of it.
#[derive(Drop)]
struct Scene {
    fabric: Fabric,
    alloc: Global,
}

impl Scene {
    fn new(alloc: Global) -> Result<Scene, Fail> {
        let layout = Layout::read(alloc, EXAMPLE).map_err(|_| "a layout")?;
        let fabric = Fabric::new(alloc, &layout)?;
        Ok(Scene { fabric, alloc })
    }

    /// Does the event move something? It has no contract, so that a proof about many events knows none of what a step
    /// promises.
    fn does(&mut self, event: &Event) -> bool {
        matches!(self.fabric.step(event), Outcome::Moved)
    }

    fn submits(&mut self, id: u16, bytes: &[u8]) -> bool {
        match PacketBytes::copy_of(self.alloc, bytes) {
            Ok(bytes) => self.does(&Event::Submit(Bdf::from_bits(id), bytes)),
            Err(_) => false,
        }
    }

    fn places(&self, number: u8) -> Result<Vec<(u64, Place)>, PlacesFault> {
        match DomainId::new(number) {
            Some(number) => self.fabric.places(self.alloc, number),
            None => Err(PlacesFault::NoDomain),
        }
    }

    /// Does one packet of the domain stand somewhere, this one, at this place?
    fn has_one(&self, number: u8, packet: u64, place: Place) -> bool {
        match self.places(number) {
            Ok(places) => places.len() == 1 && places[0].0 == packet && places[0].1 == place,
            Err(_) => false,
        }
    }

    fn has_none(&self, number: u8) -> bool {
        matches!(self.places(number), Ok(places) if places.is_empty())
    }

    /// Has the domain that its journal leaves, replayed alone, this packet in flight?
    fn replays(&self, number: u8, packet: u64) -> bool {
        let Some(domain) = DomainId::new(number).and_then(|number| self.fabric.domain(number))
        else {
            return false;
        };
        match Domain::replay(self.alloc, domain.start(), domain.journal()) {
            Ok(alone) => alone.bytes(packet).is_some(),
            Err(_) => false,
        }
    }
}

fn outbox(function: u16) -> Place {
    Place::Outbox(Origin::Function(Bdf::from_bits(function)))
}

/// Which packet stands where after each of these.
fn stops() -> [(u64, Place); 6] {
    [
        (0, Place::Egress(direction(FUNCTION_06, Way::Up))),
        (0, Place::Wire(direction(FUNCTION_06, Way::Up))),
        (0, Place::Ingress(direction(FUNCTION_06, Way::Up))),
        (1, Place::Egress(direction(FUNCTION_06, Way::Down))),
        (1, Place::Wire(direction(FUNCTION_06, Way::Down))),
        (1, Place::Ingress(direction(FUNCTION_06, Way::Down))),
    ]
}

/// After how many of the events, from the first on, did each packet stand where it should and nowhere else, and was it in
/// flight?
fn agreed(scene: &mut Scene) -> usize {
    let stops = stops();
    for place in 0..6 {
        let (packet, stop) = stops[place];
        let moved = scene.does(&STOPPED_READ[place].event());
        let stands = scene.has_one(2, packet, stop) && scene.has_one(1, 0, outbox(FUNCTION_03));
        if !moved || !stands || !scene.replays(2, packet) {
            return place;
        }
    }
    6
}

#[test]
fn each_packet_is_named_where_it_stands(rt: HostRuntime) -> Result<(), Fail> {
    let mut scene = Scene::new(rt.alloc())?;
    assert!(rt; scene.has_none(1) && scene.has_none(2));
    assert!(rt; scene.submits(FUNCTION_03, &READ_BY_03));
    assert!(rt; scene.submits(FUNCTION_06, &READ_BY_03));
    assert!(rt; scene.has_one(2, 0, outbox(FUNCTION_06)));
    assert_eq!(rt; agreed(&mut scene), 6);
    assert!(rt; scene.does(&Move::Arrive(FUNCTION_06, Completion).event()));
    assert!(rt; scene.has_none(2) && !scene.replays(2, 1));
    assert!(rt; scene.has_one(1, 0, outbox(FUNCTION_03)));
    Ok(())
}

#[test]
fn a_domain_without_a_port_has_no_places(rt: HostRuntime) -> Result<(), Fail> {
    let scene = Scene::new(rt.alloc())?;
    assert!(rt; matches!(scene.places(3), Err(PlacesFault::NoDomain)));
    Ok(())
}
