//! Lists of single events: what each answers.

use crate::moves::{FUNCTION_06, Move, direction};
use fab_types::Class::{NonPosted, Posted};
use fab_types::{Bdf, Direction, Outcome, PacketBytes, Way};
use fabric_core::{Event, Fabric};
use layout::Layout;
use layout_tests::EXAMPLE;
use std::alloc::Global;
use std::test::Fail;

/// A read of one DW at 1000 by 06:00.0.
const READ_BY_06: [u8; 12] = [0, 0, 0, 1, 6, 0, 0x20, 0x0f, 0, 0, 0x10, 0];

/// Nothing of the layout has this ID.
const NOBODY: u16 = 0x0900;

/// A fabric, and what is done in it.
#[derive(Drop)]
struct Scene {
    fabric: Fabric,
}

impl Scene {
    fn new(alloc: Global) -> Result<Scene, Fail> {
        let layout = Layout::read(alloc, EXAMPLE).map_err(|_| "a layout")?;
        Ok(Scene {
            fabric: Fabric::new(alloc, &layout)?,
        })
    }

    /// What comes of an event. It has no contract, so that a proof about many events knows none of what a step promises.
    fn outcome(&mut self, event: &Event) -> Outcome {
        self.fabric.step(event)
    }

    /// Is this event idle?
    fn rests(&mut self, one: Move) -> bool {
        let event = one.event();
        self.outcome(&event) == Outcome::Idle
    }

    /// Is each of these idle?
    fn all_rest(&mut self, moves: &[Move]) -> bool {
        for one in moves {
            if !self.rests(*one) {
                return false;
            }
        }
        true
    }

    /// The headers of non-posted requests that may still be sent, if there is such a link.
    fn headers_left(&self, direction: Direction) -> Option<u16> {
        let left = self.fabric.credits(direction)?;
        Some(left.non_posted.headers.value())
    }

    /// What came of each event of a run, unless memory was refused.
    fn outcomes(&mut self, alloc: Global, list: &[Event]) -> Option<Vec<Outcome>> {
        self.fabric.run(alloc, list).ok()
    }
}

/// Events of what the layout has not, and one where nothing waits.
const OF_NOTHING: [Move; 7] = [
    Move::Pass(NOBODY, Posted),
    Move::EnterOfFunction(NOBODY, Posted),
    Move::Send(NOBODY, Way::Up, Posted),
    Move::Take(NOBODY, Way::Down),
    Move::Credit(NOBODY, Way::Up),
    Move::Arrive(NOBODY, Posted),
    Move::Root(Posted),
];

#[test]
fn what_the_layout_has_not_is_idle(rt: HostRuntime) -> Result<(), Fail> {
    let mut scene = Scene::new(rt.alloc())?;
    assert!(rt; scene.all_rest(&OF_NOTHING));
    assert!(rt; scene.fabric.credits(direction(NOBODY, Way::Up)).is_none());
    Ok(())
}

/// A read is sent, no credits are returned, and nobody ticks.
fn five_events(alloc: Global) -> Result<Vec<Event>, Fail> {
    let read = PacketBytes::copy_of(alloc, &READ_BY_06)?;
    let events = vec![in alloc;
        Event::Submit(Bdf::from_bits(FUNCTION_06), read),
        Move::EnterOfFunction(FUNCTION_06, NonPosted).event(),
        Move::Send(FUNCTION_06, Way::Up, NonPosted).event(),
        Move::Credit(FUNCTION_06, Way::Up).event(),
        Event::Tick(Bdf::from_bits(NOBODY)),
    ]?;
    Ok(events)
}

#[test]
fn a_run_has_an_outcome_of_each_event(rt: HostRuntime) -> Result<(), Fail> {
    let mut scene = Scene::new(rt.alloc())?;
    let up = direction(FUNCTION_06, Way::Up);
    let before = scene.headers_left(up);
    let list = five_events(rt.alloc())?;
    let outcomes = scene.outcomes(rt.alloc(), &list).ok_or("outcomes")?;
    assert!(rt; outcomes.len() == 5);
    assert!(rt; matches!(outcomes[2], Outcome::Moved) && matches!(outcomes[3], Outcome::Idle));
    assert!(rt; scene.headers_left(up) < before);
    Ok(())
}
