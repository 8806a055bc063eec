//! Completions that were delivered, and their records.

use crate::injector_scenes::{Scene, function, read, started};
use std::alloc::Global;

/// The function asks for a read, which is served, carried by the host and settled.
fn settled(scene: &mut Scene, tag: u8) -> Option<bool> {
    let is_asked = scene.submit(&read(tag)) == 0;
    let request = scene.serve().ok()??;
    let completion = scene.carry(request)?;
    Some(is_asked && scene.settle(completion))
}

/// The Tag of the oldest record that waits.
fn tag_of_next(scene: &mut Scene) -> Option<u8> {
    let taken = scene.injector.take_record()?;
    Some(taken.tag())
}

/// Two reads with a place for one record. Is the second record held until the first was taken?
fn held(alloc: Global) -> Option<bool> {
    let mut scene = started(alloc, function(), 1)?;
    if settled(&mut scene, 1) != Some(true) || settled(&mut scene, 2) != Some(true) {
        return None;
    }
    let is_held = scene.flush() && tag_of_next(&mut scene) == Some(1);
    let is_put = !scene.flush() && tag_of_next(&mut scene) == Some(2);
    Some(is_held && is_put)
}

#[test]
fn a_record_without_a_place_is_held(rt: HostRuntime) {
    assert_eq!(rt; held(rt.alloc()), Some(true));
}
