//! Begins that are refused, and one to which memory is refused.

use crate::injector_scenes::{Scene, function, host, started, too_long, write};
use fab_types::{BeginFault, SubmitFault};
use std::alloc::Global;

/// How many writes go into a ring that nobody serves, 20,000 at most.
fn filled(scene: &mut Scene) -> u32 {
    let bytes = write();
    for count in 0..20_000u32 {
        if scene.submit(&bytes) != 0 {
            return count;
        }
    }
    20_000
}

/// The numbers of the refusals of a write, of too many bytes, and of an access.
fn refusals(scene: &mut Scene) -> (u8, u8, u8) {
    let short = scene.submit(&write());
    let long = scene.submit(&too_long());
    (short, long, scene.mmio())
}

/// Is a ring full after 16,384 begins, and what does a function's injector refuse then?
fn full(alloc: Global) -> Option<(bool, (u8, u8, u8))> {
    let mut scene = started(alloc, function(), 256)?;
    let is_full = filled(&mut scene) == 16_384;
    Some((is_full, refusals(&mut scene)))
}

#[test]
fn the_first_refusal_that_applies_is_answered(rt: HostRuntime) {
    assert_eq!(rt; full(rt.alloc()), Some((true, (1, 2, 3))));
}

/// The numbers of a host's refusals: of a tick, of a write and of too many bytes.
fn of_the_host(alloc: Global) -> Option<(u8, u8, u8)> {
    let mut scene = started(alloc, host()?, 256)?;
    let short = scene.submit(&write());
    let long = scene.submit(&too_long());
    Some((scene.tick(), short, long))
}

#[test]
fn a_host_neither_ticks_nor_submits(rt: HostRuntime) {
    assert_eq!(rt; of_the_host(rt.alloc()), Some((3, 3, 3)));
}

/// Serves once more where memory was refused: is the begin held meanwhile, and the domain as it was?
fn again(scene: &mut Scene) -> bool {
    let is_held = scene.ends.begins.holds_begin() && scene.counts() == (0, 0, 0);
    is_held && scene.serve().is_ok()
}

/// A write is served, also where memory is refused to it at first. Was it done?
fn served_at_last(scene: &mut Scene) -> bool {
    match scene.serve() {
        Ok(sent) => sent.is_some(),
        Err(BeginFault::Submit(SubmitFault::NoMemory)) => again(scene),
        Err(_) => false,
    }
}

/// Was it done once, and is nothing held then? Nothing is wrong where there is no memory for the scene itself.
fn is_done_once(alloc: Global) -> bool {
    let Some(mut scene) = started(alloc, function(), 256) else {
        return true;
    };
    let is_asked = scene.submit(&write()) == 0;
    let is_served = is_asked && served_at_last(&mut scene);
    is_served && !scene.ends.begins.holds_begin() && scene.counts() == (1, 0, 1)
}

#[test]
fn a_begin_to_which_memory_is_refused_is_held(rt: HostRuntime) {
    assert!(rt; is_done_once(rt.alloc()));
}
