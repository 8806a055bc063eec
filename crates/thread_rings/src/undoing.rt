//! Taking the ends of rings back, in the opposite order.

ghost use Rattle.std.specs.Prelude.{◌≡◌, ◌≢◌, ◌<◌, ℕ, List, [], map, replicate, reverse, All, IfOk, length, vec_len, slice_index_or};
ghost use Rattle.rtrb.specs.Ring.{IsPair, sent, received};
ghost use Rattle.thread_rings.specs.Moved.{flow_of, no_flow, put_back, taken_back};
ghost use Rattle.thread_rings.specs.Names.{RingName, out_name, in_name};
ghost use Rattle.thread_rings.specs.declared.wire.Wire.{Wire};
ghost use Rattle.thread_rings.specs.Returned.{row_of, all_tallied};
ghost use Rattle.thread_rings.specs.Wired.{Tag, Tags, AreWithin, no_tags, out_given, in_given, given, dealt, numbered, tags_of, out_tag, in_tag, table_of};

use crate::ends::Ends;
use crate::in_end::InEnd;
use crate::laid::Laid;
use crate::out_end::OutEnd;
use crate::ring_tally::{RingTally, tally_ends};
use crate::wire::Wire;
use std::alloc::{AllocError, Global};
use std::snapshot::Snapshot;

/// Takes the last end to put into from a worker that has one.
#[tactic(auto, using(crate::proofs::Undone::taken_out, crate::proofs::Flows::moved_out))]
fn take_out<T: Drop>(workers: &mut Vec<Ends<T>>, worker: usize) -> OutEnd<T>
    requires within { worker < vec_len workers.old }
    requires some { (slice_index_or (map tags_of workers.old.items) worker no_tags).outs ≢ [] }
    ensures count { vec_len workers.new ≡ vec_len workers.old }
    ensures taken { map tags_of workers.old.items ≡ out_given (map tags_of workers.new.items) worker (out_tag result) }
    ensures moved { map flow_of workers.old.items
        ≡ put_back (map flow_of workers.new.items) worker (sent result.producer) }
{
    match workers[worker].take_out() {
        Some(end) => end,
        None => unreachable!(),
    }
}

/// Takes the last end to take from from a worker that has one.
#[tactic(auto, using(crate::proofs::Undone::taken_in, crate::proofs::Flows::moved_in))]
fn take_in<T: Drop>(workers: &mut Vec<Ends<T>>, worker: usize) -> InEnd<T>
    requires within { worker < vec_len workers.old }
    requires some { (slice_index_or (map tags_of workers.old.items) worker no_tags).ins ≢ [] }
    ensures count { vec_len workers.new ≡ vec_len workers.old }
    ensures taken { map tags_of workers.old.items ≡ in_given (map tags_of workers.new.items) worker (in_tag result) }
    ensures moved { map flow_of workers.old.items
        ≡ taken_back (map flow_of workers.new.items) worker (received result.consumer) }
{
    match workers[worker].take_in() {
        Some(end) => end,
        None => unreachable!(),
    }
}

/// Takes both ends of the ring that was dealt last.
fn take_both<T: Drop>(workers: &mut Vec<Ends<T>>, from: usize, to: usize) -> (OutEnd<T>, InEnd<T>)
    requires from { from < vec_len workers.old }
    requires to { to < vec_len workers.old }
    requires given { (before : List Tags) × (tag : Tag) × (length before ≡ vec_len workers.old)
        × (map tags_of workers.old.items ≡ in_given (out_given before from tag) to tag) }
    ensures count { vec_len workers.new ≡ vec_len workers.old }
    ensures taken { (before : List Tags) (tag : Tag) → length before ≡ vec_len workers.old
        → map tags_of workers.old.items ≡ in_given (out_given before from tag) to tag
        → (map tags_of workers.new.items ≡ before) × (out_tag result.0 ≡ tag) × (in_tag result.1 ≡ tag) }
    ensures moved { map flow_of workers.old.items
        ≡ taken_back (put_back (map flow_of workers.new.items) from (sent result.0.producer)) to (received result.1.consumer) }
{
    let input = take_in(workers, to);
    let out = take_out(workers, from);
    (out, input)
}

/// Takes the ends of all rings back from the workers, and tallies each ring.
/// The workers are those to which `deal` gave them, each end still in its place. Of the rings the last of the
/// table comes first. `made` is a snapshot of the rings as they were laid, before they were dealt out. Whatever
/// the workers put and took meanwhile, no ring is left out.
///
/// It answers an error where memory was refused, for the list of rings or for what is left in one. Then all
/// rings are let go with what is in them, those too that had been tallied; the table and the snapshot are as they
/// were.
pub fn undo<T: Drop>(
    alloc: Global,
    made: &Snapshot<Vec<Laid<T>>>,
    wires: &[Wire],
    workers: Vec<Ends<T>>,
) -> Result<Vec<RingTally<T>>, AllocError>
    requires wires { map (λ r. r.wire) made.now.value.items ≡ wires.now }
    requires within { AreWithin (vec_len workers) wires.now }
    requires dealt { map tags_of workers.items ≡ dealt (vec_len workers) (table_of made.now.value.items) }
    ensures count { IfOk result (λ rings. vec_len rings ≡ length wires.now) }
    ensures rings { IfOk result (λ rings.
        map row_of rings.items ≡ reverse (numbered (table_of made.now.value.items))) }

    // What each worker had put and taken by each of its ends is what the rings tally to.
    ensures moved { IfOk result (λ rings.
        map flow_of workers.items ≡ all_tallied (replicate (vec_len workers) no_flow) (reverse rings.items)) }
{
    let mut workers = workers;
    let mut rings = Vec::with_capacity(alloc, wires.len())?;
    for done in 0..wires.len() {
        let wire = &wires[wires.len() - 1 - done];
        let (out, input) = take_both(&mut workers, wire.from, wire.to);
        rings.push_reserved(tally_ends(alloc, *wire, out, input)?);
    }
    Ok(rings)
}
