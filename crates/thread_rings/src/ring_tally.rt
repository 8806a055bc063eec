//! Rings whose ends came back.

ghost use Rattle.std.specs.Prelude.{◌≡◌, ◌++◌, IfOk, OnOk};
ghost use Rattle.rtrb.specs.Ring.{IsPair, received, sent, known_items};
ghost use Rattle.thread_rings.specs.Names.{out_name};
ghost use Rattle.thread_rings.specs.Wired.{out_tag, in_tag};

use crate::in_end::InEnd;
use crate::out_end::OutEnd;
use crate::wire::Wire;
use rtrb::{Consumer, Producer};
use std::alloc::{AllocError, Global};
use std::snapshot::Snapshot;

/// A ring whose ends are back, and the items that were still in it. They were taken out, so the ring is empty.
#[derive(Drop)]
pub struct RingTally<T: Drop> {
    /// The number of the ring in the table.
    pub ring: usize,
    /// The wire that it was laid for.
    pub wire: Wire,
    /// The end to put into.
    pub out: Producer<T>,
    /// The end to take from.
    pub input: Consumer<T>,
    /// What had been put in and not been taken, oldest first.
    pub left: Vec<T>,
    /// The end to take from as it came back, for contracts alone.
    /// What it had received is what had been taken.
    pub taker: Snapshot<Consumer<T>>,
    pub ghost fifo: { received taker.value ++ left.items ≡ sent out },
    pub ghost empty: { received input ≡ sent out },
}

/// Takes out all items that the end knows to be in the ring.
fn empty_out<T: Drop>(alloc: Global, input: &mut Consumer<T>) -> Result<Vec<T>, AllocError>
    ensures left { IfOk result (λ left. left.items ≡ known_items input.old) }
    ensures received { OnOk result (received input.new ≡ received input.old ++ known_items input.old) }
{
    let count = input.cached_slots();
    let mut left = Vec::with_capacity(alloc, count)?;
    for _ in 0..count {
        left.push_reserved(input.pop_known());
    }
    Ok(left)
}

/// Puts the two ends of a ring together, and takes out what is left in it.
fn tally_ring<T: Drop>(
    alloc: Global,
    ring: usize,
    wire: Wire,
    out: Producer<T>,
    input: Consumer<T>,
) -> Result<RingTally<T>, AllocError>
    requires { IsPair out input }
    ensures ring { IfOk result (λ tally. tally.ring ≡ ring) }
    ensures wire { IfOk result (λ tally. tally.wire ≡ wire) }
    ensures name { IfOk result (λ tally. out_name tally.out ≡ out_name out) }
    ensures sent { IfOk result (λ tally. sent tally.out ≡ sent out) }
    ensures taken { IfOk result (λ tally. received tally.taker.value ≡ received input) }
{
    let mut out = out;
    let mut input = input;
    let taker = Snapshot::of(&input);
    input.slots_beside(&mut out);
    let left = empty_out(alloc, &mut input)?;
    Ok(RingTally {
        ring,
        wire,
        out,
        input,
        left,
        taker,
    })
}

/// Tallies the ring of two ends of one number and one name. Where memory for what is left was refused, the ring is let
/// go with all that is in it.
pub(crate) fn tally_ends<T: Drop>(
    alloc: Global,
    wire: Wire,
    out: OutEnd<T>,
    input: InEnd<T>,
) -> Result<RingTally<T>, AllocError>
    requires { in_tag input ≡ out_tag out }
    ensures ring { IfOk result (λ tally. tally.ring ≡ out.ring) }
    ensures wire { IfOk result (λ tally. tally.wire ≡ wire) }
    ensures name { IfOk result (λ tally. out_name tally.out ≡ out_name out.producer) }
    ensures sent { IfOk result (λ tally. sent tally.out ≡ sent out.producer) }
    ensures taken { IfOk result (λ tally. received tally.taker.value ≡ received input.consumer) }
{
    let OutEnd {
        ring,
        producer,
        refusals: _,
    } = out;
    let InEnd { ring: _, consumer } = input;
    tally_ring(alloc, ring, wire, producer, consumer)
}
