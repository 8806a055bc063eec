//! The ends that a worker has.

ghost use Rattle.std.specs.Prelude.{◌≡◌, ◌<◌, ◌++◌, ◌∷◌, [], IfSome, IsOk, IsSome, OnOk, OnSome, MatchOption, MatchResult, slice_index_or, vec_len};
ghost use Rattle.rtrb.specs.Ring.{sent, received};
ghost use Rattle.thread_rings.specs.Names.{out_name, in_name};
ghost use Rattle.thread_rings.specs.Wired.{tags_of, no_tags, with_out, with_in, out_tag, in_tag};
ghost use Rattle.thread_rings.specs.Moved.{put_by, taken_by, places_of, waiting_of, one_more, flow_of, with_put, with_taken};

use crate::in_end::InEnd;
use crate::out_end::OutEnd;
use rtrb::{Consumer, Producer};
use std::alloc::{AllocError, Global};

/// The ends that a worker has, in the order of the table. A worker keeps each end in its place: that is how `undo` finds
/// it again.
#[derive(Drop)]
pub struct Ends<T: Drop> {
    /// The ends to put into.
    pub outs: Vec<OutEnd<T>>,
    /// The ends to take from.
    pub ins: Vec<InEnd<T>>,
}

impl<T: Drop> Ends<T> {
    /// No ends.
    pub(crate) fn none(alloc: Global) -> Ends<T>
        ensures { tags_of result ≡ no_tags }
    {
        Ends {
            outs: Vec::new(alloc),
            ins: Vec::new(alloc),
        }
    }

    /// One end more to put into.
    pub(crate) fn give_out(&mut self, ring: usize, producer: Producer<T>) -> Result<(), AllocError>
        ensures { OnOk result (tags_of self.new ≡ with_out (tags_of self.old) (ring, out_name producer)) }
    {
        self.outs.push(OutEnd {
            ring,
            producer,
            refusals: 0,
        })?;
        Ok(())
    }

    /// One end more to take from.
    pub(crate) fn give_in(&mut self, ring: usize, consumer: Consumer<T>) -> Result<(), AllocError>
        ensures { OnOk result (tags_of self.new ≡ with_in (tags_of self.old) (ring, in_name consumer)) }
    {
        self.ins.push(InEnd { ring, consumer })?;
        Ok(())
    }

    /// Takes the last end to put into.
    pub(crate) fn take_out(&mut self) -> Option<OutEnd<T>>
        ensures tags { MatchOption result
            ((tags_of self.old).outs ≡ [])
            (λ end. tags_of self.old ≡ with_out (tags_of self.new) (out_tag end)) }
        ensures moved { IfSome result (λ end. flow_of self.old ≡ with_put (flow_of self.new) (sent end.producer)) }
    {
        self.outs.pop()
    }

    /// Takes the last end to take from.
    pub(crate) fn take_in(&mut self) -> Option<InEnd<T>>
        ensures tags { MatchOption result
            ((tags_of self.old).ins ≡ [])
            (λ end. tags_of self.old ≡ with_in (tags_of self.new) (in_tag end)) }
        ensures moved { IfSome result (λ end. flow_of self.old ≡ with_taken (flow_of self.new) (received end.consumer)) }
    {
        self.ins.pop()
    }

    /// Puts an item into the ring of the end at a place of `outs`. It gives the item back where the ring is full, which
    /// the end counts, or where there is no such end.
    #[tactic(auto, using(crate::proofs::Used::same_outs, crate::proofs::Used::same_sent, crate::proofs::Used::put_at, crate::proofs::Used::has_places))]
    pub fn put(&mut self, end: usize, item: T) -> Result<(), T>
        ensures tags { tags_of self.new ≡ tags_of self.old }
        ensures taken { taken_by self.new ≡ taken_by self.old }
        ensures put { MatchResult result
            (λ _. put_by self.new ≡ one_more (put_by self.old) end item)
            (λ back. (back ≡ item) × (put_by self.new ≡ put_by self.old)) }
        ensures within { OnOk result (end < vec_len self.old.outs) }
        ensures succeeds { 0 < slice_index_or (places_of self.old) end 0 → IsOk result }
    {
        match self.outs.get_mut(end) {
            Some(out) => out.put(item),
            None => Err(item),
        }
    }

    /// Takes the oldest item from the ring of an end.
    /// That is the end at this place of `ins`. Nothing is taken where there is no such end, or no item waits.
    #[tactic(auto, using(crate::proofs::Used::same_ins, crate::proofs::Used::same_received, crate::proofs::Used::pulled_at, crate::proofs::Used::has_items))]
    pub fn pull(&mut self, end: usize) -> Option<T>
        ensures tags { tags_of self.new ≡ tags_of self.old }
        ensures put { put_by self.new ≡ put_by self.old }
        ensures pulled { MatchOption result
            (taken_by self.new ≡ taken_by self.old)
            (λ item. taken_by self.new ≡ one_more (taken_by self.old) end item) }
        ensures within { OnSome result (end < vec_len self.old.ins) }
        ensures succeeds { 0 < slice_index_or (waiting_of self.old) end 0 → IsSome result }
    {
        match self.ins.get_mut(end) {
            Some(input) => input.pull(),
            None => None,
        }
    }
}
