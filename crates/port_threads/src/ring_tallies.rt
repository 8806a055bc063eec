//! The rings of a table that came back.

ghost use Rattle.std.specs.Prelude.{◌≡◌, map, replicate, reverse, vec_len};
ghost use Rattle.thread_rings.specs.Moved.{flow_of, no_flow};
ghost use Rattle.thread_rings.specs.Returned.{all_tallied};

use std::snapshot::Snapshot;
use thread_rings::{Ends, RingTally};

/// All rings of one table of the plan, the last first.
/// It has of each what was put in and taken, and what was left.
#[derive(Drop)]
pub struct RingTallies<T: Drop> {
    /// What became of each ring, the last of the table first.
    pub rings: Vec<RingTally<T>>,
    /// The ends as the workers gave them back, for contracts alone. What each worker had put in and taken by each of its ends
    /// is what the rings tally to.
    pub ends: Snapshot<Vec<Ends<T>>>,
    pub ghost moved: { map flow_of ends.value.items ≡ all_tallied (replicate (vec_len ends.value) no_flow) (reverse rings.items) },
}
