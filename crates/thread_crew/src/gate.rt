//! What is asked before each turn.

use crate::worker_id::WorkerId;

/// What lets workers make their turns. All workers ask the same gate, each from its own thread.
pub trait Gate {
    /// May this worker make its turn of this number? Turns are counted from 0, skipped ones too. The gate may keep the
    /// worker waiting before it answers, but has to answer in the end. False skips the turn, which counts as one.
    fn before(&self, worker: WorkerId, turn: u32) -> bool;
}
