//! What a function's worker leaves.

use crate::link_side::LinkSide;
use fab_types::Bdf;
use frame_log::Frame;
use injector::{BeginRing, RecordRing};
use outboxes::OriginBox;

/// All that was a function's own while its worker ran. What is still in it was made, and ended nowhere.
#[derive(Drop)]
pub struct FunctionParts {
    /// Which function it was.
    pub function: Bdf,
    /// What the function emitted, and its link didn't take.
    pub outbox: OriginBox,
    /// What waits to be sent, and what came and wasn't taken.
    pub side: LinkSide,
    /// The packets that nobody had a case for.
    pub strays: Vec<Frame>,
    /// The worker's end of the ring of begins.
    /// It tells how many were accepted and refused, and whether one is held.
    pub begins: BeginRing,
    /// The worker's end of the ring of records.
    pub records: RecordRing,
}
