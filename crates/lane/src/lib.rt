//! What a port is joined to: where it takes packets from, whom it asks to refuse one, and whom it tells of violations;
//! and queues of packets in memory.
#![tactic(auto)]

mod desk;
mod lane_in;
mod queue;
mod reporter;

pub use desk::Desk;
pub use lane_in::LaneIn;
pub use queue::FrameQueue;
pub use reporter::Reporter;
