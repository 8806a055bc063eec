//! What a switch lets out: packets that passed the tests of a port, and the lanes that take them.
#![tactic(auto)]

mod egress;
mod lane_out;
mod simplex;
mod vetted_frame;

pub use lane_out::LaneOut;
pub use vetted_frame::VettedFrame;
