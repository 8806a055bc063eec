//! All that packets move through: the links and switches of a layout, without the agents at their ends.
#![tactic(auto)]

mod credits;
mod ends;
mod interconnect;
mod misrouted;
mod node;
mod outputs;
mod pass;
mod start;
mod waits;

pub use credits::first_credits;
pub use interconnect::Interconnect;
pub use misrouted::Misrouted;
