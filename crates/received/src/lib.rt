//! Who takes a packet at the host and at a function, by the packet's head and the layout.
#![tactic(auto)]

mod received;
mod receivers;

pub use received::{Received, is_relayed, received_at_function, received_at_host};
pub use receivers::{OwnsFrames, receiver_at_host};
