//! The memory of a domain's host: its frames of 4,096 bytes.
#![tactic(auto)]

mod addition;
mod memory;
mod page;

pub use memory::HostMemory;
