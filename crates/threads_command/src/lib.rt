//! The command `threads`: the fabric of a layout on threads of its own, driven by a script.
#![tactic(auto)]

mod asking;
mod begins;
mod driving;
mod parts;
mod refusals;
mod report;

pub use driving::threads;
