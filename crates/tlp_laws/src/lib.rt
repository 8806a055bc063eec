//! Laws of packets: what is malformed by which cause, and which bytes of a write are its runs.
#![tactic(auto)]

mod laws;

pub use laws::{malformed_by_the_least_cause, runs_are_the_enabled_bytes, runs_do_not_touch};
