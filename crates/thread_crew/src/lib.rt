//! Workers of any kind, each in a thread of its own, and what no turn of theirs changes.
#![tactic(auto)]

mod gate;
mod threads;
mod work;
mod worker_id;

pub use gate::Gate;
pub use threads::{end_all, join_all, join_one, run, start, start_one};
pub use work::{Keeps, Work};
pub use worker_id::WorkerId;
