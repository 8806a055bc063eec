//! Begins that come into a fabric of threads from outside, and records that go out, by rings that make nobody wait.
#![tactic(auto)]

mod asks;
mod begin;
mod begin_ring;
mod injector;
mod record_ring;
mod serving;
mod settling;

pub use begin::{Ask, Begin, Numbered};
pub use begin_ring::BeginRing;
pub use injector::{Injector, RefusedAccess, WorkerEnds};
pub use record_ring::RecordRing;
pub use serving::serve;
pub use settling::{flush, settle};
