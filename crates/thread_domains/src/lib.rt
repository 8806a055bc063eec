//! The domains of a fabric, each under a lock of its own, for threads that share them.
#![tactic(auto)]

mod aliens;
mod copies;
mod desk;
mod ends;
mod locks;

pub use desk::LockedDesk;
pub use locks::Locks;
