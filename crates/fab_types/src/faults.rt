//! Refusals: each has a number and a name, which reports print.

pub mod begin;
pub mod injector;
pub mod layout;
pub mod malformed;
pub mod memory;
pub mod replay;
pub mod running;
pub mod runs;
pub mod script;
