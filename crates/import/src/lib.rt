//! A layout from the devices of a real machine, as `lspci` shows them.
#![tactic(auto)]

mod comments;
mod controls;
mod devices;
mod domains;
mod egress;
mod fault;
mod imports;
mod most;
mod names;
mod owners;
mod pages;
mod places;
mod reason;
mod refusals;
mod role;
mod statements;
mod telling;
mod tree;

pub use fault::ImportFault;
pub use imports::{Import, import_dump};
pub use owners::{Owner, owners_of};
pub use reason::{LeftOut, MachineId, Reason, Why};
