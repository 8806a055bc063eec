//! What the worker of a port of a switch does in its thread.

mod collect;
mod forward;
mod misroute;
mod parts;
mod port_work;

pub use parts::PortParts;
pub use port_work::PortWork;
