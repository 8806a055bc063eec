//! The text that `lspci -xxx` or `lspci -xxxx` prints: a machine's devices with their configuration spaces.
#![tactic(auto)]

mod acs;
mod bars;
mod capabilities;
mod dump;
mod fault;
mod header;
mod lines;
mod read;
mod space;

pub use acs::Acs;
pub use bars::Bar;
pub use capabilities::PortType;
pub use dump::{Device, Dump, Passed};
pub use fault::{DumpCause, DumpFault};
pub use header::{BridgeBuses, HeaderKind, Window};
pub use lines::{DumpLine, Location, Row, dump_line_of, location_of, trimmed};
pub use space::ConfigSpace;
