//! What the workers of a layout's fabric do in their threads: those of the ports of switches, of the functions and of
//! the host, each with its side of a link.
#![tactic(auto)]

mod ends;
mod functions;
mod host;
mod link_side;
mod ports;

pub use ends::{TakenBy, keep_stray};
pub use functions::{FunctionParts, FunctionWork};
pub use host::{DomainHost, FrameOwners, HostParts, HostWork};
pub use link_side::LinkSide;
pub use ports::{PortParts, PortWork};
