//! The names and numbers that all crates of the fabric share.
#![tactic(auto)]

mod class;
mod controls;
mod cost;
mod faults;
mod head;
mod host_access;
mod id;
mod origin;
mod outcome;
mod packet_bytes;
mod place;
mod status;
mod violation;

pub use class::Class;
pub use controls::{AcsControl, Control};
pub use cost::{Cost, DataCredits};
pub use faults::begin::{BeginFault, MmioFault, SubmitFault, TickFault};
pub use faults::injector::InjectorFault;
pub use faults::layout::{LayoutCause, LayoutFault};
pub use faults::malformed::Malformed;
pub use faults::memory::NoMemory;
pub use faults::replay::ReplayFault;
pub use faults::running::{StartFault, StopFault};
pub use faults::runs::{CompareFault, PlacesFault};
pub use faults::script::{ScriptCause, ScriptFault};
pub use head::{AddressType, Answerer, Head, Header, Parties};
pub use host_access::{HostAccess, Operation};
pub use id::{Bdf, DomainId, PortId};
pub use origin::{Origin, same_origin};
pub use outcome::Outcome;
pub use packet_bytes::PacketBytes;
pub use place::{Direction, Place, Way};
pub use status::Status;
pub use violation::{Check, Violation};
