//! Packets of the transaction layer (TLPs), read in place and written (PCIe 4.0, chapter 2).
#![tactic(auto)]

mod attributes;
mod bits;
mod cells;
mod completion;
mod enables;
mod faults;
mod kind;
mod laws;
mod read_packet;
mod request;
mod runs;
mod view;

pub use attributes::Attributes;
pub use completion::{CompletionHead, CplBuf};
pub use enables::Enables;
pub use kind::Kind;
pub use laws::{
    completion_spelled, read_request_spelled, runs_within, spelled_once, well_formed_sound,
    well_formed_spelled, write_request_spelled,
};
pub use read_packet::ReadPacket;
pub use request::{RequestBuf, RequestHead};
pub use runs::Runs;
pub use view::{TlpView, cost};
