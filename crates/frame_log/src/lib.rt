//! A log of packets: who made each packet, under which number, and its bytes. What moves between ports
//! in place of the bytes is a `Frame`.
#![tactic(auto)]

mod entry;
mod fault;
mod frame;
mod log;
mod place;
mod row;
mod token;

pub use entry::TlpEntry;
pub use fault::FrameFault;
pub use frame::Frame;
pub use log::Log;
pub use token::Token;
