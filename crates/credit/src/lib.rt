//! Flow control credits of one direction of a link (PCIe 4.0, 2.6.1), by modular counters alone.
//!
//! The [`Sender`] counts what it sent and keeps the limit that was advertised to it; the [`Receiver`] counts what
//! it took and what it freed, and advertises the limit. Contracts say what the counters stand for: totals
//! without bound, one for each of six kinds. The header counters hold 8 bits and the data counters 12.
#![tactic(auto)]

mod counter;
mod counters;
mod receiver;
mod sender;

pub use counter::Counter;
pub use counters::{Counters, Credits, DataCounter, HeaderCounter, Limits};
pub use receiver::Receiver;
pub use sender::Sender;
