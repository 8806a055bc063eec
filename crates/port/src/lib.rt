//! A port of a switch: what becomes of a packet that came into it, and its turn, which moves one packet
//! between lanes of any kind.
#![tactic(auto)]

mod config;
mod course;
mod misroute;
mod port;
mod reports;
mod slots;
mod steps;
mod turn;

pub use config::Exit;
pub use course::Forwarding;
pub use misroute::Misroute;
pub use port::Port;
pub use reports::Reports;
pub use turn::TurnParts;
