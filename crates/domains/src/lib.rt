//! The domains of a fabric: which of them a begin or a packet belongs to, and what the one call on it makes of all; and
//! its agents, the domains with an outbox for what each of their functions and hosts emits.
#![tactic(auto)]

mod agents;
mod aliens;
mod begins;
mod desk;
mod domains;
mod ends;
mod indexing;
mod places;
mod starts;

pub use agents::Agents;
pub use domains::Domains;
pub use starts::domains_of;
