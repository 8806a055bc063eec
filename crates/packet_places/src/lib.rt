//! Where the packets of a domain stand in a fabric: in which outbox, queue or on which wire.
#![tactic(auto)]

mod all_packet_places;
mod notes;
mod of_domain;
mod standing;

pub use of_domain::packet_places_of;
