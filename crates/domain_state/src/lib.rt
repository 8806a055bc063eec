//! What a domain's state is made of: memory, register pages and counts, and what the end of a packet does with them;
//! the packets in flight; the open Tags; and the requests of its host.
#![tactic(auto)]

mod counts;
mod effects;
mod flight;
mod host_requests;
mod registers;
mod same;
mod tags;

pub use counts::Counts;
pub use effects::Contents;
pub use flight::Flight;
pub use host_requests::{host_request, is_in_page, opened_for, register_address, size_of, tag_for};
pub use registers::{complete, first_registers, perform, planned, register_page};
pub use same::{same_access, same_bytes, same_parties, same_place};
pub use tags::{completes, tag_to_open};
