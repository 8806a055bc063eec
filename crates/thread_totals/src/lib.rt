//! What a fabric in threads left, counted: of each domain, how many packets it made, how many ended and how many stand
//! anywhere, and what became of the begins that came for it.
#![tactic(auto)]

mod count;
mod crossing;
mod packet_name;
mod ring_count;
mod rings;
mod standing;
mod totals;

pub use count::{Count, count_all};
pub use totals::Totals;
