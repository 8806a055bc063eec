//! A domain (a tenant): its memory, its journal, and what it has in flight.
#![tactic(auto)]

mod alien;
mod begin;
mod conclude;
mod consume;
mod copies;
mod deliver;
mod domain;
mod entry;
mod laws;
mod mmio;
mod receive;
mod reception;
mod replay;
mod same;
mod state;
mod submit;
mod taker;
mod tick;

pub use consume::EntryFault;
pub use copies::copied;
pub use deliver::Record;
pub use domain::Domain;
pub use domain_state::Counts;
pub use entry::Entry;
pub use function::{OpenTag, OpenTags, TagUse};
pub use laws::{
    begins_bound_what_is_emitted, emissions_are_consumed_once, equal_journals_leave_equal_states,
    guarded_journals_have_no_alien_entry, order_is_kept_entry_by_entry,
    packets_in_order_left_one_outbox, ports_answer_by_completions,
    sent_packets_are_those_in_flight,
};
