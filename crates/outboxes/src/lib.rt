//! What functions and domains' hosts have emitted and no link has taken yet: an outbox of each, in which the packets of
//! each class wait; and an index by which what belongs to a function or a host is found.
#![tactic(auto)]

mod changes;
mod indexing;
mod origin_box;
mod origin_index;
mod outboxes;
mod starts;

pub use origin_box::OriginBox;
pub use origin_index::OriginIndex;
pub use outboxes::Outboxes;
