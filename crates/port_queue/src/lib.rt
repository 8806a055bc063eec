//! Queues of packets in three classes (PCIe 4.0, 2.4.1), of which the eligible head of each class may leave.
//!
//! A contract sees a queue as one list in arrival order, `waiting`, of classes and items. `put` appends to
//! it; `head` and `take` give what `take_one` of the crate `ordering` gives of that list, and what is left;
//! `put_back`, right after its `take`, makes the list what it was. [`PortQueue`] holds a bounded number of
//! each class, and [`Outbox`] takes a counted number of each class in all. Both reserve room when they are
//! made, so that no put takes memory. The items may be of any type that can be dropped.
//!
//! `put`, `head`, `take` and `put_back` look at the ends of two class queues at most, and move one item.
#![tactic(auto)]

mod anew;
mod bounded;
mod eligible_classes;
mod entry;
mod items;
mod per_class;
mod reserved;
mod ring;

pub use bounded::PortQueue;
pub use eligible_classes::EligibleClasses;
#[doc(hidden)]
pub use entry::{Entry, Gap};
#[doc(hidden)]
pub use per_class::PerClass;
pub use reserved::Outbox;
#[doc(hidden)]
pub use ring::Ring;
