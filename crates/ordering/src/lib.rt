//! The ordering rules of packets (PCIe 4.0, 2.4.1): which class may pass which, and what of a queue may leave it.
#![tactic(auto)]

mod eligibility;
mod law;
mod pass_table;

pub use eligibility::eligible;
pub use law::takes_the_eligible;
pub use pass_table::may_pass;
