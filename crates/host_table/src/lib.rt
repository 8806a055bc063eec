//! The translation table of a domain's host: what each page of a requester is mapped to.
#![tactic(auto)]

mod groups;
mod index;
mod law;
mod table;
mod target;

pub use groups::Group;
pub use law::lookup_is_membership;
pub use table::HostTable;
pub use target::Target;
