//! The groups in which Linux puts devices of a layout that it doesn't take for isolated from one another.
#![tactic(auto)]

mod group;
mod member;

pub use group::group_of;
pub use member::{Member, have_common_group, members_of};
