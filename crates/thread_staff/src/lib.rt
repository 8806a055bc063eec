//! The workers of the fabric of a layout, before they have the ends of their rings: made, and taken apart.
#![tactic(auto)]

mod function_job;
mod host_job;
mod job;
mod port_job;
mod post;
mod remains;
mod shared;
mod shares;
mod sides;
mod staff;
mod staffing;

pub use job::Job;
pub use post::Post;
pub use remains::{AllRemains, Parts, PortRemains, Remains, remains_of};
pub use shared::Shared;
pub use shares::starts_of;
pub use staff::Staff;
pub use staffing::staff_of;
