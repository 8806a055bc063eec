//! What the worker of the host does in its thread.

mod domain_host;
mod end_here;
mod enter_all;
mod flush_all;
mod frame_owners;
mod host_work;
mod hosts;
mod parts;
mod relay;
mod serve_all;

pub use domain_host::DomainHost;
pub use frame_owners::FrameOwners;
pub use host_work::HostWork;
pub use parts::HostParts;
