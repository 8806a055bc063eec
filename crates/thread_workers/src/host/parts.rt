//! What the host's worker leaves.

use crate::host::domain_host::DomainHost;
use crate::link_side::LinkSide;
use frame_log::Frame;

/// All that was the host's own while its worker ran. What is still in it was made, and ended nowhere.
#[derive(Drop)]
pub struct HostParts {
    /// Of each host its outbox, and the worker's ends of its injector's rings.
    /// The outbox has what the host emitted and the link didn't take.
    pub hosts: Vec<DomainHost>,
    /// What waits to be sent, and what came and wasn't taken.
    pub side: LinkSide,
    /// The packets that nobody had a case for.
    pub strays: Vec<Frame>,
}
