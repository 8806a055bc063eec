//! What the host's worker has of one domain.

use injector::WorkerEnds;
use outboxes::OriginBox;

/// The outbox of a domain's host, and the ends of its injector's rings.
/// The outbox names the host, and has what it has emitted and the link hasn't taken yet. The ends are the
/// worker's.
#[derive(Drop)]
pub struct DomainHost {
    /// What the host emitted, and the link hasn't taken yet.
    pub outbox: OriginBox,
    /// The worker's ends of its injector's rings.
    pub ends: WorkerEnds,
}
