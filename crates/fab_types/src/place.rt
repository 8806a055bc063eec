//! Places in which packets wait.

use crate::id::Bdf;
use crate::origin::Origin;

/// Which way packets go on a link: toward the host, or away from it.
#[derive(Clone, Copy, Debug, PartialEq, Eq, PartialOrd, Ord, Hash)]
pub enum Way {
    /// Toward the host.
    Up,
    /// Away from the host.
    Down,
}

/// A direction of a link. The link is named by the ID at its lower end, a function or an upstream port.
#[derive(Clone, Copy, Debug, PartialEq, Eq, PartialOrd, Ord, Hash)]
pub struct Direction {
    /// The ID at the link's lower end: a function or an upstream port.
    pub lower: Bdf,
    /// Which way its packets go.
    pub way: Way,
}

/// A place in which packets wait.
#[derive(Clone, Copy, Debug, PartialEq, Eq, PartialOrd, Ord, Hash)]
pub enum Place {
    /// What a function or a domain's host has emitted.
    Outbox(Origin),
    /// The queue at the sender of a direction.
    Egress(Direction),
    /// What is on the link.
    Wire(Direction),
    /// The queue at the receiver of a direction.
    Ingress(Direction),
}
