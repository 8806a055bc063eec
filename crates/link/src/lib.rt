//! One direction of a link (PCIe 4.0, 2.6): the queue at its sender, the wire, the queue at its receiver,
//! and the credits that keep the receiver from being overrun.
#![tactic(auto)]

mod egress;
mod ingress;
mod simplex;
mod steps;

pub use egress::Egress;
pub use ingress::Ingress;
pub use simplex::Simplex;
