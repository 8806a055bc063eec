//! What an audit finds.

ghost use Rattle.std.specs.Prelude.{◌≡◌};
ghost use Rattle.attacks.specs.Findings.{has_witness};

use crate::attack::Harm;
use fab_types::{Bdf, Control, DomainId, PacketBytes, PortId};

/// A packet that was seen to harm a domain, and what let it pass.
/// It was submitted in a fresh fabric, and nothing else was begun there but the read of the harm, if that has one. A control
/// that is clear let it pass.
#[derive(Drop)]
pub struct Witness {
    /// The domain that harms: its function submitted the packet, or it answered it.
    pub attacker: DomainId,
    /// The domain that is harmed.
    pub victim: DomainId,
    /// What it harmed, and how.
    pub harm: Harm,
    /// The function that submitted it.
    pub function: Bdf,
    /// The port that would have stopped it.
    pub port: PortId,
    /// The control by which that port would have stopped it, which is clear.
    pub control: Control,
    /// The bytes of the packet.
    pub bytes: PacketBytes,
}

/// What one domain was seen to do to another.
#[derive(Drop)]
pub struct Pair {
    /// The domain that harms.
    pub attacker: DomainId,
    /// The domain that is harmed.
    pub victim: DomainId,
    /// One witness for each way of harm for which one was found, the worst first.
    pub witnesses: Vec<Witness>,
}

impl Pair {
    /// Was the one domain seen to harm the other?
    pub fn has_witness(&self) -> bool
        ensures { result ≡ has_witness self.now }
    {
        !self.witnesses.is_empty()
    }
}

/// What an audit finds.
#[derive(Drop)]
pub enum Findings {
    /// Fewer than two domains own a function.
    NothingToKeep,
    /// The layout is guarded: no domain can tell the others from none.
    Guarded,
    /// It isn't: what was found for each two domains, in either order.
    Unguarded(Vec<Pair>),
}
