//! Who takes a packet at a place.

ghost use Rattle.std.specs.Prelude.{◌≡◌};
ghost use Rattle.request_handling.specs.Takers.{is_at_port, takes};

use crate::domain::Domain;
use fab_types::Place;
use request_handling::{Taker, taker_of};

impl Domain {
    /// May an entry of this domain name this place for an alien packet?
    /// The entry says that the packet was taken there. It may name the host, a function of the domain, and any
    /// port.
    pub fn takes(&self, place: Place) -> bool
        ensures { result ≡ takes self.now.share place }
    {
        taker_of(&self.start, place).is_some()
    }

    /// Does a port take what waits at this place?
    /// Then neither the host nor a function of the domain does.
    pub fn is_at_port(&self, place: Place) -> bool
        ensures { result ≡ is_at_port self.now.share place }
    {
        match taker_of(&self.start, place) {
            Some(Taker::Port(_)) => true,
            Some(Taker::Upstream) => true,
            Some(Taker::Host) => false,
            Some(Taker::Function(_)) => false,
            None => false,
        }
    }
}
