//! Which functions and IDs are a domain's, where a function's page is, which port stands above it, and where that lets its requests
//! through to.

ghost use Rattle.std.specs.Prelude.{◌≡◌};
ghost use Rattle.platform.specs.Egress.{direct_to};
ghost use Rattle.platform.specs.Owners.{bar_of, first_port, is_own_function, owner_of};

use crate::egress::direct_to;
use crate::owners::{bar_of, is_function, owner_of};
use crate::parts::DownstreamPort;
use crate::start::Start;
use fab_types::{Bdf, DomainId};

impl Start {
    /// Is it a function of this domain?
    pub fn owns_function(&self, id: Bdf) -> bool
        ensures { result ≡ is_own_function self.now id }
    {
        let entry = self.bus(id.bus());
        // (as a rule it is the function that the bus leads to, so that none has to be looked for)
        entry.is_own && (entry.leads_to(id) || is_function(self.functions(), id))
    }

    /// The BAR of a function, if the layout has it (PCIe 4.0, 7.5.1.2.1).
    pub fn bar_of(&self, function: Bdf) -> Option<u32>
        ensures { result ≡ bar_of self.now.functions function }
    {
        match self.bus(function.bus()).bar_of(function) {
            Some(bar) => Some(bar),
            // (no function of a layout gets here)
            None => bar_of(self.functions(), function),
        }
    }

    /// The port directly above a function.
    pub fn first_port(&self, function: Bdf) -> Option<DownstreamPort>
        ensures { result ≡ first_port self.now.ports function }
    {
        self.bus(function.bus()).first_port
    }

    /// The function to which a request of this function goes directly, if any.
    /// A port above the sender lets the request for this address through to another port of its switch; the answer
    /// is the function below that (PCIe 4.0, 6.12.1.1).
    pub fn direct_to(&self, function: Bdf, address: u64) -> Option<Bdf>
        ensures { result ≡ direct_to self.now.ports function address }
    {
        if self.bus(function.bus()).controls_egress {
            direct_to(self.ports(), function, address)
        } else {
            None
        }
    }

    /// The domain that owns an ID, if any does.
    /// It is the domain whose host has the ID, if that owns a port, or the one that owns the ports above its
    /// bus.
    pub fn owner(&self, id: Bdf) -> Option<DomainId>
        ensures { result ≡ owner_of self.now.ports id }
    {
        // (on bus 0 the ID may be that of a host)
        if id.bus() == 0 {
            owner_of(self.ports(), id)
        } else {
            self.bus(id.bus()).owner
        }
    }
}
