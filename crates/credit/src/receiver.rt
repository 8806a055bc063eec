//! The receiving side of a link.

ghost use Rattle.std.specs.Prelude.{◌≡◌, ℕ};
ghost use Rattle.credit.specs.Kinds.{Kind};
ghost use Rattle.credit.specs.Limits.{Allotment, counted, uncounted, zero_counters};
ghost use Rattle.credit.specs.Totals.{Count, with_cost};

use crate::counters::{Counters, Limits};
use fab_types::Cost;
use std::marker::Model;

/// What a receiver counts of one direction of a link, in credits.
/// It counts those of the packets that it took, and the limit, which is the start and all that it freed.
#[derive(Clone, Copy, Debug, PartialEq, Eq)]
pub struct Receiver {
    credits_received: Counters,
    credits_allocated: Limits,
}

impl Model for Receiver {
    ghost use Rattle.credit.specs.Limits.{Allotment};

    ghost Value = { Allotment };

    ghost view = { λ r. record { credits_received = r.credits_received; credits_allocated = r.credits_allocated } };

    ghost inverse = { λ r. record { credits_received = r.credits_received; credits_allocated = r.credits_allocated } };
}

impl Receiver {
    /// A receiver that advertises these limits, and took nothing yet.
    pub fn new(limits: Limits) -> Receiver
        ensures { result ≡ record { credits_received = zero_counters; credits_allocated = limits } }
    {
        Receiver {
            credits_received: Counters::zero(),
            credits_allocated: limits,
        }
    }

    /// Counts a packet that came.
    pub fn take(&mut self, cost: Cost)
        ensures exact { self.new ≡ record self.old { credits_received = counted self.old.credits_received cost } }
        ensures totals { (taken : Kind → ℕ) → Count taken self.old.credits_received → Count (with_cost taken cost) self.new.credits_received }
    {
        self.credits_received = self.credits_received.plus(cost);
    }

    /// Gives the credits of a packet back.
    pub fn free(&mut self, cost: Cost)
        ensures exact { self.new ≡ record self.old { credits_allocated = counted self.old.credits_allocated cost } }
        ensures totals { (limit : Kind → ℕ) → Count limit self.old.credits_allocated → Count (with_cost limit cost) self.new.credits_allocated }
    {
        self.credits_allocated = self.credits_allocated.plus(cost);
    }

    /// Takes the credits of a packet back that were freed.
    /// They were advertised to no sender.
    pub fn reclaim(&mut self, cost: Cost)
        ensures exact { self.new ≡ record self.old { credits_allocated = uncounted self.old.credits_allocated cost } }
        ensures totals { (limit : Kind → ℕ) → Count (with_cost limit cost) self.old.credits_allocated → Count limit self.new.credits_allocated }
    {
        self.credits_allocated = self.credits_allocated.minus(cost);
    }

    /// The limits as they are now, for the sender.
    pub fn advert(&self) -> Limits
        ensures { result ≡ self.now.credits_allocated }
    {
        self.credits_allocated // as an UpdateFC carries them
    }

    /// The counters of what was taken.
    pub fn credits_received(&self) -> Counters
        ensures { result ≡ self.now.credits_received }
    {
        self.credits_received // of all packets so far
    }
}
