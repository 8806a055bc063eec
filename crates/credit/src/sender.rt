//! The sending side of a link.

ghost use Rattle.std.specs.Prelude.{◌≡◌, ◌↔◌, ℕ, ◌+◌, ◌≤◌, ◌<◌, true, false, IsTrue};
ghost use Rattle.std.specs.Bool.{OnTrue, OnFalse};
ghost use Rattle.credit.specs.Counter.{distance};
ghost use Rattle.credit.specs.Kinds.{Kind};
ghost use Rattle.credit.specs.Limits.{Ledger, at, counted, left_counters, zero_counters, MayStart, IsInRange, HasRoom, IsUpdate};
ghost use Rattle.credit.specs.Totals.{Count, StandsFor, IsAllowed, PassesGate, with_cost};

use crate::counter::Counter;
use crate::counters::{Counters, Credits, Limits};
use fab_types::Cost;
use std::marker::Model;

/// What a sender counts of one direction of a link, in credits.
/// It counts those that it consumed, the limit that was last advertised to it, and the limit at the start. Between the
/// limit and what was sent there are never more credits than at the start, so no counter is ever misread.
#[derive(Clone, Copy, Debug, PartialEq, Eq)]
pub struct Sender {
    credits_consumed: Counters,
    credit_limit: Limits,
    start: Limits,
}

impl Model for Sender {
    ghost use Rattle.credit.specs.Limits.{Ledger, IsInRange};

    ghost Value = { Ledger };

    ghost view = { λ s. record { credits_consumed = s.credits_consumed; credit_limit = s.credit_limit; start = s.start } };

    ghost invariant = { λ s. IsInRange (record { credits_consumed = s.credits_consumed; credit_limit = s.credit_limit; start = s.start }) };

    ghost inverse = { λ s. record { credits_consumed = s.credits_consumed; credit_limit = s.credit_limit; start = s.start } };
}

impl Sender {
    /// A sender that sent nothing yet.
    /// It knows the limits that its receiver advertises at the start, in credits: headers at most 127, data at
    /// most 2,047.
    pub fn new(limits: Limits) -> Sender
        requires { MayStart limits }
        ensures exact { result ≡ record { credits_consumed = zero_counters; credit_limit = limits; start = limits } }
        ensures totals { StandsFor (λ _. 0) (at limits) result }
    {
        let start = limits;
        Sender {
            credits_consumed: Counters::zero(),
            credit_limit: limits,
            start,
        }
    }

    /// May a packet of this cost be sent?
    pub fn room(&self, cost: Cost) -> bool
        ensures exact { IsTrue result ↔ HasRoom self.now cost }

        // Whatever totals the counters stand for, the answer is theirs.
        ensures totals { (sent limit : Kind → ℕ) → StandsFor sent limit self.now → (IsTrue result ↔ IsAllowed sent limit cost) }

        // It is the standard's own test: no cost reaches half of a counter.
        ensures gate { (sent limit : Kind → ℕ) → StandsFor sent limit self.now → (IsTrue result ↔ PassesGate self.now cost) }
    {
        covers(
            self.credits_consumed.of(cost.class),
            self.credit_limit.of(cost.class),
            cost.data.get(),
        )
    }

    /// Consumes the credits of a packet that is sent.
    pub fn spend(&mut self, cost: Cost)
        requires { HasRoom self.old cost }
        ensures exact { self.new ≡ record self.old { credits_consumed = counted self.old.credits_consumed cost } }
        ensures totals { (sent limit : Kind → ℕ) → StandsFor sent limit self.old → StandsFor (with_cost sent cost) limit self.new }
    {
        self.credits_consumed = self.credits_consumed.plus(cost);
    }

    /// Takes the limits that the receiver advertises, if they can be its limits.
    /// They can be where for each kind they are no less than before, and no more beyond what was sent than at
    /// the start. It answers whether they can; if not, nothing changes.
    pub fn update(&mut self, limits: Limits) -> bool
        ensures exact { IsTrue result ↔ IsUpdate self.old limits }
        ensures accepted { OnTrue result (self.new ≡ record self.old { credit_limit = limits }) }
        ensures refused { OnFalse result (self.new ≡ self.old) }

        // Limits whose totals grew, and by no more than was sent, are taken.
        ensures totals { (sent limit advertised : Kind → ℕ) → StandsFor sent limit self.old → Count advertised limits →
            ((k : Kind) → (limit k ≤ advertised k) × (advertised k ≤ sent k + at self.old.start k)) →
            IsTrue result × StandsFor sent advertised self.new }
    {
        let advertised = limits;
        let accepted = self.accepts(advertised);
        if accepted {
            self.credit_limit = limits;
        }
        accepted
    }

    fn accepts(&self, limits: Limits) -> bool
        ensures { IsTrue result ↔ IsUpdate self.now limits }
    {
        let posted = accepts_class(
            self.credits_consumed.posted,
            self.credit_limit.posted,
            self.start.posted,
            limits.posted,
        );
        let non_posted = accepts_class(
            self.credits_consumed.non_posted,
            self.credit_limit.non_posted,
            self.start.non_posted,
            limits.non_posted,
        );
        let completion = accepts_class(
            self.credits_consumed.completion,
            self.credit_limit.completion,
            self.start.completion,
            limits.completion,
        );
        posted & non_posted & completion
    }

    /// The credits that are left.
    pub fn left(&self) -> Counters
        ensures { result ≡ left_counters self.now.credits_consumed self.now.credit_limit }
    {
        let (consumed, limit) = (self.credits_consumed, self.credit_limit);
        Counters {
            posted: consumed.posted.left_to(limit.posted),
            non_posted: consumed.non_posted.left_to(limit.non_posted),
            completion: consumed.completion.left_to(limit.completion),
        }
    }

    /// The counters of what was sent.
    pub fn credits_consumed(&self) -> Counters
        ensures value { result ≡ self.now.credits_consumed }
        ensures in_range { IsInRange self.now }
    {
        self.credits_consumed // by all packets so far
    }

    /// The limits that the sender knows.
    pub fn credit_limit(&self) -> Limits
        ensures value { result ≡ self.now.credit_limit }
        ensures in_range { IsInRange self.now }
    {
        self.credit_limit // of the last UpdateFC
    }
}

/// Is a header and so much payload left?
fn covers(sent: Credits, limit: Credits, payload: u16) -> bool
    ensures { IsTrue result ↔ (1 ≤ distance 256 sent.headers limit.headers) × (payload ≤ distance 4096 sent.payload limit.payload) }
{
    1 <= sent.headers.distance_to(limit.headers)
        && payload <= sent.payload.distance_to(limit.payload)
}

/// Can `advertised` be the new limit of a counter, and does it leave what the old one left?
fn accepts_counter<const SIZE: u16>(
    sent: Counter<SIZE>,
    limit: Counter<SIZE>,
    start: Counter<SIZE>,
    advertised: Counter<SIZE>,
) -> bool
    ensures { IsTrue result ↔ (distance SIZE sent.entry limit.entry ≤ distance SIZE sent.entry advertised.entry) × (distance SIZE sent.entry advertised.entry ≤ start.entry) }
{
    let distance = sent.distance_to(advertised);
    sent.distance_to(limit) <= distance && distance <= start.value()
}

/// The same of both counters of a class.
fn accepts_class(sent: Credits, limit: Credits, start: Credits, advertised: Credits) -> bool
    ensures { IsTrue result ↔
        (distance 256 sent.headers limit.headers ≤ distance 256 sent.headers advertised.headers) ×
        (distance 256 sent.headers advertised.headers ≤ start.headers) ×
        (distance 4096 sent.payload limit.payload ≤ distance 4096 sent.payload advertised.payload) ×
        (distance 4096 sent.payload advertised.payload ≤ start.payload) }
{
    accepts_counter(
        sent.headers,
        limit.headers,
        start.headers,
        advertised.headers,
    ) && accepts_counter(
        sent.payload,
        limit.payload,
        start.payload,
        advertised.payload,
    )
}
