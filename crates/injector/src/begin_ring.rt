//! The worker's end of the ring that begins come by.

ghost use Rattle.std.specs.Prelude.{◌≡◌, ◌+◌, [], false, true, Some, None, IsSome, MatchOption, is_some};
ghost use Rattle.rtrb.specs.Ring.{received, known_items, SameConsumer};

use crate::begin::{Begin, Numbered};
use rtrb::Consumer;
use std::alloc::Global;
use std::marker::Model;

/// The begins that come in. Each that was taken out of the ring was accepted or refused, or is held. Only `serve` takes
/// any. A contract sees a `BeginRingView`.
#[derive(Drop)]
pub struct BeginRing {
    consumer: Consumer<Begin, Global, Numbered>,
    held: Option<Begin>,
    accepted: u64,
    refused: u64,
}

impl Model for BeginRing {
    ghost use Rattle.injector.specs.Rings.{BeginRingView};

    ghost Value = { BeginRingView };

    ghost use Rattle.injector.specs.Counted.{begin_ring_view, KeepsCount};

    ghost view = { begin_ring_view };

    ghost invariant = { KeepsCount };
}

impl BeginRing {
    ghost use Rattle.injector.specs.Begins.{IsNext};
    ghost use Rattle.injector.specs.Counted.{IsCounted};

    pub(crate) fn new(consumer: Consumer<Begin, Global, Numbered>) -> BeginRing
        requires { received consumer ≡ [] }
        ensures { result ≡ record { consumer = consumer; held = None; accepted = 0; refused = 0 } }
    {
        BeginRing {
            consumer,
            held: None,
            accepted: 0,
            refused: 0,
        }
    }

    /// How many begins the domain accepted.
    pub fn accepted(&self) -> u64
        ensures value { result ≡ self.now.accepted }
        ensures counted { IsCounted self.now }
    {
        self.accepted
    }

    /// How many begins the domain refused, for another cause than memory.
    pub fn refused(&self) -> u64
        ensures { result ≡ self.now.refused }
    {
        self.refused
    }

    /// Is a begin held, since memory was refused to it?
    pub fn holds_begin(&self) -> bool
        ensures { result ≡ is_some self.now.held }
    {
        self.held.is_some()
    }

    /// The begin that is held.
    pub(crate) fn held(&self) -> Option<&Begin>
        ensures { MatchOption result (self.now.held ≡ None) (λ begin. self.now.held ≡ Some begin.now) }
    {
        self.held.as_ref()
    }

    /// Holds the oldest begin of the ring, if none is held. Is one held then?
    pub(crate) fn fetch(&mut self) -> bool
        ensures ring { SameConsumer self.old.consumer self.new.consumer }
        ensures next { result ≡ true → (begin : Begin) × IsNext self.old.held (received self.old.consumer) (received self.new.consumer) begin × (self.new.held ≡ Some begin) }
        ensures none { result ≡ false → (self.old.held ≡ None) × (self.new.held ≡ None) × (received self.new.consumer ≡ received self.old.consumer) × (known_items self.new.consumer ≡ []) }
        ensures counts { (self.new.accepted ≡ self.old.accepted) × (self.new.refused ≡ self.old.refused) }
    {
        if self.holds_begin() {
            return true;
        }
        match self.consumer.pop() {
            Ok(begin) => {
                self.held = Some(begin);
                true
            }
            Err(_) => false,
        }
    }

    /// The held begin was accepted.
    pub(crate) fn accept(&mut self)
        requires { IsSome self.old.held }
        ensures ring { self.new.consumer ≡ self.old.consumer }
        ensures counts { (self.new.held ≡ None) × (self.new.accepted ≡ self.old.accepted + 1) × (self.new.refused ≡ self.old.refused) }
    {
        self.held = None;
        self.accepted += 1;
    }

    /// The held begin was refused.
    pub(crate) fn refuse(&mut self)
        requires { IsSome self.old.held }
        ensures ring { self.new.consumer ≡ self.old.consumer }
        ensures counts { (self.new.held ≡ None) × (self.new.accepted ≡ self.old.accepted) × (self.new.refused ≡ self.old.refused + 1) }
    {
        self.held = None;
        self.refused += 1;
    }
}
