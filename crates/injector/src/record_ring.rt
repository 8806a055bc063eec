//! The worker's end of the ring that records go by.

ghost use Rattle.std.specs.Prelude.{◌≡◌, ◌++◌, ◌∷◌, [], IsSome, None, is_some};
ghost use Rattle.rtrb.specs.Ring.{known_free, SameProducer};

use domain::Record;
use rtrb::{Producer, PushError};
use std::marker::Model;

/// The records that go out, and the one that found no place.
/// The latter is there only where the ring was full. Only `settle` adds one. A contract sees a
/// `RecordRingView`.
#[derive(Drop)]
pub struct RecordRing {
    producer: Producer<Record>,
    held: Option<Record>,
}

impl Model for RecordRing {
    ghost use Rattle.injector.specs.Rings.{RecordRingView};

    ghost Value = { RecordRingView };

    ghost view = { λ ring. record { producer = ring.producer; held = ring.held } };
}

impl RecordRing {
    ghost use Rattle.injector.specs.Records.{given_out};

    pub(crate) fn new(producer: Producer<Record>) -> RecordRing
        ensures { result ≡ record { producer = producer; held = None } }
    {
        RecordRing {
            producer,
            held: None,
        }
    }

    /// Is a record held, since the ring was full?
    pub fn holds_record(&self) -> bool
        ensures { result ≡ is_some self.now.held }
    {
        self.held.is_some()
    }

    /// Puts a record into the ring, or holds it where the ring is full.
    pub(crate) fn add(&mut self, newest: Record)
        requires { self.old.held ≡ None }
        ensures ring { SameProducer self.old.producer self.new.producer }
        ensures added { given_out self.new ≡ given_out self.old ++ newest ∷ [] }
        ensures full { IsSome self.new.held → known_free self.new.producer ≡ 0 }
    {
        if let Err(PushError::Full(newest)) = self.producer.push(newest) {
            self.held = Some(newest);
        }
    }

    /// Puts the held record into the ring, if there is one and the ring has a place.
    pub(crate) fn retry(&mut self)
        ensures ring { SameProducer self.old.producer self.new.producer }
        ensures kept { given_out self.new ≡ given_out self.old }
        ensures full { IsSome self.new.held → known_free self.new.producer ≡ 0 }
    {
        if let Some(oldest) = self.held.take() {
            self.add(oldest);
        }
    }
}
