//! An end to put into.

ghost use Rattle.std.specs.Prelude.{◌≡◌, ◌≢◌, ◌↔◌, ◌+◌, ◌<◌, ◌++◌, ◌∷◌, [], IsOk, IsTrue, MatchBool, MatchResult, OnErr};
ghost use Rattle.rtrb.specs.Ring.{sent, known_free};
ghost use Rattle.thread_rings.specs.Wired.{out_tag};

use rtrb::{Producer, PushError};

/// The end of a ring that one worker puts items into.
#[derive(Drop)]
pub struct OutEnd<T: Drop> {
    /// The number of the ring in the table.
    pub ring: usize,
    /// The end itself, which no other worker has.
    pub producer: Producer<T>,
    /// How often the ring was found full, in a number that wraps.
    pub refusals: u64,
}

impl<T: Drop> OutEnd<T> {
    /// Is there a place for one more item? If so it stays, since only this end fills places. If not, the ring is full
    /// for what this end knows, and that is counted: the other end may just have freed a place.
    pub fn has_place(&mut self) -> bool
        ensures tag { out_tag self.new ≡ out_tag self.old }
        ensures sent { sent self.new.producer ≡ sent self.old.producer }
        ensures place { IsTrue result ↔ (0 < known_free self.new.producer) }
        ensures counted { MatchBool result
            (self.new.refusals ≡ self.old.refusals)
            (self.new.refusals ≢ self.old.refusals) }
    {
        let is_full = self.producer.is_full();
        if is_full {
            self.refusals = self.refusals.wrapping_add(1);
        }
        !is_full
    }

    /// Puts an item behind the others, or gives it back.
    /// It gives it back where the ring is full, and counts that.
    pub fn put(&mut self, item: T) -> Result<(), T>
        ensures tag { out_tag self.new ≡ out_tag self.old }
        ensures put { MatchResult result
            (λ _. (sent self.new.producer ≡ sent self.old.producer ++ item ∷ [])
            × (self.new.refusals ≡ self.old.refusals))
            (λ back. (back ≡ item) × (sent self.new.producer ≡ sent self.old.producer)
            × (self.new.refusals ≢ self.old.refusals)) }

        // It gives an item back only where it knows of no place.
        ensures succeeds { 0 < known_free self.old.producer → IsOk result }
        ensures full { OnErr result (known_free self.new.producer ≡ 0) }
    {
        match self.producer.push(item) {
            Ok(()) => Ok(()),
            Err(PushError::Full(item)) => {
                self.refusals = self.refusals.wrapping_add(1);
                Err(item)
            }
        }
    }

    /// Puts an item behind the others, where `has_place` found a place for it.
    pub fn put_reserved(&mut self, item: T)
        requires { 0 < known_free self.old.producer }
        ensures tag { out_tag self.new ≡ out_tag self.old }
        ensures sent { sent self.new.producer ≡ sent self.old.producer ++ item ∷ [] }
        ensures places { known_free self.old.producer ≡ known_free self.new.producer + 1 }
        ensures counted { self.new.refusals ≡ self.old.refusals }
    {
        self.producer.push_reserved(item);
    }
}
