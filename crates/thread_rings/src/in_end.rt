//! An end to take from.

ghost use Rattle.std.specs.Prelude.{◌≡◌, ◌↔◌, ◌<◌, ◌++◌, ◌∷◌, [], IsSome, IsTrue, MatchOption, length};
ghost use mathlib.Core.List.{IsPrefix};
ghost use Rattle.rtrb.specs.Ring.{received, known_items};
ghost use Rattle.thread_rings.specs.Wired.{in_tag};

use rtrb::Consumer;

/// The end of a ring that one worker takes items from.
#[derive(Drop)]
pub struct InEnd<T: Drop> {
    /// The number of the ring in the table.
    pub ring: usize,
    /// The end itself, which no other worker has.
    pub consumer: Consumer<T>,
}

impl<T: Drop> InEnd<T> {
    /// Does an item wait? If so it stays, since only this end takes items. If not, the ring is empty for what this end
    /// knows: the other end may just have put an item in.
    pub fn has_item(&mut self) -> bool
        ensures tag { in_tag self.new ≡ in_tag self.old }
        ensures received { received self.new.consumer ≡ received self.old.consumer }
        ensures item { IsTrue result ↔ (0 < length (known_items self.new.consumer)) }
    {
        !self.consumer.is_empty()
    }

    /// The oldest item, which stays in the ring, where `has_item` found one.
    pub fn front(&self) -> &T
        requires { 0 < length (known_items self.now.consumer) }
        ensures { IsPrefix (result.now ∷ []) (known_items self.now.consumer) }
    {
        self.consumer.peek_known()
    }

    /// Takes the oldest item, where `has_item` found one: it is the one that `front` lends.
    pub fn take_known(&mut self) -> T
        requires { 0 < length (known_items self.old.consumer) }
        ensures tag { in_tag self.new ≡ in_tag self.old }
        ensures received { received self.new.consumer ≡ received self.old.consumer ++ result ∷ [] }
        ensures oldest { known_items self.old.consumer ≡ result ∷ known_items self.new.consumer }
    {
        self.consumer.pop_known()
    }

    /// Takes the oldest item, if one waits.
    pub fn pull(&mut self) -> Option<T>
        ensures tag { in_tag self.new ≡ in_tag self.old }
        ensures pulled { MatchOption result
            ((received self.new.consumer ≡ received self.old.consumer) × (known_items self.new.consumer ≡ []))
            (λ item. received self.new.consumer ≡ received self.old.consumer ++ item ∷ []) }
        ensures succeeds { 0 < length (known_items self.old.consumer) → IsSome result }
    {
        self.consumer.pop().ok()
    }
}
