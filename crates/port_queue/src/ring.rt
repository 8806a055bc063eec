//! A queue of bounded length that has its room from the start.

ghost use Rattle.std.specs.Prelude.{◌≡◌, ◌<◌, [], ◌∷◌, ◌++◌, IfOk, length, map, slice_get, option_copied};
ghost use Rattle.std.specs.Option.{option_to_list};

use crate::anew::{begin_anew, push_oldest};
use fab_types::NoMemory;
use std::alloc::Global;
use std::collections::VecDeque;
use std::marker::Model;

/// At most `CAP` items from the oldest to the newest. Their room is reserved when the ring is made, and memory that no item
/// has reached is not touched. A ring that runs empty begins at its first place again.
#[derive(Drop)]
pub struct Ring<T, const CAP: usize> {
    items: VecDeque<T>,

    /// May the oldest item have another place than the first?
    is_ahead: bool,
}

impl<T, const CAP: usize> Model for Ring<T, CAP> {
    ghost use Rattle.std.specs.Prelude.{List};
    ghost use Rattle.port_queue.specs.Room.{IsRoomy};

    ghost Value = { List T };

    ghost view = { λ r. r.items.items };

    ghost invariant = { λ r. IsRoomy CAP r.items };
}

impl<T, const CAP: usize> Ring<T, CAP> {
    /// An empty queue with room for `CAP` items. It answers `NoMemory` where memory was refused.
    pub fn new(alloc: Global) -> Result<Self, NoMemory>
        ensures { IfOk result (λ ring. ring ≡ []) }
    {
        Ok(Ring {
            items: VecDeque::with_capacity(alloc, CAP)?,
            is_ahead: false,
        })
    }

    /// How many items wait.
    pub fn len(&self) -> usize
        ensures { result ≡ length self.now }
    {
        self.items.len()
    }

    /// The oldest item.
    pub fn front(&self) -> Option<&T>
        ensures { option_copied result ≡ slice_get self.now 0 }
    {
        self.items.front()
    }

    /// The items, in the queue that keeps them.
    pub(crate) fn deque(&self) -> &VecDeque<T>
        ensures { result.now.items ≡ self.now }
    {
        &self.items
    }

    /// All items, the oldest first.
    pub fn all(&self, alloc: Global) -> Result<Vec<&T>, NoMemory>
        ensures { IfOk result (λ all. map (λ item. item.now) all.items ≡ self.now) }
    {
        Ok(self.items.iter().collect(alloc)?)
    }

    /// Puts an item behind the others, of which there are fewer than `CAP`.
    pub fn push_back(&mut self, item: T)
        requires { length self.old < CAP }
        ensures { self.new ≡ self.old ++ item ∷ [] }
    {
        self.items.push_back_reserved(item);
    }

    /// Puts an item before the oldest.
    pub fn push_front(&mut self, item: T)
        requires { length self.old < CAP }
        ensures { self.new ≡ item ∷ self.old }
    {
        push_oldest(&mut self.items, item);
    }

    /// Takes the oldest item.
    pub fn pop_front(&mut self) -> Option<T>
        ensures items { self.old ≡ option_to_list result ++ self.new }
        ensures value { result ≡ slice_get self.old 0 }
    {
        if self.items.len() == 1 {
            return self.pop_last();
        }
        self.is_ahead = true;
        self.items.pop_front()
    }

    /// Takes the only item from the back, which leaves the start where it is.
    fn pop_last(&mut self) -> Option<T>
        requires { length self.old ≡ 1 }
        ensures items { self.old ≡ option_to_list result ++ self.new }
        ensures value { result ≡ slice_get self.old 0 }
    {
        let item = self.items.pop_back();
        if self.is_ahead {
            begin_anew(&mut self.items);
            self.is_ahead = false;
        }
        item
    }
}
