//! A queue of items that come in a counted number.

ghost use Rattle.std.specs.Prelude.{◌≡◌, ◌==◌, ◌<◌, ◌≤◌, ◌+◌, ◌^◌, [], ◌∷◌, ◌++◌, IsTrue, ◌↔◌, IsSome, IfSome, IfOk, OnOk, OnErr, MatchOption, Some, None, is_some, map, option_copied, length, slice_get, alloc_error};
ghost use Rattle.std.specs.List.Sorted.{IsPermutation};
ghost use Rattle.std.specs.Bool.{OnFalse};
ghost use Rattle.std.specs.VecDeque.{deque_capacity};
ghost use Rattle.fab_types.specs.declared.class.Class.{Class};
ghost use Rattle.fab_types.specs.declared.class.Class.TheVariants.{Posted};
ghost use Rattle.port_queue.specs.EligibleClasses.{has};
ghost use Rattle.port_queue.specs.PerClass.{at_class, with_class};
ghost use Rattle.port_queue.specs.Arrivals.{may_leave};
ghost use Rattle.port_queue.specs.Queue.{Queue, taken_of, head_of, restored};
ghost use Rattle.port_queue.specs.Outgoing.{Outgoing, entries_of};

use crate::anew::{pop_oldest, push_oldest};
use crate::eligible_classes::EligibleClasses;
use crate::entry::{Entry, Gap};
use crate::items::items_of;
use crate::per_class::{PerClass, may_leave_beside};
use fab_types::{Class, NoMemory};
use std::alloc::Global;
use std::collections::VecDeque;
use std::marker::Model;

/// No memory holds more entries of a class than this.
const MOST: usize = 1 << 62;

/// Room of a class beyond the places that are there at first. The memory of places that were never taken costs nothing till
/// it has to move, so that places are added without a move as long as there is such room.
const SPARE: usize = 64;

/// A queue that takes a counted number of items of each class in all.
/// It reserves room for them when it is made, so that no put takes memory.
#[derive(Drop)]
pub struct Outbox<T> {
    queues: PerClass<VecDeque<Entry<T>>>,
    puts: PerClass<usize>,
    places: usize,
    gap: Option<Gap>,
}

impl<T> Model for Outbox<T> {
    ghost use Rattle.port_queue.specs.Outgoing.{Outgoing, entries_of, IsReserved};
    ghost use Rattle.port_queue.specs.Arrivals.{queue_of};

    ghost Value = { Outgoing T };

    ghost view = { λ o. record { queue = queue_of (entries_of o.queues) o.gap; puts = o.puts; places = o.places } };

    ghost invariant = { λ o. IsReserved o.queues o.puts o.places o.gap };
}

fn is_eligible<T>(queues: &PerClass<VecDeque<Entry<T>>>, class: Class) -> bool
    ensures { result ≡ may_leave (slice_get (entries_of queues.now class) 0) (slice_get (entries_of queues.now Posted) 0) }
{
    may_leave_beside(queues.get(class).front(), queues.posted.front())
}

impl<T: Drop> Outbox<T> {
    /// An empty queue that takes `places` items of each class in all.
    pub fn new(alloc: Global, places: usize) -> Result<Self, NoMemory>
        ensures { IfOk result (λ o. o ≡ record {
          queue = record { waiting = []; gap = None };
          puts = record { posted = 0; non_posted = 0; completion = 0 };
          places = places;
        }) }
    {
        if places >= MOST {
            return Err(NoMemory);
        }
        Ok(Outbox {
            queues: PerClass {
                posted: VecDeque::with_capacity(alloc, places + SPARE)?,
                non_posted: VecDeque::with_capacity(alloc, places + SPARE)?,
                completion: VecDeque::with_capacity(alloc, places + SPARE)?,
            },
            puts: PerClass {
                posted: 0,
                non_posted: 0,
                completion: 0,
            },
            places,
            gap: None,
        })
    }

    /// Were `places` items of the class put in all?
    pub fn is_full(&self, class: Class) -> bool
        ensures exact { IsTrue result ↔ (at_class self.now.puts class ≡ self.now.places) }
        ensures room { OnFalse result (at_class self.now.puts class < self.now.places) }
    {
        *self.puts.get(class) == self.places
    }

    /// How many items wait.
    pub fn len(&self) -> usize
        ensures { result ≡ length self.now.queue.waiting }
    {
        self.queues.posted.len() + self.queues.non_posted.len() + self.queues.completion.len()
    }

    /// Does nothing wait?
    pub fn is_empty(&self) -> bool
        ensures { result ≡ (length self.now.queue.waiting == 0) }
    {
        self.len() == 0
    }

    /// All that waits, in no order that a caller may rely on.
    pub fn all(&self, alloc: Global) -> Result<Vec<&T>, NoMemory>
        ensures { IfOk result (λ all. IsPermutation (map (λ item. item.now) all.items) (map (λ w. w.1) self.now.queue.waiting)) }
    {
        let queues = &self.queues;
        Ok(items_of(
            alloc,
            &queues.posted,
            &queues.non_posted,
            &queues.completion,
        )?)
    }

    /// Of which classes an item may leave.
    /// That is the oldest of the class, unless an older posted one waits that it may not pass.
    pub fn eligible_classes(&self) -> EligibleClasses
        ensures { (class : Class) → has result class ≡ is_some (head_of class self.now.queue.waiting) }
    {
        EligibleClasses::of(
            self.head(Class::Posted).is_some(),
            self.head(Class::NonPosted).is_some(),
            self.head(Class::Completion).is_some(),
        )
    }

    /// The eligible item of the class.
    /// That is its oldest, unless an older posted one waits that it may not pass.
    pub fn head(&self, class: Class) -> Option<&T>
        ensures { option_copied result ≡ head_of class self.now.queue.waiting }
    {
        if !is_eligible(&self.queues, class) {
            return None;
        }
        match self.queues.get(class).front() {
            Some(entry) => Some(&entry.item),
            None => None,
        }
    }

    /// Puts an item behind the others. Of its class fewer than `places` were put.
    pub fn put(&mut self, class: Class, item: T)
        requires { at_class self.old.puts class < self.old.places }
        ensures { self.new ≡ record {
          queue = record { waiting = self.old.queue.waiting ++ (class, item) ∷ []; gap = None };
          puts = with_class self.old.puts class (at_class self.old.puts class + 1);
          places = self.old.places;
        } }
    {
        let number = self.puts.posted + self.puts.non_posted + self.puts.completion;
        let puts = *self.puts.get(class) + 1;
        *self.puts.get_mut(class) = puts;
        self.gap = None;
        self.queues.get_mut(class).push_back_reserved(Entry {
            number: number as u64,
            item,
        });
    }

    /// Takes the eligible item of the class.
    pub fn take(&mut self, class: Class) -> Option<T>
        ensures taken { MatchOption result ((taken_of class self.old.queue.waiting ≡ None) × (self.new ≡ self.old))
            (λ item. taken_of class self.old.queue.waiting ≡ Some ((class, item), self.new.queue.waiting)) }
        ensures restores { IfSome result (λ item. restored self.new.queue class item ≡ Some self.old.queue.waiting) }
        ensures places { (self.new.puts ≡ self.old.puts) × (self.new.places ≡ self.old.places) }
    {
        if !is_eligible(&self.queues, class) {
            return None;
        }
        let Some(Entry { number, item }) = pop_oldest(self.queues.get_mut(class)) else {
            unreachable!();
        };
        self.gap = Some(Gap { class, number });
        Some(item)
    }

    /// Puts the item back that the last call took, to where it stood. It is not counted again.
    pub fn put_back(&mut self, class: Class, item: T)
        requires { IsSome (restored self.old.queue class item) }
        ensures waiting { restored self.old.queue class item ≡ Some self.new.queue.waiting }
        ensures gap { self.new.queue.gap ≡ None }
        ensures places { (self.new.puts ≡ self.old.puts) × (self.new.places ≡ self.old.places) }
    {
        let Some(gap) = self.gap else {
            unreachable!();
        };
        self.gap = None;
        let entry = Entry {
            number: gap.number,
            item,
        };
        push_oldest(self.queues.get_mut(class), entry);
    }

    /// Takes `n` items more of each class.
    pub fn more(&mut self, n: usize) -> Result<(), NoMemory>
        ensures ok { OnOk result (self.new ≡ record self.old { places = self.old.places + n }) }
        ensures err { OnErr result (self.new ≡ self.old) }
    {
        if n >= MOST - self.places {
            return Err(NoMemory);
        }
        let places = self.places + n;
        self.queues
            .posted
            .reserve(places - self.queues.posted.len())?;
        self.queues
            .non_posted
            .reserve(places - self.queues.non_posted.len())?;
        self.queues
            .completion
            .reserve(places - self.queues.completion.len())?;
        self.places = places;
        Ok(())
    }
}
