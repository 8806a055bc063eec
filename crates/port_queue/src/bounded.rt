//! A queue of bounded length whose puts take no memory.

ghost use Rattle.std.specs.Prelude.{◌≡◌, ◌==◌, ◌<◌, ◌≤◌, ◌^◌, ◌-◌, [], ◌∷◌, ◌++◌, IsTrue, ◌↔◌, IfOk, IsSome, IfSome, MatchOption, Some, None, is_some, map, option_copied, length, slice_get, take};
ghost use Rattle.std.specs.List.Sorted.{IsPermutation};
ghost use Rattle.std.specs.Bool.{OnFalse};
ghost use Rattle.fab_types.specs.declared.class.Class.{Class};
ghost use Rattle.fab_types.specs.declared.class.Class.TheVariants.{Posted};
ghost use Rattle.port_queue.specs.PerClass.{at_class};
ghost use Rattle.port_queue.specs.Arrivals.{may_leave, AreClassQueues, IsLeast, number_or_last_of, waiting_of};
ghost use Rattle.port_queue.specs.Queue.{Queue, count_of, taken_of, head_of, restored};
ghost use Rattle.port_queue.specs.EligibleClasses.{has};
ghost use Rattle.port_queue.specs.Renumbering.{firsts_of, others_of};

use crate::eligible_classes::EligibleClasses;
use crate::entry::{Entry, Gap};
use crate::items::items_of;
use crate::per_class::{PerClass, may_leave_beside};
use crate::ring::Ring;
use fab_types::{Class, NoMemory};
use std::alloc::Global;
use std::marker::Model;

/// A queue of at most `CAP` items of each class.
/// It reserves room for them when it is made, so that no put takes memory.
#[derive(Drop)]
pub struct PortQueue<T, const CAP: usize> {
    queues: PerClass<Ring<Entry<T>, CAP>>,
    next: u64,
    gap: Option<Gap>,
}

impl<T, const CAP: usize> Model for PortQueue<T, CAP> {
    ghost use Rattle.port_queue.specs.Queue.{Queue};

    ghost Value = { Queue T };

    ghost use Rattle.port_queue.specs.PerClass.{at_class};
    ghost use Rattle.port_queue.specs.Arrivals.{queue_of, AreClassQueues};

    ghost view = { λ q. queue_of (at_class q.queues) q.gap };

    ghost invariant = { λ q. AreClassQueues CAP (at_class q.queues) q.next q.gap };
}

fn is_eligible<T, const CAP: usize>(queues: &PerClass<Ring<Entry<T>, CAP>>, class: Class) -> bool
    ensures { result ≡ may_leave (slice_get (at_class queues.now class) 0) (slice_get (at_class queues.now Posted) 0) }
{
    may_leave_beside(queues.get(class).front(), queues.posted.front())
}

impl<T: Drop, const CAP: usize> PortQueue<T, CAP> {
    /// An empty queue, which has room for all that it will ever hold. `CAP` is below 2^62, since no memory holds as many
    /// entries.
    pub fn new(alloc: Global) -> Result<Self, NoMemory>
        requires { CAP < 2 ^ 62 }
        ensures { IfOk result (λ queue. queue ≡ record { waiting = []; gap = None }) }
    {
        Ok(PortQueue {
            queues: PerClass {
                posted: Ring::new(alloc)?,
                non_posted: Ring::new(alloc)?,
                completion: Ring::new(alloc)?,
            },
            next: 0,
            gap: None,
        })
    }

    /// Do `CAP` items of the class wait?
    pub fn is_full(&self, class: Class) -> bool
        ensures exact { IsTrue result ↔ (count_of class self.now.waiting ≡ CAP) }
        ensures room { OnFalse result (count_of class self.now.waiting < CAP) }
    {
        self.queues.get(class).len() == CAP
    }

    /// How many items wait.
    pub fn len(&self) -> usize
        ensures { result ≡ length self.now.waiting }
    {
        self.queues.posted.len() + self.queues.non_posted.len() + self.queues.completion.len()
    }

    /// Does nothing wait?
    pub fn is_empty(&self) -> bool
        ensures { result ≡ (length self.now.waiting == 0) }
    {
        self.len() == 0
    }

    /// All that waits, in no order that a caller may rely on.
    pub fn all(&self, alloc: Global) -> Result<Vec<&T>, NoMemory>
        ensures { IfOk result (λ all. IsPermutation (map (λ item. item.now) all.items) (map (λ w. w.1) self.now.waiting)) }
    {
        let queues = &self.queues;
        Ok(items_of(
            alloc,
            queues.posted.deque(),
            queues.non_posted.deque(),
            queues.completion.deque(),
        )?)
    }

    /// Of which classes an item may leave.
    /// That is the oldest of the class, unless an older posted one waits that it may not pass.
    pub fn eligible_classes(&self) -> EligibleClasses
        ensures { (class : Class) → has result class ≡ is_some (head_of class self.now.waiting) }
    {
        EligibleClasses::of(
            self.head(Class::Posted).is_some(),
            self.head(Class::NonPosted).is_some(),
            self.head(Class::Completion).is_some(),
        )
    }

    /// The eligible item of the class.
    /// That is its oldest, unless an older posted one waits that it may not pass.
    pub fn head(&self, class: Class) -> Option<&T>
        ensures { option_copied result ≡ head_of class self.now.waiting }
    {
        if !is_eligible(&self.queues, class) {
            return None;
        }
        match self.queues.get(class).front() {
            Some(entry) => Some(&entry.item),
            None => None,
        }
    }
}

/// Takes away the oldest of the entries that are left, the first `left` of each class, and gives its class and item.
fn take_oldest<T: Drop, const CAP: usize>(
    queues: &mut PerClass<Ring<Entry<T>, CAP>>,
    left: &mut PerClass<usize>,
    next: u64,
) -> Option<(Class, T)>
    requires left { AreClassQueues CAP (firsts_of queues.old left.old) next None }
    requires within { (class : Class) → at_class left.old class ≤ length (at_class queues.old class) }
    ensures kept { AreClassQueues CAP (firsts_of queues.new left.new) next None }
    ensures oldest { MatchOption result ((waiting_of (firsts_of queues.old left.old) ≡ []) × (queues.new ≡ queues.old) × (left.new ≡ left.old))
        (λ r. waiting_of (firsts_of queues.old left.old) ≡ (r.0, r.1) ∷ waiting_of (firsts_of queues.new left.new)) }
    ensures others { (class : Class) → others_of queues.new left.new class ≡ others_of queues.old left.old class }
    ensures within { (class : Class) → at_class left.new class ≤ length (at_class queues.new class) }
{
    let posted = first_number(&queues.posted, left.posted);
    let non_posted = first_number(&queues.non_posted, left.non_posted);
    let completion = first_number(&queues.completion, left.completion);
    let class = first_of(posted, non_posted, completion);
    let count = *left.get(class);
    if count == 0 {
        return None;
    }
    let Some(Entry { number: _, item }) = queues.get_mut(class).pop_front() else {
        unreachable!();
    };
    *left.get_mut(class) = count - 1;
    Some((class, item))
}

/// Which of the three numbers is the least?
fn first_of(posted: u64, non_posted: u64, completion: u64) -> Class
    ensures { IsLeast posted non_posted completion result }
{
    if posted <= non_posted && posted <= completion {
        Class::Posted
    } else if non_posted <= completion {
        Class::NonPosted
    } else {
        Class::Completion
    }
}

/// The number of the oldest of the first `left` entries, or for none the last number, which no entry has.
fn first_number<T, const CAP: usize>(queue: &Ring<Entry<T>, CAP>, left: usize) -> u64
    ensures { result ≡ number_or_last_of (slice_get (take left queue.now) 0) }
{
    match queue.front() {
        Some(entry) if left > 0 => entry.number,
        _ => u64::MAX,
    }
}

/// Numbers the entries anew from 0, in order, and gives the number after theirs. Each goes behind the others of its class,
/// so that those that are left stand first.
#[cold]
fn renumber<T: Drop, const CAP: usize>(queues: &mut PerClass<Ring<Entry<T>, CAP>>, next: u64) -> u64
    requires { AreClassQueues CAP (at_class queues.old) next None }
    ensures kept { AreClassQueues CAP (at_class queues.new) result None }
    ensures waiting { waiting_of (at_class queues.new) ≡ waiting_of (at_class queues.old) }
    ensures room { result < 2 ^ 64 - 1 }
{
    let mut left = PerClass {
        posted: queues.posted.len(),
        non_posted: queues.non_posted.len(),
        completion: queues.completion.len(),
    };
    let mut number = 0;
    while let Some((class, item)) = take_oldest(queues, &mut left, next) {
        queues.get_mut(class).push_back(Entry { number, item });
        number += 1;
    }
    number
}

/// A number for the next entry. At the last number those that wait are numbered anew.
fn fresh_number<T: Drop, const CAP: usize>(
    queues: &mut PerClass<Ring<Entry<T>, CAP>>,
    next: u64,
) -> u64
    requires { AreClassQueues CAP (at_class queues.old) next None }
    ensures kept { AreClassQueues CAP (at_class queues.new) result None }
    ensures waiting { waiting_of (at_class queues.new) ≡ waiting_of (at_class queues.old) }
    ensures room { result < 2 ^ 64 - 1 }
{
    if next < u64::MAX {
        return next;
    }
    renumber(queues, next)
}

impl<T: Drop, const CAP: usize> PortQueue<T, CAP> {
    /// Puts an item behind the others. Of its class fewer than `CAP` wait.
    pub fn put(&mut self, class: Class, item: T)
        requires { count_of class self.old.waiting < CAP }
        ensures { self.new ≡ record { waiting = self.old.waiting ++ (class, item) ∷ []; gap = None } }
    {
        let number = fresh_number(&mut self.queues, self.next);
        self.next = number + 1;
        self.gap = None;
        self.queues.get_mut(class).push_back(Entry { number, item });
    }

    /// Takes the eligible item of the class.
    pub fn take(&mut self, class: Class) -> Option<T>
        ensures taken { MatchOption result ((taken_of class self.old.waiting ≡ None) × (self.new ≡ self.old))
            (λ item. taken_of class self.old.waiting ≡ Some ((class, item), self.new.waiting)) }
        ensures restores { IfSome result (λ item. restored self.new class item ≡ Some self.old.waiting) }
    {
        if !is_eligible(&self.queues, class) {
            return None;
        }
        let Some(Entry { number, item }) = self.queues.get_mut(class).pop_front() else {
            unreachable!();
        };
        self.gap = Some(Gap { class, number });
        Some(item)
    }

    /// Puts the item back that the last call took, to where it stood.
    pub fn put_back(&mut self, class: Class, item: T)
        requires { IsSome (restored self.old class item) }
        ensures waiting { restored self.old class item ≡ Some self.new.waiting }
        ensures gap { self.new.gap ≡ None }
    {
        let Some(gap) = self.gap else {
            unreachable!();
        };
        self.gap = None;
        self.queues.get_mut(class).push_front(Entry {
            number: gap.number,
            item,
        });
    }
}
