//! Queues that begin at the first place of their memory again, so that few items at a time stay within few places: those
//! stay in a cache, and memory that no item has reached is not touched.

ghost use Rattle.std.specs.Prelude.{◌≡◌, ◌<◌, ◌+◌, ◌∷◌, ◌++◌, MatchOption};
ghost use Rattle.std.specs.Option.{option_to_list};
ghost use Rattle.std.specs.VecDeque.{deque_capacity, deque_len};

use std::collections::VecDeque;
use std::mem;

/// The queue begins at its first place, which costs little where it is empty.
#[cold]
pub(crate) fn begin_anew<T>(queue: &mut VecDeque<T>)
    ensures items { queue.new.items ≡ queue.old.items }
    ensures len { deque_len queue.new ≡ deque_len queue.old }
    ensures capacity { deque_capacity queue.new ≡ deque_capacity queue.old }
{
    let unused = VecDeque::new(*queue.allocator());
    let places = mem::replace(queue, unused).into_vec();
    mem::replace(queue, VecDeque::from_vec(places)).destroy_empty();
}

/// Takes the oldest item. A queue that runs empty begins anew.
pub(crate) fn pop_oldest<T>(queue: &mut VecDeque<T>) -> Option<T>
    ensures items { queue.old.items ≡ option_to_list result ++ queue.new.items }
    ensures cases { MatchOption result ((deque_len queue.old ≡ 0) × (deque_len queue.new ≡ 0)) (λ _. deque_len queue.new + 1 ≡ deque_len queue.old) }
    ensures capacity { deque_capacity queue.new ≡ deque_capacity queue.old }
{
    let item = queue.pop_front();
    if queue.is_empty() {
        begin_anew(queue);
    }
    item
}

/// Puts an item before the oldest. In an empty queue it stands where the queue begins.
pub(crate) fn push_oldest<T>(queue: &mut VecDeque<T>, item: T)
    requires { deque_len queue.old < deque_capacity queue.old }
    ensures items { queue.new.items ≡ item ∷ queue.old.items }
    ensures len { deque_len queue.new ≡ deque_len queue.old + 1 }
    ensures capacity { deque_capacity queue.new ≡ deque_capacity queue.old }
{
    if queue.is_empty() {
        return queue.push_back_reserved(item);
    }
    queue.push_front_reserved(item);
}
