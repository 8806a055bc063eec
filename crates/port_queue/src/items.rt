//! What waits in three class queues, whatever its place.

ghost use Rattle.std.specs.Prelude.{◌≡◌, ◌++◌, IfOk, OnOk, map};

use crate::entry::Entry;
use std::alloc::{AllocError, Global};
use std::collections::VecDeque;

/// Adds the items of a class queue, the oldest first.
fn add_items<'a, T>(items: &mut Vec<&'a T>, queue: &'a VecDeque<Entry<T>>) -> Result<(), AllocError>
    ensures { OnOk result (map (λ item. item.now) items.new.items ≡ map (λ item. item.now) items.old.items ++ map (λ entry. entry.item) queue.now.items) }
{
    for entry in queue {
        items.push(&entry.item)?;
    }
    Ok(())
}

/// The items of three class queues, one queue after the other.
pub(crate) fn items_of<'a, T>(
    alloc: Global,
    posted: &'a VecDeque<Entry<T>>,
    non_posted: &'a VecDeque<Entry<T>>,
    completion: &'a VecDeque<Entry<T>>,
) -> Result<Vec<&'a T>, AllocError>
    ensures { IfOk result (λ items. map (λ item. item.now) items.items ≡ map (λ entry. entry.item) posted.now.items ++ map (λ entry. entry.item) non_posted.now.items ++ map (λ entry. entry.item) completion.now.items) }
{
    let mut items = Vec::new(alloc);
    add_items(&mut items, posted)?;
    add_items(&mut items, non_posted)?;
    add_items(&mut items, completion)?;
    Ok(items)
}
