//! Where the elements of a key begin in a list.

ghost use Rattle.std.specs.Prelude.{◌≡◌, ◌==◌, ◌<◌, ℕ, List, IfOk, length, slice_index_or};
ghost use Rattle.std.specs.List.{position};
ghost use Rattle.topology.specs.FirstIndexes.{first_on, firsts_of};

use fab_types::NoMemory;
use std::alloc::Global;
use std::marker::Model;

/// For each key below a bound the place of the first element that has it. So a search begins there, and not at the
/// first element of all. A contract sees the list of the places.
#[derive(Drop)]
pub(crate) struct FirstIndex {
    firsts: Vec<usize>,
}

impl Model for FirstIndex {
    ghost Value = { List ℕ };

    ghost view = { λ index. index.firsts.items };
}

fn place_on(keys: &[u16], key: u16) -> Option<usize>
    ensures { result ≡ position (λ other. other == key) keys.now }
{
    keys.iter().position(|other| *other == key)
}

fn first_on(keys: &[u16], key: u16) -> usize
    ensures { result ≡ first_on keys.now key }
{
    place_on(keys, key).unwrap_or(keys.len())
}

fn firsts_of(alloc: Global, count: u16, keys: &[u16]) -> Result<Vec<usize>, NoMemory>
    ensures { IfOk result (λ firsts. firsts.items ≡ firsts_of count keys.now) }
{
    Ok((0..count).map(|key| first_on(keys, key)).collect(alloc)?)
}

impl FirstIndex {
    /// The index of elements that have these keys, for so many keys from 0 on. It answers `NoMemory` where memory was
    /// refused.
    pub(crate) fn new(alloc: Global, count: u16, keys: &[u16]) -> Result<FirstIndex, NoMemory>
        ensures { IfOk result (λ index. index ≡ firsts_of count keys.now) }
    {
        Ok(FirstIndex {
            firsts: firsts_of(alloc, count, keys)?,
        })
    }

    /// The place of the first element that has the key, or their number where none does.
    pub(crate) fn first(&self, key: u16) -> usize
        requires { key < length self.now }
        ensures { result ≡ slice_index_or self.now key 0 }
    {
        self.firsts[usize::from(key)]
    }
}
