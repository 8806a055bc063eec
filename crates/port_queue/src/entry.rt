//! What class queues hold.

use fab_types::Class;

/// An item and its arrival number: of two items the older has the smaller one.
#[derive(Drop)]
pub struct Entry<T> {
    /// Its arrival number.
    pub number: u64,
    /// The item itself.
    pub item: T,
}

/// Where the item stood that the last call took.
#[derive(Clone, Copy, Debug, PartialEq, Eq)]
pub struct Gap {
    /// The item's class.
    pub class: Class,
    /// The item's arrival number.
    pub number: u64,
}
