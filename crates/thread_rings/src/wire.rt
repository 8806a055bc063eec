//! What is to be joined by a ring.

ghost use Rattle.std.specs.Prelude.{◌↔◌, ◌<◌, All, IsTrue};
ghost use Rattle.thread_rings.specs.Wired.{AreWithin};

/// A way for items from one worker to another, or to itself. Workers are known by their places in a list, from 0.
#[derive(Clone, Copy, Debug, PartialEq, Eq)]
pub struct Wire {
    /// The worker that puts items in.
    pub from: usize,
    /// The worker that takes them out.
    pub to: usize,
    /// How many items may be on the way.
    pub places: usize,
}

/// Does each wire join two of so many workers?
pub fn are_within(count: usize, wires: &[Wire]) -> bool
    ensures { IsTrue result ↔ AreWithin count wires.now }
{
    wires
        .iter()
        .all(|wire| wire.from < count && wire.to < count)
}
