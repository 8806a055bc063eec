//! Who takes the eligible packet of a class at an end of the tree.

ghost use Rattle.std.specs.Prelude.{◌≡◌};
ghost use Rattle.thread_workers.specs.TakenBy.{has_moved};

use frame_log::Frame;

/// Who took the eligible packet of a class, if it was taken.
#[derive(Clone, Copy, Debug, PartialEq, Eq)]
pub enum TakenBy {
    /// Its home has an entry of it.
    Own,
    /// The domain of that place has an entry of it.
    /// Its home had no case for it.
    Alien,
    /// Nobody had a case for it, and it is kept.
    Stray,
    /// It stands where it stood.
    /// Memory was refused, or it is a completion, whose record would have no place.
    Waits,
    /// There was no eligible packet of the class.
    Idle,
}

impl TakenBy {
    /// Did the packet leave the queue?
    pub fn has_moved(&self) -> bool
        ensures { result ≡ has_moved self.now }
    {
        match self {
            TakenBy::Own | TakenBy::Alien | TakenBy::Stray => true,
            TakenBy::Waits | TakenBy::Idle => false,
        }
    }
}

/// A packet of which its home has made no entry. It is given back.
#[derive(Debug, Drop)]
pub(crate) enum NotTaken {
    /// Its home has no case for it.
    Stray(Frame),
    /// It has to wait: memory was refused, or a record is held.
    Waits(Frame),
}
