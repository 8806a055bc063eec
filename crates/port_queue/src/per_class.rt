//! Three queues, one for each class.

ghost use Rattle.std.specs.Prelude.{◌≡◌};
ghost use Rattle.std.specs.Borrow.{sem};
ghost use Rattle.port_queue.specs.PerClass.{at_class};
ghost use Rattle.port_queue.specs.Lending.{LendsClass};
ghost use Rattle.port_queue.specs.Arrivals.{may_leave};
ghost use Rattle.std.specs.Prelude.{option_copied};

use crate::entry::Entry;
use fab_types::Class;

/// A queue of each class.
#[derive(Drop)]
pub struct PerClass<Q> {
    /// That of posted items.
    pub posted: Q,
    /// That of non-posted items.
    pub non_posted: Q,
    /// That of completions.
    pub completion: Q,
}

impl<Q> PerClass<Q> {
    /// The queue of a class.
    pub fn get(&self, class: Class) -> &Q
        ensures { result.now ≡ at_class self.now class }
    {
        match class {
            Class::Posted => &self.posted,
            Class::NonPosted => &self.non_posted,
            Class::Completion => &self.completion,
        }
    }

    /// Lends the queue of a class to be changed. The other two stay.
    pub fn get_mut(&mut self, class: Class) -> &mut Q
        ensures* lends { sem 𝓛 (LendsClass Q.row self.entry class result) }
        ensures value { result.now ≡ at_class self.old class }
    {
        match class {
            Class::Posted => &mut self.posted,
            Class::NonPosted => &mut self.non_posted,
            Class::Completion => &mut self.completion,
        }
    }
}

/// May the oldest entry of a class leave beside the oldest posted one? Of the classes only posted is
/// never passed, and no number stands in two entries.
pub(crate) fn may_leave_beside<T>(entry: Option<&Entry<T>>, posted: Option<&Entry<T>>) -> bool
    ensures { result ≡ may_leave (option_copied entry.entry) (option_copied posted.entry) }
{
    match (entry, posted) {
        (None, _) => false,
        (Some(_), None) => true,
        (Some(entry), Some(posted)) => entry.number <= posted.number,
    }
}
