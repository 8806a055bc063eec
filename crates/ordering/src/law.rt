//! What the definition of an eligible item amounts to.

ghost use Rattle.ordering.specs.Ordering.{TakesTheEligible};

/// `take_one` gives the item of the class that may pass every older one.
/// That is the one of the contracts. It does so of any queue, and gives what is left without the item; and
/// where no item is such a one, it gives none.
pub fn takes_the_eligible<T>()
    ensures { TakesTheEligible T }
{}
