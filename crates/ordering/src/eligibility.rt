//! Which classes of a queue have a packet that may leave it.

ghost use Rattle.std.specs.Prelude.{◌≡◌, [], ◌∷◌};
ghost use Rattle.ordering.specs.Ordering.{has_eligible};
ghost use Rattle.fab_types.specs.declared.class.Class.TheVariants.{Posted, NonPosted, Completion};

use crate::pass_table::may_pass;
use fab_types::Class;

/// Of which classes a queue has a packet that may leave (PCIe 4.0, 2.4.1).
/// Given are the classes of the queue's packets from the oldest to the newest. For posted, non-posted and
/// completion, in this order, it says: does one of the class wait that may pass every older packet?
pub fn eligible(classes: &[Class]) -> [bool; 3]
    ensures { result ≡
        has_eligible (λ c. c) Posted classes.now ∷
        has_eligible (λ c. c) NonPosted classes.now ∷
        has_eligible (λ c. c) Completion classes.now ∷ [] }
{
    [
        is_eligible(classes, Class::Posted),
        is_eligible(classes, Class::NonPosted),
        is_eligible(classes, Class::Completion),
    ]
}

/// A packet may not pass one of its own class, so only the oldest of a class can be the one.
fn is_eligible(classes: &[Class], class: Class) -> bool
    ensures { result ≡ has_eligible (λ c. c) class classes.now }
{
    for &older in classes {
        if older == class {
            return true;
        }
        if !may_pass(class, older) {
            return false;
        }
    }
    false
}
