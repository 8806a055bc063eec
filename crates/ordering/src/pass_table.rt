//! The pass table.

ghost use Rattle.std.specs.Prelude.{◌≡◌};
ghost use Rattle.ordering.specs.Ordering.{passes};

use fab_types::Class;

/// May a later packet pass one that came before it (PCIe 4.0, 2.4.1)?
/// It is of the class `later`, the other of the class `earlier`.
///
/// Of the entries that the standard leaves open, a posted or non-posted request may pass a completion here, and
/// nothing passes its own class. Relaxed Ordering and ID-Based Ordering change nothing.
pub fn may_pass(later: Class, earlier: Class) -> bool
    ensures { result ≡ passes later earlier }
{
    match later {
        Class::Posted => matches!(earlier, Class::NonPosted | Class::Completion),
        Class::NonPosted => matches!(earlier, Class::Completion),
        Class::Completion => matches!(earlier, Class::NonPosted),
    }
}
