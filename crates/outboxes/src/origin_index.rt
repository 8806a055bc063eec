//! For each origin a place that was noted for it.

ghost use Rattle.std.specs.Prelude.{◌≡◌, ℕ, None, Some, slice_index_or};
ghost use Rattle.fab_types.specs.declared.origin.Origin.{Origin};
ghost use Rattle.outboxes.specs.OriginIndexes.{IsNoted, entry_for, noted_place};

use fab_types::{Bdf, Origin};

/// A place, and the function that it was noted for.
#[derive(Clone, Copy)]
pub(crate) struct Noted {
    function: Bdf,
    place: usize,
}

/// For each function and each host the place that was noted for it.
/// It is the last one that was noted, and is found by one look. Functions stand by their bus: of two functions
/// on one bus the index has the one that was noted last.
#[derive(Drop)]
pub struct OriginIndex {
    by_bus: [Option<Noted>; 256],
    by_domain: [Option<usize>; 32],
}

fn no_functions() -> [Option<Noted>; 256]
    ensures { (bus : ℕ) → slice_index_or result bus None ≡ None }
{
    [None; 256]
}

fn no_hosts() -> [Option<usize>; 32]
    ensures { (number : ℕ) → slice_index_or result number None ≡ None }
{
    [None; 32]
}

fn entry_for(entry: Option<Noted>, function: Bdf) -> Option<usize>
    ensures { result ≡ entry_for entry function }
{
    match entry {
        Some(noted) => {
            if noted.function == function {
                Some(noted.place)
            } else {
                None
            }
        }
        None => None,
    }
}

impl OriginIndex {
    /// An index in which nothing is noted.
    pub fn new() -> OriginIndex
        ensures { (origin : Origin) → noted_place result origin ≡ None }
    {
        OriginIndex {
            by_bus: no_functions(),
            by_domain: no_hosts(),
        }
    }

    /// Notes the place of an origin, in place of what was noted for it before.
    pub fn note(&mut self, origin: Origin, place: usize)
        ensures noted { noted_place self.new origin ≡ Some place }
        // Nothing else is noted, but another function on the same bus may be forgotten.
        ensures others { (other : Origin) (there : ℕ) → noted_place self.new other ≡ Some there → IsNoted origin place (noted_place self.old other) other there }
    {
        match origin {
            Origin::Function(function) => {
                self.by_bus[usize::from(function.bus())] = Some(Noted { function, place });
            }
            Origin::Host(domain) => self.by_domain[usize::from(domain.get())] = Some(place),
        }
    }

    /// The place that was noted for this origin, if one is.
    pub fn place(&self, origin: Origin) -> Option<usize>
        ensures { result ≡ noted_place self.now origin }
    {
        match origin {
            Origin::Function(function) => {
                entry_for(self.by_bus[usize::from(function.bus())], function)
            }
            Origin::Host(domain) => self.by_domain[usize::from(domain.get())],
        }
    }
}
