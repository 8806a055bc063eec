//! Injectors are given out.

ghost use Rattle.std.specs.Prelude.{◌≡◌, ℕ, ◌<◌, IfNone, IfSome, MatchOption, None, Some, length, true};
ghost use Rattle.std.specs.List.{position, remove};
ghost use Rattle.fab_types.specs.Origins.{same_origin};
ghost use Rattle.fab_types.specs.declared.origin.Origin.{Origin};
ghost use Rattle.thread_staff.specs.Origins.{origin_place, origins_in};

use crate::running::Running;
use fab_types::{Origin, same_origin};
use injector::Injector;

/// The place of the injector of this origin.
fn place_of(injectors: &[Injector], origin: Origin) -> Option<usize>
    ensures value { result ≡ position (λ injector. same_origin injector.origin origin) injectors.now }
    ensures within { IfSome result (λ place. place < length injectors.now) }
{
    injectors
        .iter()
        .position(|injector| same_origin(injector.origin(), origin))
}

/// Takes the injector at a place out of the others.
fn take_at(injectors: &mut Vec<Injector>, place: usize) -> Injector
    requires { place < length injectors.old.items }
    ensures others { origins_in injectors.new.items ≡ remove (origins_in injectors.old.items) place }
    ensures taken { (origin : Origin) → origin_place (origins_in injectors.old.items) origin ≡ Some place → same_origin result.origin origin ≡ true }
{
    injectors.remove(place)
}

impl Running {
    /// The injector of this function, or of this domain's host.
    /// By it a program begins what that may begin, and takes its completions, while the workers run. Each is
    /// given once. None where the layout has no such function or host, and where it was given already; then
    /// nothing changes. It waits for nobody and takes no memory.
    pub fn injector(&mut self, origin: Origin) -> Option<Injector>
        ensures given { MatchOption result
            (origin_place self.old.origins origin ≡ None)
            (λ injector. (place : ℕ) × (origin_place self.old.origins origin ≡ Some place)
            × (same_origin injector.origin origin ≡ true)
            × (self.new.origins ≡ remove self.old.origins place)) }
        ensures none { IfNone result (self.new ≡ self.old) }
        ensures others { self.new ≡ record self.old { origins = self.new.origins } }
    {
        let place = place_of(&self.injectors, origin)?;
        Some(take_at(&mut self.injectors, place))
    }
}
