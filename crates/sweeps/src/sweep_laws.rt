//! Laws of sweeps. Each is the contract of a function that does nothing.

ghost use Rattle.std.specs.Prelude.{◌≡◌, List, false};
ghost use Rattle.fab_types.specs.declared.outcome.Outcome.{Outcome};
ghost use Rattle.layout.specs.Laws.{IsPlatform};
ghost use Rattle.platform.specs.Platform.{Platform};
ghost use Rattle.fabric_core.specs.declared.event.Event.{Event};
ghost use Rattle.fabric_core.specs.Runs.{Run};
ghost use Rattle.fabric_core.specs.Still.{IsStill};
ghost use Rattle.fabric_core.specs.World.{World, world_of};
ghost use Rattle.sweeps.specs.Sweeps.{IsSweep, Sweeps};

/// Where a sweep moves nothing, nothing can move, and all stays as it was.
/// So it is in every fabric of a layout, after any run from its start.
pub fn a_sweep_that_moves_nothing_is_the_last()
    ensures { (platform : Platform) → IsPlatform platform → (sweep : List Event) → IsSweep platform (world_of platform).agents.domains sweep → (events : List Event) → (outcomes : List Outcome) → (old new : World) → Run (world_of platform) events outcomes old → Sweeps sweep old false new → IsStill old × (new ≡ old) }
{}
