//! Laws of waking. Each is the contract of a function that does nothing.

ghost use Rattle.std.specs.Prelude.{◌≡◌, Some, true};
ghost use Rattle.fabric_core.specs.declared.event.Event.{Event};
ghost use Rattle.fabric_core.specs.Events.{effect};
ghost use Rattle.fabric_core.specs.Invariant.{IsFabric};
ghost use Rattle.fabric_core.specs.World.{World, is_guarded};
ghost use Rattle.sweeps.specs.Waking.{LeavesQuiet, WakesNoOther};

/// In a guarded fabric an event leaves each station idle that it doesn't wake.
/// A station is idle where none of its events moves anything. Whom an event may wake is said by the tree alone (`wakes`):
/// those at which it changes something, and those who put packets where it frees a place.
pub fn events_wake_no_other_station()
    ensures { (old new : World) (event : Event) → IsFabric old → is_guarded old ≡ true → effect old event ≡ Some new → WakesNoOther old event new }
{}

/// In a guarded fabric an event leaves each station quiet at which it changes nothing.
/// A station is quiet where no packet may leave and no credits are to be returned (`Fabric::is_quiet`). At whom an event may
/// change something is said by the tree alone (`changes`): who takes what it brings, the sender of a direction on which it
/// puts a packet, receives one or frees credits, and the outbox that it fills.
pub fn events_leave_other_stations_quiet()
    ensures { (old new : World) (event : Event) → IsFabric old → is_guarded old ≡ true → effect old event ≡ Some new → LeavesQuiet old event new }
{}
