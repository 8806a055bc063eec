//! Sweeps of a fabric that pass over the stations at which nothing can move.

ghost use Rattle.std.specs.Prelude.{◌≡◌, ◌≢◌, All, IfOk, OnErr, OnOk, length, map, true};
ghost use Rattle.std.specs.List.{flat_map};
ghost use Rattle.fab_types.specs.declared.outcome.Outcome.TheVariants.{Idle};
ghost use Rattle.fabric_core.specs.Events.{StepsTo, is_begin};
ghost use Rattle.fabric_core.specs.Stations.{events_at};
ghost use Rattle.fabric_core.specs.Still.{Concludes, NeverBlocks};
ghost use Rattle.fabric_core.specs.TakenOut.{NoneCanTell};
ghost use Rattle.fabric_core.specs.World.{is_guarded, world_of};
ghost use Rattle.sweeps.specs.Asleep.{AreAsleep, AreWithin, station_of};
ghost use Rattle.sweeps.specs.Sweeps.{CutShort, IsSweep, Sweeps, SweepsCutShort, SweepsUpTo};

use crate::visit::visit;
use crate::wakeful::{Wakeful, next_awake};
use crate::watchpoint::{Watchpoint, watchpoints_in};
use fab_types::{NoMemory, Outcome};
use fabric_core::{Event, Fabric};
use layout::Layout;
use std::alloc::Global;
use std::marker::Model;

/// A fabric that is swept. In a guarded layout a sweep passes over the stations that are asleep: nothing moved when they were
/// visited last, and no event since may have woken them. A contract sees a `Swept`.
#[derive(Drop)]
pub struct Sweeper {
    fabric: Fabric,
    watchpoints: Vec<Watchpoint>,
    awake: Wakeful,
}

impl Model for Sweeper {
    ghost use Rattle.sweeps.specs.Swept.{Swept};

    ghost Value = { Swept };

    ghost use Rattle.sweeps.specs.Sleepers.{IsSweeper, swept_of};

    ghost view = { swept_of };

    ghost invariant = { IsSweeper };
}

/// Makes the events of these stations in turn, but for those of sleeping ones, which would move nothing. Did any of them
/// move something?
fn sweep(
    fabric: &mut Fabric,
    watchpoints: &[Watchpoint],
    awake: &mut Wakeful,
) -> Result<bool, NoMemory>
    requires within { All (AreWithin (length watchpoints.now)) watchpoints.now }
    requires asleep { AreAsleep watchpoints.now fabric.old awake.old }
    ensures made { IfOk result (λ moved. Sweeps (flat_map events_at (map station_of watchpoints.now)) fabric.old moved fabric.new) }
    ensures cut_short { OnErr result (CutShort (flat_map events_at (map station_of watchpoints.now)) fabric.old fabric.new) }
    ensures asleep { AreAsleep watchpoints.now fabric.new awake.new }
{
    let mut moved = false;
    let mut place = next_awake(&awake.flags, 0);
    while place < watchpoints.len() {
        let moves = visit(fabric, watchpoints, &watchpoints[place], place, awake)?;
        moved = moved || moves;
        place = next_awake(&awake.flags, place + 1);
    }
    Ok(moved)
}

/// Makes so many sweeps, or fewer. The last one is the first in which nothing moves.
fn sweep_up_to(
    fabric: &mut Fabric,
    watchpoints: &[Watchpoint],
    most: u32,
    awake: &mut Wakeful,
) -> Result<(), NoMemory>
    requires within { All (AreWithin (length watchpoints.now)) watchpoints.now }
    requires asleep { AreAsleep watchpoints.now fabric.old awake.old }
    ensures made { OnOk result (SweepsUpTo (flat_map events_at (map station_of watchpoints.now)) most fabric.old fabric.new) }
    ensures cut_short { OnErr result (SweepsCutShort (flat_map events_at (map station_of watchpoints.now)) most fabric.old fabric.new) }
    ensures asleep { AreAsleep watchpoints.now fabric.new awake.new }
{
    for _ in 0..most {
        let moved = sweep(fabric, watchpoints, awake)?;
        if !moved {
            return Ok(());
        }
    }
    Ok(())
}

impl Sweeper {
    /// The fabric of a layout, in which nothing was begun.
    /// All of its stations are awake, and what `Fabric::new` says of it holds.
    pub fn new(alloc: Global, layout: &Layout) -> Result<Sweeper, NoMemory>
        ensures start { IfOk result (λ swept. swept.world ≡ world_of layout.now) }
        ensures sweep { IfOk result (λ swept. IsSweep layout.now (world_of layout.now).agents.domains (flat_map events_at swept.stations)) }
        ensures isolated { IfOk result (λ swept. is_guarded (world_of layout.now) ≡ true → NoneCanTell (world_of layout.now)) }
        ensures unblocked { IfOk result (λ swept. NeverBlocks (world_of layout.now)) }
        ensures consumed { IfOk result (λ swept. is_guarded (world_of layout.now) ≡ true → Concludes (world_of layout.now)) }
    {
        // for the proof: what holds of every platform
        let _ = layout.ports();
        let fabric = Fabric::new(alloc, layout)?;
        let watchpoints = watchpoints_in(alloc, layout, fabric.domains())?;
        let awake = Wakeful::all(alloc, &watchpoints, layout.is_guarded())?;
        Ok(Sweeper {
            fabric,
            watchpoints,
            awake,
        })
    }

    /// The fabric itself.
    pub fn fabric(&self) -> &Fabric
        ensures { result.now ≡ self.now.world }
    {
        &self.fabric
    }

    /// The fabric, which is swept no more.
    pub fn into_fabric(self) -> Fabric
        ensures { result ≡ self.world }
    {
        self.fabric
    }

    /// Makes an event, and wakes the stations that it may have woken. After one that is no begin all are awake.
    pub fn step(&mut self, event: &Event) -> Outcome
        ensures steps { StepsTo self.old.world event.now result self.new.world }
        ensures begun { is_begin event.now ≡ true → result ≢ Idle }
        ensures stations { self.new.stations ≡ self.old.stations }
    {
        let outcome = self.fabric.step(event);
        self.awake.wake_begun(&self.watchpoints, event);
        outcome
    }

    /// Makes one sweep. Did any of its events move something? It answers `NoMemory` at the first event that was refused
    /// memory: those before it were made, and it and those behind it were not.
    pub fn sweep(&mut self) -> Result<bool, NoMemory>
        ensures made { IfOk result (λ moved. Sweeps (flat_map events_at self.old.stations) self.old.world moved self.new.world) }
        ensures cut_short { OnErr result (CutShort (flat_map events_at self.old.stations) self.old.world self.new.world) }
        ensures stations { self.new.stations ≡ self.old.stations }
    {
        sweep(&mut self.fabric, &self.watchpoints, &mut self.awake)
    }

    /// Makes so many sweeps, or fewer.
    /// The last one is the first in which nothing moves. It answers `NoMemory` at the first event that was refused memory,
    /// as `sweep` does.
    pub fn sweeps(&mut self, most: u32) -> Result<(), NoMemory>
        ensures made { OnOk result (SweepsUpTo (flat_map events_at self.old.stations) most self.old.world self.new.world) }
        ensures cut_short { OnErr result (SweepsCutShort (flat_map events_at self.old.stations) most self.old.world self.new.world) }
        ensures stations { self.new.stations ≡ self.old.stations }
    {
        sweep_up_to(&mut self.fabric, &self.watchpoints, most, &mut self.awake)
    }
}
