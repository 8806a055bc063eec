//! Runs of a fresh fabric in which a packet is submitted.

ghost use Rattle.std.specs.Prelude.{◌≡◌, IfOk, IfSome, OnOk};
ghost use Rattle.std.specs.List.{flat_map};
ghost use Rattle.fab_types.specs.declared.outcome.Outcome.TheVariants.{Moved};
ghost use Rattle.fabric_core.specs.declared.event.Event.TheVariants.{Submit};
ghost use Rattle.fabric_core.specs.Events.{StepsTo};
ghost use Rattle.fabric_core.specs.Isolation.{home};
ghost use Rattle.fabric_core.specs.Stations.{events_at};
ghost use Rattle.fabric_core.specs.World.{world_of};
ghost use Rattle.audit.specs.Settings.{IsSetting};
ghost use Rattle.audit.specs.Landing.{ComesToRest, IsRace, IsRefused, IsRun};

use crate::setting::Setting;
use attacks::OwnRead;
use fab_types::{Bdf, DomainId, NoMemory, Outcome, PacketBytes};
use fabric_core::{Event, Fabric, Station};
use std::alloc::Global;
use sweeps::sweeps;

/// The most sweeps that follow the last packet.
const MOST_SWEEPS: u32 = 1000;

/// Makes so many sweeps, or fewer, until nothing moves.
fn come_to_rest(fabric: &mut Fabric, stations: &[Station], most: u32) -> Result<(), NoMemory>
    requires { most ≡ 1000 }
    ensures { OnOk result (ComesToRest (flat_map events_at stations.now) fabric.old fabric.new) }
{
    sweeps(fabric, stations, most)?;
    Ok(())
}

/// Submits a packet in a fresh fabric.
/// None where the packet is refused, or its function is not of the domain.
fn begun(
    alloc: Global,
    setting: &Setting<'_>,
    domain: DomainId,
    function: Bdf,
    bytes: PacketBytes,
) -> Result<Option<Fabric>, NoMemory>
    requires { IsSetting setting.now }
    ensures begun { IfOk result (λ begun. IfSome begun (λ fabric. StepsTo (world_of setting.now.layout.now) (Submit function bytes) Moved fabric)) }
    ensures own { IfOk result (λ begun. IfSome begun (λ _. home (world_of setting.now.layout.now) (Submit function bytes) ≡ Some domain)) }
    ensures refused { IfOk result (λ begun. (begun ≡ None) → IsRefused setting.now.layout.now domain function bytes) }
{
    let event = Event::Submit(function, bytes);
    if setting.start.home(&event) != Some(domain) {
        return Ok(None);
    }
    let mut fabric = Fabric::new(alloc, setting.layout)?;
    match fabric.step(&event) {
        Outcome::Moved => Ok(Some(fabric)),
        Outcome::Refused(_) => Ok(None),
        Outcome::Idle => unreachable!(),
        Outcome::NoMemory => Err(NoMemory),
    }
}

/// Submits a packet in a fresh fabric, and lets that come to rest.
/// None where the packet is refused, or its function is not of the domain.
pub(crate) fn ran(
    alloc: Global,
    setting: &Setting<'_>,
    domain: DomainId,
    function: Bdf,
    bytes: PacketBytes,
) -> Result<Option<Fabric>, NoMemory>
    requires { IsSetting setting.now }
    ensures run { IfOk result (λ ran. IfSome ran (λ fabric. IsRun setting.now.layout.now function bytes fabric)) }
    ensures own { IfOk result (λ ran. IfSome ran (λ _. home (world_of setting.now.layout.now) (Submit function bytes) ≡ Some domain)) }
    ensures refused { IfOk result (λ ran. (ran ≡ None) → IsRefused setting.now.layout.now domain function bytes) }
{
    let Some(mut fabric) = begun(alloc, setting, domain, function, bytes)? else {
        return Ok(None);
    };
    come_to_rest(&mut fabric, &setting.stations, MOST_SWEEPS)?;
    Ok(Some(fabric))
}

/// Asks for a begin, which may be refused.
fn ask(fabric: &mut Fabric, event: &Event) -> Result<(), NoMemory>
    ensures { OnOk result ((outcome : Outcome) × StepsTo fabric.old event.now outcome fabric.new) }
{
    match fabric.step(event) {
        Outcome::NoMemory => Err(NoMemory),
        Outcome::Moved | Outcome::Idle | Outcome::Refused(_) => Ok(()),
    }
}

/// The same with a read that follows some sweeps later.
pub(crate) fn raced(
    alloc: Global,
    setting: &Setting<'_>,
    domain: DomainId,
    function: Bdf,
    bytes: PacketBytes,
    read: &OwnRead,
) -> Result<Option<Fabric>, NoMemory>
    requires { IsSetting setting.now }
    ensures race { IfOk result (λ raced. IfSome raced (λ fabric. IsRace setting.now.layout.now function bytes read.now fabric)) }
    ensures own { IfOk result (λ raced. IfSome raced (λ _. home (world_of setting.now.layout.now) (Submit function bytes) ≡ Some domain)) }
    ensures refused { IfOk result (λ raced. (raced ≡ None) → IsRefused setting.now.layout.now domain function bytes) }
{
    let Some(mut fabric) = begun(alloc, setting, domain, function, bytes)? else {
        return Ok(None);
    };
    sweeps(&mut fabric, &setting.stations, read.sweeps)?;
    let own = Event::Submit(read.function, read.bytes(alloc)?);
    ask(&mut fabric, &own)?;
    come_to_rest(&mut fabric, &setting.stations, MOST_SWEEPS)?;
    Ok(Some(fabric))
}
