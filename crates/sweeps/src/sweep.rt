//! Sweeps: each event of a fabric once, in a fixed order.

ghost use Rattle.std.specs.Prelude.{◌≡◌, ◌&&◌, ◌∷◌, [], IfOk, OnErr, OnOk, false, map, true};
ghost use Rattle.std.specs.List.{flat_map};
ghost use Rattle.fab_types.specs.declared.outcome.Outcome.TheVariants.{Idle};
ghost use Rattle.fabric_core.specs.Events.{StepsTo, takes_packet};
ghost use Rattle.fabric_core.specs.EligibleClasses.{AreEligible};
ghost use Rattle.fabric_core.specs.Stations.{classes, events_at, others_at, taking};
ghost use Rattle.fabric_core.specs.Waits.{waits};
ghost use Rattle.sweeps.specs.Sweeps.{CutShort, Sweeps, SweepsCutShort, SweepsUpTo, is_moved, lacks_memory};

use fab_types::{Class, NoMemory, Outcome};
use fabric_core::{EligibleClasses, Event, Fabric, Station};

/// Did the event move something? `NoMemory` where it was refused memory.
fn has_moved(outcome: Outcome) -> Result<bool, NoMemory>
    ensures moved { IfOk result (λ moved. (moved ≡ is_moved outcome) × (lacks_memory outcome ≡ false)) }
    ensures refused { OnErr result (outcome ≡ Outcome.NoMemory) }
{
    match outcome {
        Outcome::Moved => Ok(true),
        Outcome::Idle | Outcome::Refused(_) => Ok(false),
        Outcome::NoMemory => Err(NoMemory),
    }
}

/// Makes the event. Did it move something? It answers `NoMemory` where it was refused memory.
pub(crate) fn make(fabric: &mut Fabric, event: &Event) -> Result<bool, NoMemory>
    ensures made { IfOk result (λ moved. Sweeps (event.now ∷ []) fabric.old moved fabric.new) }
    ensures cut_short { OnErr result (CutShort (event.now ∷ []) fabric.old fabric.new) }
{
    has_moved(fabric.step(event))
}

/// Makes an event that takes a packet, if there is one for it to take.
pub(crate) fn make_taking(fabric: &mut Fabric, event: &Event) -> Result<bool, NoMemory>
    requires { takes_packet event.now ≡ true }
    ensures made { IfOk result (λ moved. Sweeps (event.now ∷ []) fabric.old moved fabric.new) }
    ensures cut_short { OnErr result (CutShort (event.now ∷ []) fabric.old fabric.new) }
{
    if fabric.home(event).is_none() {
        return Ok(false);
    }
    make(fabric, event)
}

/// Makes the event by which a packet of a class is taken at a station, and asks anew what may leave there if something
/// moved.
#[inline(never)]
fn take(
    fabric: &mut Fabric,
    station: &Station,
    class: Class,
    eligible_classes: &mut EligibleClasses,
) -> Result<bool, NoMemory>
    requires { AreEligible fabric.old station.now eligible_classes.old }
    ensures made { IfOk result (λ moved. Sweeps (taking station.now class ∷ []) fabric.old moved fabric.new) }
    ensures cut_short { OnErr result (CutShort (taking station.now class ∷ []) fabric.old fabric.new) }
    ensures eligible_classes { OnOk result (AreEligible fabric.new station.now eligible_classes.new) }
{
    let moved = make(fabric, &station.taking(class))?;
    if moved {
        *eligible_classes = fabric.eligible_classes(station);
    }
    Ok(moved)
}

/// Was the station blocked, and does its packet of the class wait for a place?
fn still_waits(fabric: &mut Fabric, station: &Station, was_blocked: bool, class: Class) -> bool
    ensures value { result ≡ (was_blocked && waits fabric.old station.now class) }
    ensures idle { result ≡ true → StepsTo fabric.old (taking station.now class) Idle fabric.old }
    ensures same { fabric.new ≡ fabric.old }
{
    was_blocked && fabric.waits(station, class)
}

/// The same, but the event isn't made where no packet of the class may leave: mostly none may. Where the station was
/// blocked it isn't made either for one that waits for a place.
#[inline(always)]
fn take_eligible(
    fabric: &mut Fabric,
    station: &Station,
    was_blocked: bool,
    class: Class,
    eligible_classes: &mut EligibleClasses,
) -> Result<bool, NoMemory>
    requires { AreEligible fabric.old station.now eligible_classes.old }
    ensures made { IfOk result (λ moved. Sweeps (taking station.now class ∷ []) fabric.old moved fabric.new) }
    ensures cut_short { OnErr result (CutShort (taking station.now class ∷ []) fabric.old fabric.new) }
    ensures eligible_classes { OnOk result (AreEligible fabric.new station.now eligible_classes.new) }
{
    if !eligible_classes.has(class) {
        return Ok(false);
    }
    if still_waits(fabric, station, was_blocked, class) {
        return Ok(false);
    }
    take(fabric, station, class, eligible_classes)
}

/// Makes the events by which a packet of each class is taken at a station.
pub(crate) fn take_each(
    fabric: &mut Fabric,
    station: &Station,
    was_blocked: bool,
) -> Result<bool, NoMemory>
    ensures made { IfOk result (λ moved. Sweeps (map (taking station.now) classes) fabric.old moved fabric.new) }
    ensures cut_short { OnErr result (CutShort (map (taking station.now) classes) fabric.old fabric.new) }
{
    let mut eligible_classes = fabric.eligible_classes(station);
    let posted = take_eligible(
        fabric,
        station,
        was_blocked,
        Class::Posted,
        &mut eligible_classes,
    )?;
    let non_posted = take_eligible(
        fabric,
        station,
        was_blocked,
        Class::NonPosted,
        &mut eligible_classes,
    )?;
    let completion = take_eligible(
        fabric,
        station,
        was_blocked,
        Class::Completion,
        &mut eligible_classes,
    )?;
    Ok(posted | non_posted | completion)
}

/// Makes the other events of a station: on a direction of a link a packet is received, and credits are returned.
fn make_others(fabric: &mut Fabric, station: &Station) -> Result<bool, NoMemory>
    ensures made { IfOk result (λ moved. Sweeps (others_at station.now) fabric.old moved fabric.new) }
    ensures cut_short { OnErr result (CutShort (others_at station.now) fabric.old fabric.new) }
{
    match station {
        Station::Link(direction) => {
            let received = make_taking(fabric, &Event::Take(*direction))?;
            let updated = make(fabric, &Event::Credit(*direction))?;
            Ok(received | updated)
        }
        Station::FunctionOutbox(_)
        | Station::HostOutbox(_)
        | Station::Port(_)
        | Station::Host
        | Station::Function(_) => Ok(false),
    }
}

/// Makes the events of a station in turn. Did any of them move something? Where the station is quiet none would, and none
/// is tried.
fn visit(fabric: &mut Fabric, station: &Station) -> Result<bool, NoMemory>
    ensures made { IfOk result (λ moved. Sweeps (events_at station.now) fabric.old moved fabric.new) }
    ensures cut_short { OnErr result (CutShort (events_at station.now) fabric.old fabric.new) }
{
    if fabric.is_quiet(station) {
        return Ok(false);
    }
    let taken = take_each(fabric, station, false)?;
    let others = make_others(fabric, station)?;
    Ok(taken | others)
}

/// Makes the events of these stations in turn. Did any of them move something? It answers `NoMemory` at the first event
/// that was refused memory.
pub fn sweep(fabric: &mut Fabric, stations: &[Station]) -> Result<bool, NoMemory>
    ensures made { IfOk result (λ moved. Sweeps (flat_map events_at stations.now) fabric.old moved fabric.new) }
    ensures cut_short { OnErr result (CutShort (flat_map events_at stations.now) fabric.old fabric.new) }
{
    let mut moved = false;
    for station in stations {
        let moves = visit(fabric, station)?;
        moved = moved || moves;
    }
    Ok(moved)
}

/// Makes so many sweeps, or fewer.
/// The last one is the first in which nothing moves.
pub fn sweeps(fabric: &mut Fabric, stations: &[Station], most: u32) -> Result<(), NoMemory>
    ensures made { OnOk result (SweepsUpTo (flat_map events_at stations.now) most fabric.old fabric.new) }
    ensures cut_short { OnErr result (SweepsCutShort (flat_map events_at stations.now) most fabric.old fabric.new) }
{
    for _ in 0..most {
        let moved = sweep(fabric, stations)?;
        if !moved {
            return Ok(());
        }
    }
    Ok(())
}
