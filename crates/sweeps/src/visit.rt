//! Visits of stations that are awake.

ghost use Rattle.std.specs.Prelude.{◌≡◌, All, IfOk, OnErr, Some, length, slice_get, true};
ghost use Rattle.fabric_core.specs.Stations.{events_at, is_quiet};
ghost use Rattle.sweeps.specs.Asleep.{AreAsleep, AreWithin, IsVisit, receiving_at, updating_at};
ghost use Rattle.sweeps.specs.Sweeps.{CutShort, Sweeps};

use crate::moves::Moves;
use crate::sweep::{make, make_taking, take_each};
use crate::wakeful::Wakeful;
use crate::watchpoint::Watchpoint;
use fab_types::NoMemory;
use fabric_core::{Event, Fabric, Station};

/// On a direction of a link the receiver gets the oldest packet of the wire.
fn receive(fabric: &mut Fabric, station: &Station) -> Result<bool, NoMemory>
    ensures made { IfOk result (λ received. Sweeps (receiving_at station.now) fabric.old received fabric.new) }
    ensures cut_short { OnErr result (CutShort (receiving_at station.now) fabric.old fabric.new) }
{
    match station {
        Station::Link(direction) => make_taking(fabric, &Event::Take(*direction)),
        Station::FunctionOutbox(_)
        | Station::HostOutbox(_)
        | Station::Port(_)
        | Station::Host
        | Station::Function(_) => Ok(false),
    }
}

/// And its sender gets credits back.
fn send_update_fc(fabric: &mut Fabric, station: &Station) -> Result<bool, NoMemory>
    ensures made { IfOk result (λ updated. Sweeps (updating_at station.now) fabric.old updated fabric.new) }
    ensures cut_short { OnErr result (CutShort (updating_at station.now) fabric.old fabric.new) }
{
    match station {
        Station::Link(direction) => make(fabric, &Event::Credit(*direction)),
        Station::FunctionOutbox(_)
        | Station::HostOutbox(_)
        | Station::Port(_)
        | Station::Host
        | Station::Function(_) => Ok(false),
    }
}

/// Makes the events of a station in turn. What moved? Where the station is quiet nothing would, and none is tried. Where
/// something was tried in vain at the last visit it mostly waits there still, so it is asked first what waits for a place.
fn make_all(fabric: &mut Fabric, station: &Station, was_blocked: bool) -> Result<Moves, NoMemory>
    ensures made { IfOk result (λ moves. IsVisit station.now fabric.old moves fabric.new) }
    ensures quiet { IfOk result (λ moves. moves.was_quiet ≡ true → is_quiet fabric.new station.now ≡ true) }
    ensures cut_short { OnErr result (CutShort (events_at station.now) fabric.old fabric.new) }
{
    if !was_blocked && fabric.is_quiet(station) {
        return Ok(Moves::NONE);
    }
    let taken = take_each(fabric, station, was_blocked)?;
    let received = receive(fabric, station)?;
    let updated = send_update_fc(fabric, station)?;
    Ok(Moves {
        taken,
        received,
        updated,
        was_quiet: false,
    })
}

/// Makes the events of the station at a place in turn, and wakes whom they may have woken. Did any of them move something?
/// Where one was refused memory none falls asleep any more.
pub(crate) fn visit(
    fabric: &mut Fabric,
    watchpoints: &[Watchpoint],
    watchpoint: &Watchpoint,
    place: usize,
    awake: &mut Wakeful,
) -> Result<bool, NoMemory>
    requires watchpoint { slice_get watchpoints.now place ≡ Some watchpoint.now }
    requires within { All (AreWithin (length watchpoints.now)) watchpoints.now }
    requires asleep { AreAsleep watchpoints.now fabric.old awake.old }
    ensures made { IfOk result (λ moved. Sweeps (events_at watchpoint.now.station) fabric.old moved fabric.new) }
    ensures cut_short { OnErr result (CutShort (events_at watchpoint.now.station) fabric.old fabric.new) }
    ensures asleep { AreAsleep watchpoints.now fabric.new awake.new }
{
    match make_all(fabric, &watchpoint.station, awake.blocked[place]) {
        Ok(moves) => {
            awake.settle(watchpoint, place, moves);
            Ok(moves.any())
        }
        Err(fault) => {
            awake.keep_awake();
            Err(fault)
        }
    }
}
