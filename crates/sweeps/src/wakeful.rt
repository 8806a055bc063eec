//! Which stations of a sweep are awake.

ghost use Rattle.std.specs.Prelude.{◌≡◌, ◌<◌, ◌≤◌, ◌||◌, ℕ, All, IfOk, IfSome, Some, false, if◌then◌else◌, length, map, not, replicate, slice_get, slice_set, true};
ghost use Rattle.std.specs.List.{position};
ghost use Rattle.sweeps.specs.Waking.{changes_outbox};
ghost use Rattle.sweeps.specs.Asleep.{AreWithin, AreWoken, AreWokenBy, IsBegunAt, IsOutboxAt, IsSettledAt, IsUnblocked, Nowhere, are_blocked, has_moved, outbox_begun};

use crate::moves::Moves;
use crate::reach::changes_outbox;
use crate::watchpoint::Watchpoint;
use fab_types::NoMemory;
use fabric_core::{Event, Station};
use std::alloc::Global;

/// Which stations of a sweep are awake, by their places in it.
#[derive(Drop)]
pub(crate) struct Wakeful {
    /// May a station fall asleep? Not in a layout that isn't guarded, and no more once memory was refused to an event.
    pub(crate) may_sleep: bool,
    pub(crate) flags: Vec<bool>,
    /// At which of them something was tried in vain when they were visited last. All others that are asleep are quiet.
    pub(crate) blocked: Vec<bool>,
}

/// Wakes the stations at these places.
fn wake(flags: &mut Vec<bool>, places: &[usize])
    requires { All (λ place. place < length flags.old.items) places.now }
    ensures { AreWoken Nowhere true places.now flags.old.items flags.new.items }
{
    for place in places {
        flags[*place] = true;
    }
}

fn wake_at(is_blocked: bool, flags: &mut Vec<bool>, place: usize)
    requires { place < length flags.old.items }
    ensures { flags.new.items ≡ (if is_blocked then slice_set flags.old.items place true else flags.old.items) }
{
    if is_blocked {
        flags[place] = true;
    }
}

/// Wakes those of them that are blocked: a place that is free now is nothing to a quiet station.
fn wake_blocked(flags: &mut Vec<bool>, blocked: &[bool], places: &[usize])
    requires within { All (λ place. place < length flags.old.items) places.now }
    requires blocked { length blocked.now ≡ length flags.old.items }
    ensures { AreWoken (IsUnblocked blocked.now) true places.now flags.old.items flags.new.items }
{
    for place in places {
        wake_at(blocked[*place], flags, *place);
    }
}

/// Wakes them if something moved.
fn wake_if(moved: bool, flags: &mut Vec<bool>, places: &[usize])
    requires { All (λ place. place < length flags.old.items) places.now }
    ensures { AreWoken Nowhere moved places.now flags.old.items flags.new.items }
{
    if moved {
        wake(flags, places);
    }
}

/// Wakes those of them that are blocked, if something moved.
fn wake_blocked_if(moved: bool, flags: &mut Vec<bool>, blocked: &[bool], places: &[usize])
    requires within { All (λ place. place < length flags.old.items) places.now }
    requires blocked { length blocked.now ≡ length flags.old.items }
    ensures { AreWoken (IsUnblocked blocked.now) moved places.now flags.old.items flags.new.items }
{
    if moved {
        wake_blocked(flags, blocked, places);
    }
}

/// Does a station stay awake at which this moved? Where nothing did it falls asleep, if it may.
fn stays_awake(moves: Moves, may_sleep: bool) -> bool
    ensures { result ≡ (not may_sleep || has_moved moves) }
{
    !may_sleep || moves.any()
}

/// Wakes whom a visit may have woken. The station itself stays awake or falls asleep.
fn settle_flags(
    watchpoint: &Watchpoint,
    place: usize,
    moves: Moves,
    may_sleep: bool,
    blocked: &[bool],
    flags: &mut Vec<bool>,
)
    requires place { place < length flags.old.items }
    requires blocked { length blocked.now ≡ length flags.old.items }
    requires within { AreWithin (length flags.old.items) watchpoint.now }
    ensures { IsSettledAt watchpoint.now place moves may_sleep blocked.now flags.old.items flags.new.items }
{
    wake_if(moves.taken, flags, &watchpoint.by_taking);
    wake_blocked_if(moves.taken, flags, blocked, &watchpoint.by_freeing);
    wake_if(moves.received, flags, &watchpoint.by_receiving);
    wake_if(moves.updated, flags, &watchpoint.by_updating);
    flags[place] = stays_awake(moves, may_sleep);
}

/// The first place from this one on whose station is awake, or how many places there are.
pub(crate) fn next_awake(flags: &[bool], from: usize) -> usize
    requires { from ≤ length flags.now }
    ensures low { from ≤ result }
    ensures high { result ≤ length flags.now }
    ensures asleep { (place : ℕ) → from ≤ place → place < result → slice_get flags.now place ≡ Some false }
    ensures awake { result < length flags.now → slice_get flags.now result ≡ Some true }
{
    let mut place = from;
    while place < flags.len() && !flags[place] {
        place += 1;
    }
    place
}

/// The outbox in which waits what a begin sends.
fn outbox_begun(event: &Event) -> Option<Station>
    ensures { result ≡ outbox_begun event.now }
{
    match event {
        Event::Submit(function, _) => Some(Station::FunctionOutbox(*function)),
        Event::Tick(function) => Some(Station::FunctionOutbox(*function)),
        Event::Mmio(domain, _) => Some(Station::HostOutbox(*domain)),
        Event::Enter(_, _)
        | Event::Pass(_, _)
        | Event::Send(_, _)
        | Event::Take(_)
        | Event::Credit(_)
        | Event::Root(_)
        | Event::Arrive(_, _) => None,
    }
}

fn changed_by(watchpoints: &[Watchpoint], station: &Station) -> Option<usize>
    ensures { result ≡ position (λ watchpoint. changes_outbox station.now watchpoint.station) watchpoints.now }
{
    watchpoints
        .iter()
        .position(|watchpoint| changes_outbox(station, &watchpoint.station))
}

fn outbox_place(watchpoints: &[Watchpoint], outbox: &Station) -> Option<usize>
    ensures { IfSome result (IsOutboxAt watchpoints.now outbox.now) }
{
    changed_by(watchpoints, outbox)
}

/// The place of the outbox in which waits what a begin sends.
fn begun_place(watchpoints: &[Watchpoint], event: &Event) -> Option<usize>
    ensures { IfSome result (IsBegunAt watchpoints.now event.now) }
{
    let outbox = outbox_begun(event)?;
    outbox_place(watchpoints, &outbox)
}

impl Wakeful {
    /// All watchpoints, of which each may fall asleep or none.
    pub(crate) fn all(
        alloc: Global,
        watchpoints: &[Watchpoint],
        may_sleep: bool,
    ) -> Result<Wakeful, NoMemory>
        ensures may { IfOk result (λ awake. awake.may_sleep ≡ may_sleep) }
        ensures flags { IfOk result (λ awake. awake.flags.items ≡ map (λ watchpoint. true) watchpoints.now) }
        ensures blocked { IfOk result (λ awake. length awake.blocked.items ≡ length watchpoints.now) }
    {
        let flags = watchpoints.iter().map(|_| true).collect(alloc)?;
        let blocked = vec![in alloc; false; watchpoints.len()]?;
        Ok(Wakeful {
            may_sleep,
            flags,
            blocked,
        })
    }

    /// Settles who is awake after a visit of the watchpoint at this place.
    pub(crate) fn settle(&mut self, watchpoint: &Watchpoint, place: usize, moves: Moves)
        requires place { place < length self.old.flags.items }
        requires blocked { length self.old.blocked.items ≡ length self.old.flags.items }
        requires within { AreWithin (length self.old.flags.items) watchpoint.now }
        ensures may { self.new.may_sleep ≡ self.old.may_sleep }
        ensures blocked { self.new.blocked.items ≡ slice_set self.old.blocked.items place (are_blocked moves) }
        ensures settled { IsSettledAt watchpoint.now place moves self.old.may_sleep self.new.blocked.items self.old.flags.items self.new.flags.items }
    {
        self.blocked[place] = moves.are_blocked();
        let may_sleep = self.may_sleep;
        settle_flags(
            watchpoint,
            place,
            moves,
            may_sleep,
            &self.blocked,
            &mut self.flags,
        );
    }

    /// Wakes all.
    pub(crate) fn wake_all(&mut self)
        ensures may { self.new.may_sleep ≡ self.old.may_sleep }
        ensures blocked { self.new.blocked.items ≡ self.old.blocked.items }
        ensures flags { self.new.flags.items ≡ replicate (length self.old.flags.items) true }
    {
        self.flags.fill(true);
    }

    /// After an event wakes whom it may have woken. A begin puts what it sends into an outbox, so whom that may wake is found
    /// by its watchpoint.
    pub(crate) fn wake_begun(&mut self, watchpoints: &[Watchpoint], event: &Event)
        requires all { length self.old.flags.items ≡ length watchpoints.now }
        requires within { All (AreWithin (length watchpoints.now)) watchpoints.now }
        ensures may { self.new.may_sleep ≡ self.old.may_sleep }
        ensures blocked { self.new.blocked.items ≡ self.old.blocked.items }
        ensures woken { AreWokenBy watchpoints.now event.now self.old.flags.items self.new.flags.items }
    {
        match begun_place(watchpoints, event) {
            Some(place) => wake(&mut self.flags, &watchpoints[place].by_taking),
            None => self.wake_all(),
        }
    }

    /// Wakes all, and lets none fall asleep any more.
    pub(crate) fn keep_awake(&mut self)
        ensures may { self.new.may_sleep ≡ false }
        ensures blocked { self.new.blocked.items ≡ self.old.blocked.items }
        ensures flags { self.new.flags.items ≡ replicate (length self.old.flags.items) true }
    {
        self.may_sleep = false;
        self.flags.fill(true);
    }
}
