//! Laws of the fabric's definitions. Each is the contract of a function that does nothing.

ghost use Rattle.std.specs.Prelude.{◌≡◌, ◌≤◌, ℕ, IsSome, List, Some, length, slice_get, true};
ghost use Rattle.fab_types.specs.declared.class.Class.TheVariants.{Completion, NonPosted};
ghost use Rattle.frame_log.specs.Descriptor.{Descriptor};
ghost use Rattle.fab_types.specs.declared.outcome.Outcome.{Outcome};
ghost use Rattle.fab_types.specs.declared.place.Place.{Place};
ghost use Rattle.domain.specs.Consumed.{is_in_order};
ghost use Rattle.domain.specs.Orders.{IsPosted};
ghost use Rattle.domain.specs.Sent.{Sent, sent};
ghost use Rattle.domain_state.specs.State.{item_at};
ghost use Rattle.domain.specs.declared.entry.Entry.TheVariants.{Refuse};
ghost use Rattle.domain.specs.Domains.{DomainView};
ghost use Rattle.platform.specs.Platform.{Platform};
ghost use Rattle.layout.specs.Laws.{IsPlatform};
ghost use Rattle.guarded_routes.specs.Guarded.{IsGuarded};
ghost use Rattle.lane.specs.Lanes.{class_of};
ghost use Rattle.domains.specs.Domains.{Made, made};
ghost use Rattle.fabric_core.specs.declared.event.Event.{Event};
ghost use Rattle.fabric_core.specs.declared.station.Station.{Station};
ghost use Rattle.fabric_core.specs.Events.{effect};
ghost use Rattle.fabric_core.specs.Invariant.{IsFabric, IsConsistent};
ghost use Rattle.fabric_core.specs.Isolation.{IsApart};
ghost use Rattle.fabric_core.specs.MovesLeft.{MovesEnd};
ghost use Rattle.fabric_core.specs.Orders.{AreOrdered, GoesBy, KeepsToWay, StayOrdered, OrderOf};
ghost use Rattle.fabric_core.specs.Places.{HaveOnePlace, IsFlown};
ghost use Rattle.fabric_core.specs.Runs.{Run};
ghost use Rattle.fabric_core.specs.Soundness.{IsGuardedFabric};
ghost use Rattle.fabric_core.specs.Still.{Concludes, HasStation, IsIdleAt, IsStationOf, IsStill, NeverBlocks};
ghost use Rattle.fabric_core.specs.TakenOut.{CanBeLeft, CannotTell};
ghost use Rattle.fabric_core.specs.World.{World, is_guarded, world_of};

/// Every event keeps what a fabric keeps.
/// Each packet in flight stands in exactly one place, or was lost as an alien packet, which in a guarded layout
/// none is.
pub fn every_event_keeps_the_invariant()
    ensures { (old new : World) (event : Event) → IsConsistent old → effect old event ≡ Some new → IsConsistent new }
{}

/// Of what a port stops, only non-posted requests are answered, and by completions.
/// What a port stops is what its home has refused there.
pub fn only_non_posted_are_answered()
    ensures { (domains : List DomainView) (frame : Descriptor) (m : Made) → IsFlown domains frame → made domains frame.domain (Refuse frame.number) ≡ Some m → (answer : Descriptor) → m.sent ≡ Some answer → (class_of frame ≡ NonPosted) × (class_of answer ≡ Completion) }
{}

/// A guarded layout's fabric is a guarded fabric at its start.
/// Nothing is on its way in it.
pub fn fabrics_start_sound()
    ensures { (platform : Platform) → IsGuarded platform → IsGuardedFabric (world_of platform) }
{}

/// Every event keeps a guarded fabric.
/// Each packet goes on to where somebody has a case for it, and none is ever stray.
pub fn guarded_fabrics_stay_sound()
    ensures { (old new : World) (event : Event) → IsConsistent old → IsGuardedFabric old → effect old event ≡ Some new → IsGuardedFabric new }
{}

/// In a guarded fabric every event leaves foreign domains as they were.
/// Of each domain that it is foreign to these stay: the state, the journal, and the place of each packet. In
/// its own domain it makes at most one entry.
pub fn events_leave_other_domains_alone()
    ensures { (old new : World) (event : Event) → IsFabric old → is_guarded old ≡ true → effect old event ≡ Some new → IsApart old event new }
{}

/// In a guarded fabric each packet has one place, or was consumed.
/// Of each packet that a domain made one of these holds:
///
/// - It is in flight, and stands in exactly one place with the head that its bytes give.
/// - Exactly one entry of its domain's journal consumed it, and it stands nowhere.
pub fn packets_have_one_place()
    ensures { (w : World) → IsFabric w → is_guarded w ≡ true → HaveOnePlace w }
{}

/// Two packets that keep their order stay in turn (PCIe 4.0, 2.4.1).
/// They are of one domain, and stand in turn on the way that they go. So they do after every event of a guarded
/// fabric while the first is in flight: wherever either moves, the second never passes the first. No entry of
/// the domain's journal consumes the second before one consumes the first.
pub fn packets_keep_their_order()
    ensures { (old new : World) (event : Event) (fabric : IsFabric old) (guarded : is_guarded old ≡ true) → effect old event ≡ Some new
        → (place : ℕ) (d d' : DomainView) → slice_get old.agents.domains place ≡ Some d → slice_get new.agents.domains place ≡ Some d'
        → (n m : ℕ) (pair : AreOrdered d n m) → IsSome (item_at d.state.flight n) → (places : List Place) → GoesBy (fabric.guarded guarded).platform d.share.domain pair.first places
        → OrderOf old d places n m → is_in_order n m d.journal ≡ true → StayOrdered new d' places n m }
{}

/// A posted packet that stands on its way stays on it.
/// It stands there, and nowhere else. So it does after every event of a guarded fabric while it is in flight.
pub fn posted_packets_keep_to_their_way()
    ensures { (old new : World) (event : Event) (fabric : IsFabric old) (guarded : is_guarded old ≡ true) → effect old event ≡ Some new
        → (place : ℕ) (d d' : DomainView) → slice_get old.agents.domains place ≡ Some d → slice_get new.agents.domains place ≡ Some d'
        → (n : ℕ) (packet : Sent) → slice_get (sent d.share d.journal) n ≡ Some packet → IsPosted packet.emission → IsSome (item_at d.state.flight n)
        → (places : List Place) → GoesBy (fabric.guarded guarded).platform d.share.domain packet places → KeepsToWay old d places n
        → IsSome (item_at d'.state.flight n) → KeepsToWay new d' places n }
{}

/// A new packet stands in turn with a posted one before it.
/// A domain makes it, it is to keep its order behind that posted one, and that stands on its way. They stand in
/// turn from the event on that makes it.
pub fn new_packets_stand_behind()
    ensures { (old new : World) (event : Event) (fabric : IsFabric old) (guarded : is_guarded old ≡ true) → effect old event ≡ Some new
        → (place : ℕ) (d d' : DomainView) → slice_get old.agents.domains place ≡ Some d → slice_get new.agents.domains place ≡ Some d'
        → (n m : ℕ) (pair : AreOrdered d' n m) → length (sent d.share d.journal) ≤ m → IsSome (item_at d.state.flight n) → IsSome (item_at d'.state.flight n)
        → (places : List Place) → GoesBy (fabric.guarded guarded).platform d.share.domain pair.first places → KeepsToWay old d places n → OrderOf new d places n m }
{}

/// Every event keeps a fabric, of any layout.
/// It keeps what `every_event_keeps_the_invariant` says, and that on every direction credits bound what travels
/// and waits. In a guarded layout it also keeps that each packet is where
/// somebody has a case for it, that each posted packet in flight stands on its way, and that two packets of a
/// domain that keep their order are in turn there, and were consumed in it.
pub fn every_event_keeps_a_fabric()
    ensures { (old new : World) (event : Event) → IsFabric old → effect old event ≡ Some new → IsFabric new }
{}

/// In a guarded fabric other domains' events can be taken out of any run.
/// The fabric is that of a guarded layout, from its start. A domain's events that moved are run alone, with those that tell
/// credits. If no memory is refused to that second run, each of them moves again, and the domain has the same
/// state, journal, packets and violations in the end: it can't tell the other domains from none.
pub fn other_domains_can_be_taken_out()
    ensures { (platform : Platform) → IsGuarded platform → (events : List Event) (outcomes : List Outcome) (first : World)
        → Run (world_of platform) events outcomes first → (d : ℕ) → CannotTell d (world_of platform) events outcomes first }
{}

/// What `other_domains_can_be_taken_out` leaves of a run can be run.
/// There is a run of it from the same start in which no event is refused memory.
pub fn what_is_left_can_be_run()
    ensures { (platform : Platform) → IsGuarded platform → (events : List Event) (outcomes : List Outcome) (first : World)
        → Run (world_of platform) events outcomes first → (d : ℕ) → CanBeLeft d (world_of platform) events outcomes }
{}

/// Where nothing can move any more, no packet is left, in any layout.
/// Take any run from where nothing was begun, whatever functions and hosts submit in it. If then no event but a begin
/// has an effect, no packet waits in an outbox or at either end of a link, and none is on a wire. So nobody can block
/// the fabric: while a packet stands anywhere, some event moves one, or returns credits.
pub fn still_is_empty()
    ensures { (platform : Platform) → IsPlatform platform → NeverBlocks (world_of platform) }
{}

/// In a guarded layout, where nothing can move any more, nothing is in flight.
/// So after any run from where nothing was begun each packet that a domain made was consumed by an entry of its
/// journal, if then no event but a begin has an effect.
pub fn still_is_consumed()
    ensures { (platform : Platform) → IsGuarded platform → Concludes (world_of platform) }
{}

/// Nothing can move in a fabric where nothing can move at its own stations.
/// Events of outboxes, ports, links and functions that it hasn't never have an effect, so the events of the stations that
/// it has are enough to look at.
pub fn nothing_moves_elsewhere()
    ensures { (w : World) → ((s : Station) → HasStation w s → IsIdleAt w s) → IsStill w }
{}

/// A fabric has the stations of its layout and no others, whatever was done.
/// Each is an outbox, a port or a function that the layout names, a direction of a link above one, or the host.
pub fn stations_are_those_of_the_layout()
    ensures { (platform : Platform) → IsPlatform platform → (events : List Event) → (outcomes : List Outcome) → (w : World) → Run (world_of platform) events outcomes w → (s : Station) → HasStation w s → IsStationOf platform s }
{}

/// Nobody keeps a fabric busy: without begins its moves end, in any layout.
/// Take any run from where nothing was begun. Each event that has an effect then, and is no begin, leaves fewer moves
/// (`moves_left`), whichever it is; a begin adds 330 at most. So for each begin that was accepted at most 330 other events
/// of the run moved anything. From wherever it led no more do than moves are left there, where nothing more begins.
pub fn moves_end()
    ensures { (platform : Platform) → IsPlatform platform → MovesEnd (world_of platform) }
{}
