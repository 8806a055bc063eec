//! The fabric: what each event does, and runs over lists of events.

ghost use Rattle.std.specs.Prelude.{◌≡◌, ◌≢◌, ◌↔◌, All, IfOk, OnErr, None, option_map, false, true};
ghost use Rattle.std.specs.List.{list_all};
ghost use Rattle.std.specs.Option.{option_copied};
ghost use Rattle.domains.specs.Agents.{AreReplayed};
ghost use Rattle.fab_types.specs.declared.outcome.Outcome.TheVariants.{Idle};
ghost use Rattle.platform.specs.Share.{is_guarded_port};
ghost use Rattle.domains.specs.Domains.{domain_at, place_of};
ghost use Rattle.fab_types.specs.declared.class.Class.{Class};
ghost use Rattle.fabric_core.specs.Credits.{HasCredits, HaveCredits, channel_of};
ghost use Rattle.fabric_core.specs.Events.{StepsTo, is_begin, takes_packet};
ghost use Rattle.fabric_core.specs.Isolation.{AreApart, IsApart, domain_of, home};
ghost use Rattle.fabric_core.specs.MovesLeft.{MovesEnd};
ghost use Rattle.fabric_core.specs.Orderly.{IsOrderly};
ghost use Rattle.fabric_core.specs.Orders.{AreInOrder};
ghost use Rattle.fabric_core.specs.Places.{AreFlown, ArePartition, ArePacketPlaces, HaveOnePlace};
ghost use Rattle.fabric_core.specs.Runs.{HaveBegun, Run};
ghost use Rattle.fabric_core.specs.EligibleClasses.{AreEligible, has};
ghost use Rattle.fabric_core.specs.Stations.{events_at, is_quiet, taking};
ghost use Rattle.fabric_core.specs.Still.{Concludes, NeverBlocks};
ghost use Rattle.fabric_core.specs.TakenOut.{NoneCanTell};
ghost use Rattle.fabric_core.specs.Trails.{standing_at};
ghost use Rattle.fabric_core.specs.Waits.{waits};
ghost use Rattle.fabric_core.specs.World.{is_guarded, world_of};

use crate::eligible_classes::eligible_classes;
use crate::event::Event;
use crate::laws::{
    every_event_keeps_a_fabric, moves_end, other_domains_can_be_taken_out, still_is_consumed,
    still_is_empty,
};
use crate::quiet::is_quiet;
use crate::station::Station;
use crate::step::step;
use crate::waits::waits;
use crate::whose::home;
use credit::Limits;
use domain::Domain;
use domains::Agents;
use fab_types::{Class, Direction, DomainId, NoMemory, Outcome, Place, PlacesFault, Violation};
use frame_log::Frame;
use interconnect::Interconnect;
use layout::Layout;
use packet_places::packet_places_of;
use port::Reports;
use port_queue::EligibleClasses;
use std::alloc::Global;
use std::marker::Model;

/// A fabric: the links and switches of a layout, and its domains.
/// It also has what the domains have emitted, the violations that its ports reported, and the packets that the
/// host or a function has no case for. A contract sees a `World`.
#[derive(Drop)]
pub struct Fabric {
    pub(crate) interconnect: Interconnect,
    pub(crate) agents: Agents,
    pub(crate) reports: Reports,
    pub(crate) strays: Vec<Frame>,
}

impl Model for Fabric {
    ghost use Rattle.fabric_core.specs.World.{World};

    ghost Value = { World };

    ghost use Rattle.fabric_core.specs.Invariant.{IsFabric};
    ghost use Rattle.fabric_core.specs.Kept.{world_in};

    ghost view = { world_in };

    ghost invariant = { λ f. IsFabric (world_in f) };
}

impl Fabric {
    /// The fabric of a layout, in which nothing was begun. It answers `NoMemory` where memory was refused. It
    /// is guarded where each downstream port of the layout has all five ACS controls set.
    ///
    /// In a guarded fabric no domain can tell the others from none. Take any list of events that is run from
    /// this start, whatever functions and hosts of other domains submit, spoof or address, and take all out
    /// that other domains do, and all that moves nothing. In a run of what is left, if no memory is refused to
    /// it, each event of the domain moves, and the domain ends with the same journal and state (memory,
    /// registers, records of completions, open Tags, counts, what is in flight), the same packets at the same
    /// places, and the same violations by its functions.
    ///
    /// In no fabric, guarded or not, can anybody block it. Take any run from this start after which no event but a
    /// begin would move anything: no packet is left anywhere. In a guarded fabric nothing is in flight then, so an
    /// entry of its domain's journal consumed each packet that was made.
    ///
    /// Nor can anybody keep it busy: in any run from this start at most 330 events move anything for each begin that was
    /// accepted, the begin itself aside. So where nothing more begins, it comes to a stop after so many events that move
    /// something, whichever are chosen.
    pub fn new(alloc: Global, layout: &Layout) -> Result<Fabric, NoMemory>
        ensures start { IfOk result (λ fabric. fabric ≡ world_of layout.now) }
        ensures guarded { IfOk result (λ fabric. is_guarded fabric ≡ list_all is_guarded_port layout.now.ports) }
        ensures isolated { IfOk result (λ fabric. is_guarded fabric ≡ true → NoneCanTell fabric) }
        ensures unblocked { IfOk result (λ fabric. NeverBlocks fabric) }
        ensures consumed { IfOk result (λ fabric. is_guarded fabric ≡ true → Concludes fabric) }
        ensures ends { IfOk result (λ fabric. MovesEnd fabric) }
    {
        // for the proof: what holds of every platform, what no domain can tell, and that nobody blocks the fabric or keeps it
        // busy
        let _ = layout.ports();
        other_domains_can_be_taken_out();
        still_is_empty();
        still_is_consumed();
        moves_end();
        Ok(Fabric {
            interconnect: Interconnect::new(alloc, layout)?,
            agents: Agents::new(alloc, layout)?,
            reports: Reports::new(alloc),
            strays: Vec::new(alloc),
        })
    }

    /// The domain of this number, if it owns a port of the layout.
    pub fn domain(&self, number: DomainId) -> Option<&Domain>
        ensures { option_copied result ≡ domain_at self.now.agents.domains (place_of self.now.agents.domains number) }
    {
        self.agents.domain(number)
    }

    /// All domains, by rising number.
    pub fn domains(&self) -> &[Domain]
        ensures { result.now ≡ self.now.agents.domains }
    {
        self.agents.domains()
    }

    /// The violations that ports reported (PCIe 4.0, 6.12.4), in the order of the events.
    pub fn violations(&self) -> &[Violation]
        ensures { result.now ≡ self.now.violations }
    {
        self.reports.violations()
    }

    /// The credits that a direction's sender knows to be left (PCIe 4.0, 2.6.1).
    /// There are none where the layout has no such link.
    ///
    /// Whatever was done before: of each kind they are within the receiver's start, so no counter is misread,
    /// and at most 127 packets of a class travel to the receiver and wait there.
    pub fn credits(&self, direction: Direction) -> Option<Limits>
        ensures value { result ≡ option_map (λ channel. channel.left) (channel_of self.now direction) }
        ensures bounded { HasCredits self.now direction }
    {
        let end = self.interconnect.sender(direction)?;
        Some(self.interconnect.credits_at(end))
    }

    /// Where the packets of a domain stand, by rising numbers.
    /// It is the number of each that waits in an outbox or at either end of a link, or is on a wire, with that
    /// place. Each of these is in flight. In a guarded fabric they are all that the domain has in flight, and
    /// each stands at that place alone. In another a domain may have more in flight that stands at no place: an
    /// entry of an alien packet took it, or nobody had a case for it.
    ///
    /// # Errors
    ///
    /// `NoDomain` exactly where the domain owns no port of the layout; `NoMemory` where memory for the answer
    /// was refused.
    pub fn places(&self, alloc: Global, domain: DomainId) -> Result<Vec<(u64, Place)>, PlacesFault>
        ensures domain { (result ≡ Err PlacesFault.NoDomain) ↔ (domain_of self.now domain ≡ None) }
        ensures places { IfOk result (λ named. ArePacketPlaces (standing_at self.now) domain named.items) }
        ensures flown { IfOk result (λ named. AreFlown self.now domain named.items) }
        ensures partition { is_guarded self.now ≡ true → IfOk result (λ named. ArePartition self.now domain named.items) }
    {
        if self.domain(domain).is_none() {
            return Err(PlacesFault::NoDomain);
        }
        match packet_places_of(&self.interconnect, &self.agents, alloc, domain) {
            Ok(named) => Ok(named),
            Err(_) => Err(PlacesFault::NoMemory),
        }
    }

    /// The domain that an event is of, as the fabric stands. A begin is of the domain whose function or host begins it,
    /// and an event that takes a packet is of that packet's home, the domain that made it, wherever the packet is and
    /// whoever takes it. None where the event returns credits, where there is nothing to take, and where no domain has the
    /// function or host. Where there is nothing to take the event would answer `Idle`.
    pub fn home(&self, event: &Event) -> Option<DomainId>
        ensures value { result ≡ home self.now event.now }
        ensures idle { takes_packet event.now ≡ true → result ≡ None → StepsTo self.now event.now Idle self.now }
    {
        home(&self.interconnect, &self.agents, event)
    }

    /// Of which classes a packet may leave this station (PCIe 4.0, 2.4.1).
    /// It is the station's oldest of the class, unless an older posted one waits there. An event that takes a
    /// packet of another class there would answer `Idle`.
    pub fn eligible_classes(&self, station: &Station) -> EligibleClasses
        ensures value { AreEligible self.now station.now result }
        ensures idle { (class : Class) → has result class ≡ false → StepsTo self.now (taking station.now class) Idle self.now }
    {
        eligible_classes(&self.interconnect, &self.agents, station)
    }

    /// Does the packet of a class that may leave this port wait for a place?
    /// It goes on by a lane of the port's switch that has none for its class, so an event that takes it there would answer
    /// `Idle`. At other stations, and where the layout has no such port, the answer is false.
    pub fn waits(&mut self, station: &Station, class: Class) -> bool
        ensures value { result ≡ waits self.old station.now class }
        ensures idle { result ≡ true → StepsTo self.old (taking station.now class) Idle self.old }
        ensures same { self.new ≡ self.old }
    {
        waits(&mut self.interconnect, station, class)
    }

    /// Can nothing move at this station, before something is put there? No packet may leave it, whatever its class, and
    /// the sender of a direction knows the receiver's credits. Then each event of the station would answer `Idle`. A
    /// station that the layout hasn't is quiet.
    pub fn is_quiet(&self, station: &Station) -> bool
        ensures value { result ≡ is_quiet self.now station.now }
        ensures idle { result ≡ true → All (λ event. StepsTo self.now event Idle self.now) (events_at station.now) }
    {
        is_quiet(&self.interconnect, &self.agents, station)
    }

    /// Makes one event, and says what came of it. `Moved`: the fabric did what the event does. `Idle`: there was
    /// nothing to take, or no place or no credits for it, or the layout has no such port, link, outbox or
    /// function. `Refused`: the domain refused the begin. `NoMemory`: memory was refused to an event that emits a
    /// packet, reports a violation, or makes an entry of an alien packet or keeps a stray one. All but `Moved` change
    /// nothing. A begin is never `Idle`, in any layout.
    ///
    /// In any layout no receive queue is overrun: on every direction of every link the credits that the sender has left,
    /// and the cost of all that travels to the receiver and waits there, are within what that advertised at the start
    /// (PCIe 4.0, 2.6.1), so that at most 127 packets of a class travel and wait.
    ///
    /// In a guarded fabric, whatever the event is, no packet is ever taken where nobody has a case for it, and each
    /// packet that a domain made stands in exactly one place, or was consumed by exactly one entry of its journal. There
    /// the event leaves every domain that it is foreign to as it was: its state, its journal, and the place of each of
    /// its packets. Of its own domain it makes at most one entry, and whether a begin is refused is said by that domain's
    /// share and state alone. And of each two packets of a domain that keep their order (PCIe 4.0, 2.4.1), a posted one and
    /// a later one from the same function, or from the host to the same function, the journal consumes the later one
    /// only after the posted one.
    pub fn step(&mut self, event: &Event) -> Outcome
        ensures steps { StepsTo self.old event.now result self.new }
        ensures begun { is_begin event.now ≡ true → result ≢ Idle }
        ensures bounded { HaveCredits self.new }
        ensures controls { is_guarded self.new ≡ is_guarded self.old }
        ensures guarded { is_guarded self.new ≡ true → IsOrderly self.new }
        ensures apart { is_guarded self.old ≡ true → IsApart self.old event.now self.new }
        ensures placed { is_guarded self.new ≡ true → HaveOnePlace self.new }
        ensures ordered { is_guarded self.new ≡ true → AreInOrder self.new }
    {
        // A law: what an event makes of a fabric is one.
        every_event_keeps_a_fabric();
        step(
            &mut self.interconnect,
            &mut self.agents,
            &mut self.reports,
            &mut self.strays,
            event,
        )
    }

    /// Makes the events in turn, and says what came of each. It answers `NoMemory` where memory for the answers
    /// was refused; then no event was made.
    ///
    /// Whatever the events are: the state of each domain is what its machine alone makes of its journal, which
    /// is legal, and to the begins in its journal its accepted ones were added, in their order; and no receive
    /// queue is overrun, as after each step. In a guarded fabric
    /// no packet was ever taken where nobody had a case for it: no port, host or function keeps a stray packet, and
    /// no domain has an entry of an alien one; each event left every domain that it was foreign to as it was; and no
    /// packet was lost or doubled: each that a domain made stands in exactly one place, or exactly one entry of its
    /// journal consumed it; and no packet that keeps its order behind a posted one was consumed before that.
    pub fn run(&mut self, alloc: Global, events: &[Event]) -> Result<Vec<Outcome>, NoMemory>
        ensures run { IfOk result (λ outcomes. Run self.old events.now outcomes.items self.new) }
        ensures begins { IfOk result (λ outcomes. HaveBegun events.now outcomes.items self.old.agents.domains self.new.agents.domains) }
        ensures alone { IfOk result (λ outcomes. AreReplayed self.new.agents.domains) }
        ensures bounded { IfOk result (λ outcomes. HaveCredits self.new) }
        ensures controls { is_guarded self.new ≡ is_guarded self.old }
        ensures guarded { IfOk result (λ outcomes. is_guarded self.new ≡ true → IsOrderly self.new) }
        ensures apart { IfOk result (λ outcomes. is_guarded self.old ≡ true → AreApart self.old events.now outcomes.items self.new) }
        ensures placed { IfOk result (λ outcomes. is_guarded self.new ≡ true → HaveOnePlace self.new) }
        ensures ordered { IfOk result (λ outcomes. is_guarded self.new ≡ true → AreInOrder self.new) }
        ensures err { OnErr result (self.new ≡ self.old) }
    {
        let mut outcomes = Vec::with_capacity(alloc, events.len())?;
        for event in events {
            let outcome = self.step(event);
            outcomes.push_reserved(outcome);
        }
        // for the proof: each state is the replay of its journal, and what a fabric keeps
        let _ = self.agents.domains();
        Ok(outcomes)
    }
}
