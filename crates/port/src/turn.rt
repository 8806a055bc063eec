//! One turn of a port, over lanes of any kind.

ghost use Rattle.std.specs.Prelude.{◌≡◌, ◌≢◌, ◌⊎◌, ◌+◌, ◌≤◌, Some, None, IfSome, IsSome, true, false, length, map};
ghost use Rattle.fab_types.specs.declared.violation.Violation.{Violation};
ghost use Rattle.lane.specs.Lanes.{class_of, eligible};
ghost use Rattle.port.specs.Steps.{IsOfTurn};
ghost use Rattle.port.specs.Blocked.{course_is_blocked, is_blocked, may_refuse_at};
ghost use Rattle.port.specs.Wants.{Awaits, WantsMemory};
ghost use Rattle.port.specs.Turns.{Advanced, Moves, Rests, Stops, sight_of, sight_with, counts_of};

use crate::course::Forwarding;
use crate::port::Port;
use crate::slots::{answer_waits_at, forward_at, refuse_at, settle_at};
use crate::steps::{Refusal, prepare, report_or_hold, stray, tell};
use bridge::Bridge;
use fab_types::{Class, Outcome, Violation};
use lane::{Desk, LaneIn, Reporter};
use switch_output::LaneOut;

/// All that a turn reaches.
/// That is the switches, the lane in, the lanes out of the switch (out of its upstream port, and then out of
/// each of its downstream ports, in the layout's order), and whom the port asks and tells.
#[derive(Drop)]
pub struct TurnParts<'a, I, O, D, R> {
    /// The switches of the layout.
    pub bridge: &'a Bridge,
    /// The lane in.
    pub input: &'a mut I,
    /// The lanes out of the switch.
    pub outs: &'a mut [O],
    /// Whom the port asks to refuse a packet.
    pub desk: &'a mut D,
    /// Whom the port tells of violations.
    pub reporter: &'a mut R,
}

/// Has the eligible packet refused, and a violation reported.
fn stop<I: LaneIn, O: LaneOut, D: Desk, R: Reporter>(
    port: &mut Port,
    class: Class,
    report: Option<Violation>,
    bridge: &Bridge,
    input: &mut I,
    outs: &mut [O],
    desk: &mut D,
    reporter: &mut R,
) -> Outcome
    requires lanes { length outs.old ≡ length port.old.config.exits + 1 }
    requires held { port.old.held ≡ None }
    requires kept { port.old.kept ≡ None }
    ensures moved { result ≡ Outcome.Moved → Stops D.refuses D.unknown port.old.config class report (sight_with (I.waiting input.old) (map O.sent outs.old) (D.known desk.old) (R.reported reporter.old) port.old) (sight_with (I.waiting input.new) (map O.sent outs.new) (D.known desk.new) (R.reported reporter.new) port.new) }
    ensures rests { result ≢ Outcome.Moved → sight_with (I.waiting input.new) (map O.sent outs.new) (D.known desk.new) (R.reported reporter.new) port.new ≡ sight_with (I.waiting input.old) (map O.sent outs.old) (D.known desk.old) (R.reported reporter.old) port.old }
    ensures cause { result ≡ Outcome.Idle → (I.misses input.new ≢ I.misses input.old) ⊎ (map O.refusals outs.new ≢ map O.refusals outs.old) }
    ensures blocked { result ≡ Outcome.Idle → (eligible class (I.waiting input.old) ≡ None) ⊎ (course_is_blocked (map O.may_refuse outs.old) port.old.config.own class (Forwarding.Stop report) ≡ true) }
    ensures free { O.is_sure ≡ true → result ≢ Outcome.Idle → course_is_blocked (map O.may_refuse outs.old) port.old.config.own class (Forwarding.Stop report) ≡ false }
    ensures memory { result ≡ Outcome.NoMemory → IsSome report ⊎ Awaits class (I.waiting input.old) (λ f. D.wants (D.known desk.old) f port.old.config.id ⊎ D.unknown (D.known desk.old) f port.old.config.id) }
    ensures kept { IfSome port.new.kept (λ answer. may_refuse_at (map O.may_refuse outs.old) port.old.config.own (class_of answer) ≡ true) }
    ensures held { R.is_sure ≡ true → port.new.held ≡ None }
    ensures answer { IsOfTurn result }
    ensures config { port.new.config ≡ port.old.config }
    ensures same_lanes { (I.lane input.new ≡ I.lane input.old) × (map O.lane outs.new ≡ map O.lane outs.old) }
    ensures same_line { R.line reporter.new ≡ R.line reporter.old }
{
    // Only where the packet can be refused is memory asked for.
    if answer_waits_at(outs, port.own, class) {
        return Outcome::Idle;
    }
    if prepare(reporter, &report).is_err() {
        return Outcome::NoMemory;
    }
    match refuse_at(
        input,
        outs,
        port.own,
        desk,
        bridge,
        &mut port.kept,
        &mut port.strays,
        port.id,
        class,
    ) {
        Refusal::Refused => {
            report_or_hold(reporter, &mut port.held, report);
            Outcome::Moved
        }
        Refusal::Strayed => Outcome::Moved,
        Refusal::Idle => Outcome::Idle,
        Refusal::NoMemory => Outcome::NoMemory,
    }
}

/// Moves the eligible packet as its course says, where nothing was held or kept.
fn proceed<I: LaneIn, O: LaneOut, D: Desk, R: Reporter>(
    port: &mut Port,
    class: Class,
    bridge: &Bridge,
    input: &mut I,
    outs: &mut [O],
    desk: &mut D,
    reporter: &mut R,
) -> Outcome
    requires lanes { length outs.old ≡ length port.old.config.exits + 1 }
    requires held { port.old.held ≡ None }
    requires kept { port.old.kept ≡ None }
    ensures moved { result ≡ Outcome.Moved → Advanced D.refuses D.unknown bridge.now port.old.config class (sight_with (I.waiting input.old) (map O.sent outs.old) (D.known desk.old) (R.reported reporter.old) port.old) (sight_with (I.waiting input.new) (map O.sent outs.new) (D.known desk.new) (R.reported reporter.new) port.new) }
    ensures rests { result ≢ Outcome.Moved → sight_with (I.waiting input.new) (map O.sent outs.new) (D.known desk.new) (R.reported reporter.new) port.new ≡ sight_with (I.waiting input.old) (map O.sent outs.old) (D.known desk.old) (R.reported reporter.old) port.old }
    ensures cause { result ≡ Outcome.Idle → (I.misses input.new ≢ I.misses input.old) ⊎ (map O.refusals outs.new ≢ map O.refusals outs.old) }
    ensures blocked { result ≡ Outcome.Idle → is_blocked bridge.now port.old.config (map O.may_refuse outs.old) class (I.waiting input.old) ≡ true }
    ensures free { O.is_sure ≡ true → result ≢ Outcome.Idle → is_blocked bridge.now port.old.config (map O.may_refuse outs.old) class (I.waiting input.old) ≡ false }
    ensures memory { result ≡ Outcome.NoMemory → WantsMemory D.wants D.unknown bridge.now port.old.config (D.known desk.old) class (I.waiting input.old) }
    ensures kept { IfSome port.new.kept (λ answer. may_refuse_at (map O.may_refuse outs.old) port.old.config.own (class_of answer) ≡ true) }
    ensures held { R.is_sure ≡ true → port.new.held ≡ None }
    ensures answer { IsOfTurn result }
    ensures config { port.new.config ≡ port.old.config }
    ensures same_lanes { (I.lane input.new ≡ I.lane input.old) × (map O.lane outs.new ≡ map O.lane outs.old) }
    ensures same_line { R.line reporter.new ≡ R.line reporter.old }
{
    let Some(head) = input.head(class) else {
        return Outcome::Idle;
    };
    match port.course(bridge, &head) {
        Forwarding::To(lane) => { forward_at(input, outs, lane, &mut port.strays, bridge, class) }
        Forwarding::Stop(report) => stop(port, class, report, bridge, input, outs, desk, reporter),
        Forwarding::NoCase => stray(input, &mut port.strays, class),
    }
}

/// Tries what was held and kept, and then moves the eligible packet.
fn advance<I: LaneIn, O: LaneOut, D: Desk, R: Reporter>(
    port: &mut Port,
    class: Class,
    bridge: &Bridge,
    input: &mut I,
    outs: &mut [O],
    desk: &mut D,
    reporter: &mut R,
) -> Outcome
    requires { length outs.old ≡ length port.old.config.exits + 1 }
    ensures moved { result ≡ Outcome.Moved → Moves D.refuses D.unknown bridge.now port.old.config class (sight_with (I.waiting input.old) (map O.sent outs.old) (D.known desk.old) (R.reported reporter.old) port.old) (sight_with (I.waiting input.new) (map O.sent outs.new) (D.known desk.new) (R.reported reporter.new) port.new) }
    ensures rests { result ≢ Outcome.Moved → Rests port.old.config.own (sight_with (I.waiting input.old) (map O.sent outs.old) (D.known desk.old) (R.reported reporter.old) port.old) (sight_with (I.waiting input.new) (map O.sent outs.new) (D.known desk.new) (R.reported reporter.new) port.new) }
    ensures waits { (v : Violation) → port.old.held ≡ Some v → (I.waiting input.new ≡ I.waiting input.old) × (map O.sent outs.new ≡ map O.sent outs.old) }
    ensures cause { result ≡ Outcome.Idle → (I.misses input.new ≢ I.misses input.old) ⊎ ((map O.refusals outs.new ≢ map O.refusals outs.old) ⊎ (R.refusals reporter.new ≢ R.refusals reporter.old)) }
    ensures blocked { port.old.held ≡ None → port.old.kept ≡ None → result ≡ Outcome.Idle → is_blocked bridge.now port.old.config (map O.may_refuse outs.old) class (I.waiting input.old) ≡ true }
    ensures free { O.is_sure ≡ true → port.old.held ≡ None → port.old.kept ≡ None → result ≢ Outcome.Idle → is_blocked bridge.now port.old.config (map O.may_refuse outs.old) class (I.waiting input.old) ≡ false }
    ensures memory { result ≡ Outcome.NoMemory → WantsMemory D.wants D.unknown bridge.now port.old.config (D.known desk.old) class (I.waiting input.old) }
    ensures kept { port.old.kept ≡ None → IfSome port.new.kept (λ answer. may_refuse_at (map O.may_refuse outs.old) port.old.config.own (class_of answer) ≡ true) }
    ensures held { R.is_sure ≡ true → port.old.held ≡ None → port.new.held ≡ None }
    ensures answer { IsOfTurn result }
    ensures config { port.new.config ≡ port.old.config }
    ensures same_lanes { (I.lane input.new ≡ I.lane input.old) × (map O.lane outs.new ≡ map O.lane outs.old) }
    ensures same_line { R.line reporter.new ≡ R.line reporter.old }
{
    if port.held.is_some() {
        return tell(reporter, &mut port.held);
    }
    if !settle_at(outs, port.own, &mut port.kept) {
        return Outcome::Idle;
    }
    proceed(port, class, bridge, input, outs, desk, reporter)
}

impl Port {
    /// One turn of the port: it moves at most one packet of the class. A report that came back is
    /// tried first, and while it comes back nothing else moves; then an answer that came back. Then the
    /// eligible packet of the class goes down the lane that its course names, is refused by the domain
    /// that made it, or is kept as one that the port has no case for. `Moved`: a packet left the lane in,
    /// or a held report was taken. `Idle`: the lane lent no head, a lane was full, or one gave a packet
    /// or the reporter a report back. `NoMemory`: memory was refused; then the packet stays where it was.
    ///
    /// Over lanes and a reporter that are sure, a turn that begins with nothing held and nothing kept holds no
    /// report, keeps an answer only where the port's own lane has no place for its class, and is `Idle` exactly
    /// where it is blocked: no packet of the class is eligible, the lane that its course names has no place for
    /// it, or the port's own lane has none for the answer to a non-posted request that it stops.
    pub fn turn<I: LaneIn, O: LaneOut, D: Desk, R: Reporter>(
        &mut self,
        class: Class,
        parts: &mut TurnParts<'_, I, O, D, R>,
    ) -> Outcome
        requires { length parts.old.outs.now ≡ length self.old.config.exits + 1 }
        ensures moved { result ≡ Outcome.Moved → Moves D.refuses D.unknown parts.old.bridge.now self.old.config class (sight_of I.waiting O.sent D.known R.reported self.old parts.old) (sight_of I.waiting O.sent D.known R.reported self.new parts.new) }
        ensures rests { result ≢ Outcome.Moved → Rests self.old.config.own (sight_of I.waiting O.sent D.known R.reported self.old parts.old) (sight_of I.waiting O.sent D.known R.reported self.new parts.new) }
        ensures waits { (v : Violation) → self.old.held ≡ Some v → (I.waiting parts.new.input.now ≡ I.waiting parts.old.input.now) × (map O.sent parts.new.outs.now ≡ map O.sent parts.old.outs.now) }
        ensures cause { result ≡ Outcome.Idle → counts_of I.misses O.refusals R.refusals parts.new ≢ counts_of I.misses O.refusals R.refusals parts.old }

        // A turn that begins with nothing held and nothing kept is idle only where it is blocked, and always
        // there if the lanes are sure.
        ensures blocked { self.old.held ≡ None → self.old.kept ≡ None → result ≡ Outcome.Idle → is_blocked parts.old.bridge.now self.old.config (map O.may_refuse parts.old.outs.now) class (I.waiting parts.old.input.now) ≡ true }
        ensures free { O.is_sure ≡ true → self.old.held ≡ None → self.old.kept ≡ None → result ≢ Outcome.Idle → is_blocked parts.old.bridge.now self.old.config (map O.may_refuse parts.old.outs.now) class (I.waiting parts.old.input.now) ≡ false }

        // Memory is wanted only for an eligible packet that is stopped, or kept as a stray: never for one that is forwarded.
        ensures memory { result ≡ Outcome.NoMemory → WantsMemory D.wants D.unknown parts.old.bridge.now self.old.config (D.known parts.old.desk.now) class (I.waiting parts.old.input.now) }

        // An answer is kept only where the port's own lane, as it was before the turn, may refuse its class.
        ensures kept { self.old.kept ≡ None → IfSome self.new.kept (λ answer. may_refuse_at (map O.may_refuse parts.old.outs.now) self.old.config.own (class_of answer) ≡ true) }
        ensures held { R.is_sure ≡ true → self.old.held ≡ None → self.new.held ≡ None }

        ensures answer { IsOfTurn result }
        ensures config { self.new.config ≡ self.old.config }
        ensures same_lanes { (I.lane parts.new.input.now ≡ I.lane parts.old.input.now) × (map O.lane parts.new.outs.now ≡ map O.lane parts.old.outs.now) }
        ensures same_line { R.line parts.new.reporter.now ≡ R.line parts.old.reporter.now }
        ensures same_input { parts.new.input.ghost_name ≡ parts.old.input.ghost_name }
        ensures same_outs { parts.new.outs.ghost_name ≡ parts.old.outs.ghost_name }
        ensures same_desk { parts.new.desk.ghost_name ≡ parts.old.desk.ghost_name }
        ensures same_reporter { parts.new.reporter.ghost_name ≡ parts.old.reporter.ghost_name }
    {
        advance(
            self,
            class,
            parts.bridge,
            parts.input,
            parts.outs,
            parts.desk,
            parts.reporter,
        )
    }
}
