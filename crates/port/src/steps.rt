//! The steps of a turn, each over the parts that it changes.

ghost use Rattle.std.specs.Prelude.{◌≡◌, ◌≢◌, ◌⊎◌, ◌++◌, ◌∷◌, [], Some, None, IsSome, IfSome, OnErr, OnOk, true, false, ⊤, option_to_list};
ghost use Rattle.port.specs.Blocked.{may_refuse_answer};
ghost use Rattle.lane.specs.Lanes.{Class, class_of, eligible};
ghost use Rattle.port.specs.Steps.{Forwards, IsOfTurn, Refuses, Strays};
ghost use Rattle.switch_output.specs.Vetted.{frame_in, may_go_on};
ghost use Rattle.port.specs.Wants.{Awaits};

use bridge::Bridge;
use fab_types::{Class, NoMemory, Outcome, PortId, Violation};
use frame_log::{Frame, FrameFault};
use lane::{Desk, LaneIn, Reporter};
use switch_output::{LaneOut, VettedFrame};

/// Reports what there was no place for before.
pub(crate) fn tell<R: Reporter>(reporter: &mut R, held: &mut Option<Violation>) -> Outcome
    ensures moved { result ≡ Outcome.Moved → (v : Violation) × (held.old ≡ Some v) × (held.new ≡ None) × (R.reported reporter.new ≡ R.reported reporter.old ++ v ∷ []) }
    ensures rests { result ≢ Outcome.Moved → (held.new ≡ held.old) × (R.reported reporter.new ≡ R.reported reporter.old) }
    ensures cause { result ≡ Outcome.Idle → (held.old ≡ None) ⊎ (R.refusals reporter.new ≢ R.refusals reporter.old) }
    ensures memory { result ≢ Outcome.NoMemory }
    ensures answer { IsOfTurn result }
    ensures same_line { R.line reporter.new ≡ R.line reporter.old }
{
    let Some(violation) = held.take() else {
        return Outcome::Idle;
    };
    match reporter.report(violation) {
        Ok(()) => Outcome::Moved,
        Err(violation) => {
            *held = Some(violation);
            Outcome::Idle
        }
    }
}

/// Makes room for a report, if there is one.
pub(crate) fn prepare<R: Reporter>(
    reporter: &mut R,
    report: &Option<Violation>,
) -> Result<(), NoMemory>
    ensures reported { R.reported reporter.new ≡ R.reported reporter.old }
    ensures counted { R.refusals reporter.new ≡ R.refusals reporter.old }
    ensures room { R.is_sure ≡ true → OnOk result (IfSome report.now (λ _. R.has_room reporter.new ≡ true)) }
    ensures memory { OnErr result (IsSome report.now) }
    ensures same_line { R.line reporter.new ≡ R.line reporter.old }
{
    match report {
        Some(_) => reporter.prepare_report(),
        None => Ok(()),
    }
}

/// Reports a violation, if there is one. A report that comes back is held.
pub(crate) fn report_or_hold<R: Reporter>(
    reporter: &mut R,
    held: &mut Option<Violation>,
    report: Option<Violation>,
)
    requires { held.old ≡ None }
    ensures told { R.reported reporter.old ++ option_to_list report ≡ R.reported reporter.new ++ option_to_list held.new }
    ensures room { IfSome report (λ _. R.has_room reporter.old ≡ true) → held.new ≡ None }
    ensures same_line { R.line reporter.new ≡ R.line reporter.old }
{
    let Some(violation) = report else {
        return;
    };
    if let Err(violation) = reporter.report(violation) {
        *held = Some(violation);
    }
}

/// Puts the answer that was kept, if there is one. It answers false where the lane gave it back.
pub(crate) fn settle<O: LaneOut>(back: &mut O, kept: &mut Option<VettedFrame>) -> bool
    ensures put { result ≡ true → (kept.new ≡ None) × (O.sent back.new ≡ O.sent back.old ++ option_to_list (frame_in kept.old)) }
    ensures rests { result ≡ false → (kept.new ≡ kept.old) × (O.sent back.new ≡ O.sent back.old) × (O.refusals back.new ≢ O.refusals back.old) }
    ensures counted { result ≡ true → O.refusals back.new ≡ O.refusals back.old }
    ensures nothing_kept { kept.old ≡ None → back.new ≡ back.old }
    ensures lane { O.lane back.new ≡ O.lane back.old }
{
    let Some(answer) = kept.take() else {
        return true;
    };
    match back.push(answer) {
        Ok(()) => true,
        Err(answer) => {
            *kept = Some(answer);
            false
        }
    }
}

/// Keeps a packet that was just taken as one that the port has no case for.
fn keep_stray<I: LaneIn>(input: &mut I, strays: &mut Vec<Frame>, frame: Frame) -> Outcome
    requires { IsSome (I.restored input.old frame) }
    ensures moved { result ≡ Outcome.Moved → (I.waiting input.new ≡ I.waiting input.old) × (strays.new.items ≡ strays.old.items ++ frame ∷ []) }
    ensures rests { result ≢ Outcome.Moved → (I.restored input.old frame ≡ Some (I.waiting input.new)) × (strays.new.items ≡ strays.old.items) }
    ensures idle { result ≢ Outcome.Idle }
    ensures answer { IsOfTurn result }
    ensures counted { I.misses input.new ≡ I.misses input.old }
    ensures lane { I.lane input.new ≡ I.lane input.old }
{
    match strays.push(frame) {
        Ok(()) => Outcome::Moved,
        Err(failed) => {
            input.put_back(failed.value);
            Outcome::NoMemory
        }
    }
}

/// Moves the eligible packet of a class. One that may not go on is kept.
pub(crate) fn forward<I: LaneIn, O: LaneOut>(
    input: &mut I,
    out: &mut O,
    strays: &mut Vec<Frame>,
    bridge: &Bridge,
    class: Class,
) -> Outcome
    ensures moved { result ≡ Outcome.Moved → Forwards class (may_go_on bridge.now.ports) (I.waiting input.old) (O.sent out.old) strays.old.items (I.waiting input.new) (O.sent out.new) strays.new.items }
    ensures rests { result ≢ Outcome.Moved → (I.waiting input.new ≡ I.waiting input.old) × (O.sent out.new ≡ O.sent out.old) × (strays.new.items ≡ strays.old.items) }
    ensures cause { result ≡ Outcome.Idle → (I.misses input.new ≢ I.misses input.old) ⊎ (O.refusals out.new ≢ O.refusals out.old) }
    ensures blocked { result ≡ Outcome.Idle → (eligible class (I.waiting input.old) ≡ None) ⊎ (O.may_refuse out.old class ≡ true) }
    ensures free { O.is_sure ≡ true → result ≢ Outcome.Idle → O.may_refuse out.old class ≡ false }
    ensures memory { result ≡ Outcome.NoMemory → Awaits class (I.waiting input.old) (λ f. may_go_on bridge.now.ports f ≡ false) }
    ensures answer { IsOfTurn result }
    ensures input_lane { I.lane input.new ≡ I.lane input.old }
    ensures lane { O.lane out.new ≡ O.lane out.old }
{
    if out.is_full(class) {
        return Outcome::Idle;
    }
    let Some(frame) = input.take(class) else {
        // for the proof: the lane counts that it lent no head
        let _ = input.head(class);
        return Outcome::Idle;
    };
    match VettedFrame::new(frame, bridge) {
        Ok(packet) => match out.push(packet) {
            Ok(()) => Outcome::Moved,
            Err(packet) => {
                input.put_back(packet.into_frame());
                Outcome::Idle
            }
        },
        Err(frame) => keep_stray(input, strays, frame),
    }
}

/// Keeps the eligible packet of a class as one that the port has no case for.
pub(crate) fn stray<I: LaneIn>(input: &mut I, strays: &mut Vec<Frame>, class: Class) -> Outcome
    ensures moved { result ≡ Outcome.Moved → Strays class (λ _. ⊤) (I.waiting input.old) strays.old.items (I.waiting input.new) strays.new.items }
    ensures rests { result ≢ Outcome.Moved → (I.waiting input.new ≡ I.waiting input.old) × (strays.new.items ≡ strays.old.items) }
    ensures cause { result ≡ Outcome.Idle → I.misses input.new ≢ I.misses input.old }
    ensures blocked { result ≡ Outcome.Idle → eligible class (I.waiting input.old) ≡ None }
    ensures memory { result ≡ Outcome.NoMemory → Awaits class (I.waiting input.old) (λ _. ⊤) }
    ensures answer { IsOfTurn result }
    ensures input_lane { I.lane input.new ≡ I.lane input.old }
{
    let Some(frame) = input.take(class) else {
        // for the proof: the lane counts that it lent no head
        let _ = input.head(class);
        return Outcome::Idle;
    };
    keep_stray(input, strays, frame)
}

/// Has the lane no place for what answers a packet of this class? Only a non-posted request is answered.
pub(crate) fn answer_waits<O: LaneOut>(back: &mut O, class: Class) -> bool
    ensures lane { O.lane back.new ≡ O.lane back.old }
    ensures sent { O.sent back.new ≡ O.sent back.old }
    ensures cause { result ≡ true → O.refusals back.new ≢ O.refusals back.old }
    ensures full { result ≡ true → may_refuse_answer (O.may_refuse back.old) class ≡ true }
    ensures exact { O.is_sure ≡ true → result ≡ may_refuse_answer (O.may_refuse back.old) class }
    ensures same { (other : Class) → O.may_refuse back.new other ≡ O.may_refuse back.old other }
{
    match class {
        Class::NonPosted => back.is_full(Class::Completion),
        Class::Posted | Class::Completion => false,
    }
}

/// What became of a packet that was to be refused.
pub(crate) enum Refusal {
    Refused,
    Strayed,
    Idle,
    NoMemory,
}

/// Has the eligible packet of a class refused by the domain that made it. The answer is put into the
/// port's own lane; one that the lane gives back is kept.
pub(crate) fn refuse<I: LaneIn, O: LaneOut, D: Desk>(
    input: &mut I,
    back: &mut O,
    desk: &mut D,
    bridge: &Bridge,
    kept: &mut Option<VettedFrame>,
    strays: &mut Vec<Frame>,
    port: PortId,
    class: Class,
) -> Refusal
    requires { kept.old ≡ None }
    ensures refused { result ≡ Refusal.Refused → (Refuses class (λ f a. D.refuses (D.known desk.old) f port a (D.known desk.new)) (I.waiting input.old) (O.sent back.old) (I.waiting input.new) (O.sent back.new) (frame_in kept.new)) × (strays.new.items ≡ strays.old.items) }
    ensures strayed { result ≡ Refusal.Strayed → (Strays class (λ f. D.unknown (D.known desk.old) f port) (I.waiting input.old) strays.old.items (I.waiting input.new) strays.new.items) × (O.sent back.new ≡ O.sent back.old) × (D.known desk.new ≡ D.known desk.old) × (kept.new ≡ None) }
    ensures idle { result ≡ Refusal.Idle → (I.waiting input.new ≡ I.waiting input.old) × (O.sent back.new ≡ O.sent back.old) × (D.known desk.new ≡ D.known desk.old) × (kept.new ≡ None) × (strays.new.items ≡ strays.old.items) }
    ensures memory { result ≡ Refusal.NoMemory → (I.waiting input.new ≡ I.waiting input.old) × (O.sent back.new ≡ O.sent back.old) × (D.known desk.new ≡ D.known desk.old) × (kept.new ≡ None) × (strays.new.items ≡ strays.old.items) }
    ensures wants { result ≡ Refusal.NoMemory → Awaits class (I.waiting input.old) (λ f. D.wants (D.known desk.old) f port ⊎ D.unknown (D.known desk.old) f port) }
    ensures cause { result ≡ Refusal.Idle → I.misses input.new ≢ I.misses input.old }
    ensures blocked { result ≡ Refusal.Idle → eligible class (I.waiting input.old) ≡ None }
    ensures kept { IfSome (frame_in kept.new) (λ answer. O.may_refuse back.old (class_of answer) ≡ true) }
    ensures input_lane { I.lane input.new ≡ I.lane input.old }
    ensures lane { O.lane back.new ≡ O.lane back.old }
{
    let Some(frame) = input.take(class) else {
        // for the proof: the lane counts that it lent no head
        let _ = input.head(class);
        return Refusal::Idle;
    };
    match desk.refuse(frame, port) {
        Ok(None) => Refusal::Refused,
        Ok(Some(answer)) => {
            if let Err(answer) = back.push(VettedFrame::of_completion(answer, bridge)) {
                *kept = Some(answer);
            }
            Refusal::Refused
        }
        Err(FrameFault::Stray(frame)) => match keep_stray(input, strays, frame) {
            Outcome::Moved => Refusal::Strayed,
            _ => Refusal::NoMemory,
        },
        Err(FrameFault::NoMemory(frame)) => {
            input.put_back(frame);
            Refusal::NoMemory
        }
    }
}
