//! The steps of a turn, where a lane out is one of several.

ghost use Rattle.std.specs.Prelude.{◌≡◌, ◌≢◌, ◌⊎◌, ◌<◌, None, IfSome, true, false, length, map, option_to_list};
ghost use Rattle.port.specs.Blocked.{may_refuse_answer, may_refuse_at};
ghost use Rattle.lane.specs.Lanes.{Class, class_of, eligible};
ghost use Rattle.port.specs.Steps.{ForwardsAt, IsOfTurn, RefusesAt, Strays, with_put};
ghost use Rattle.switch_output.specs.Vetted.{frame_in, may_go_on};
ghost use Rattle.port.specs.Wants.{Awaits};

use crate::steps::{Refusal, answer_waits, forward, refuse, settle};
use bridge::Bridge;
use fab_types::{Class, Outcome, PortId};
use frame_log::Frame;
use lane::{Desk, LaneIn};
use switch_output::{LaneOut, VettedFrame};

/// Puts the answer that was kept, if there is one, into this lane.
pub(crate) fn settle_at<O: LaneOut>(
    outs: &mut [O],
    own: usize,
    kept: &mut Option<VettedFrame>,
) -> bool
    requires { own < length outs.old }
    ensures put { result ≡ true → (kept.new ≡ None) × (map O.sent outs.new ≡ with_put (map O.sent outs.old) own (option_to_list (frame_in kept.old))) }
    ensures counted { result ≡ true → map O.refusals outs.new ≡ map O.refusals outs.old }
    ensures rests { result ≡ false → (kept.new ≡ kept.old) × (map O.sent outs.new ≡ map O.sent outs.old) }
    ensures cause { result ≡ false → map O.refusals outs.new ≢ map O.refusals outs.old }
    ensures nothing_kept { kept.old ≡ None → outs.new ≡ outs.old }
    ensures lanes { map O.lane outs.new ≡ map O.lane outs.old }
    ensures long { length outs.new ≡ length outs.old }
{
    settle(&mut outs[own], kept)
}

/// Moves the eligible packet of a class into this lane.
pub(crate) fn forward_at<I: LaneIn, O: LaneOut>(
    input: &mut I,
    outs: &mut [O],
    lane: usize,
    strays: &mut Vec<Frame>,
    bridge: &Bridge,
    class: Class,
) -> Outcome
    requires { lane < length outs.old }
    ensures moved { result ≡ Outcome.Moved → ForwardsAt class (may_go_on bridge.now.ports) lane (I.waiting input.old) (map O.sent outs.old) strays.old.items (I.waiting input.new) (map O.sent outs.new) strays.new.items }
    ensures rests { result ≢ Outcome.Moved → (I.waiting input.new ≡ I.waiting input.old) × (map O.sent outs.new ≡ map O.sent outs.old) × (strays.new.items ≡ strays.old.items) }
    ensures cause { result ≡ Outcome.Idle → (I.misses input.new ≢ I.misses input.old) ⊎ (map O.refusals outs.new ≢ map O.refusals outs.old) }
    ensures blocked { result ≡ Outcome.Idle → (eligible class (I.waiting input.old) ≡ None) ⊎ (may_refuse_at (map O.may_refuse outs.old) lane class ≡ true) }
    ensures free { O.is_sure ≡ true → result ≢ Outcome.Idle → may_refuse_at (map O.may_refuse outs.old) lane class ≡ false }
    ensures memory { result ≡ Outcome.NoMemory → Awaits class (I.waiting input.old) (λ f. may_go_on bridge.now.ports f ≡ false) }
    ensures answer { IsOfTurn result }
    ensures input_lane { I.lane input.new ≡ I.lane input.old }
    ensures lanes { map O.lane outs.new ≡ map O.lane outs.old }
{
    forward(input, &mut outs[lane], strays, bridge, class)
}

/// Has this lane no place for what answers a packet of this class?
pub(crate) fn answer_waits_at<O: LaneOut>(outs: &mut [O], own: usize, class: Class) -> bool
    requires { own < length outs.old }
    ensures lanes { map O.lane outs.new ≡ map O.lane outs.old }
    ensures sent { map O.sent outs.new ≡ map O.sent outs.old }
    ensures cause { result ≡ true → map O.refusals outs.new ≢ map O.refusals outs.old }
    ensures full { result ≡ true → may_refuse_answer (may_refuse_at (map O.may_refuse outs.old) own) class ≡ true }
    ensures exact { O.is_sure ≡ true → result ≡ may_refuse_answer (may_refuse_at (map O.may_refuse outs.old) own) class }
    ensures same { (other : Class) → may_refuse_at (map O.may_refuse outs.new) own other ≡ may_refuse_at (map O.may_refuse outs.old) own other }
    ensures long { length outs.new ≡ length outs.old }
{
    answer_waits(&mut outs[own], class)
}

/// Has the eligible packet of a class refused, with its answer into this lane.
pub(crate) fn refuse_at<I: LaneIn, O: LaneOut, D: Desk>(
    input: &mut I,
    outs: &mut [O],
    own: usize,
    desk: &mut D,
    bridge: &Bridge,
    kept: &mut Option<VettedFrame>,
    strays: &mut Vec<Frame>,
    port: PortId,
    class: Class,
) -> Refusal
    requires lane { own < length outs.old }
    requires kept { kept.old ≡ None }
    ensures refused { result ≡ Refusal.Refused → (RefusesAt class (λ f a. D.refuses (D.known desk.old) f port a (D.known desk.new)) own (I.waiting input.old) (map O.sent outs.old) (I.waiting input.new) (map O.sent outs.new) (frame_in kept.new)) × (strays.new.items ≡ strays.old.items) }
    ensures strayed { result ≡ Refusal.Strayed → (Strays class (λ f. D.unknown (D.known desk.old) f port) (I.waiting input.old) strays.old.items (I.waiting input.new) strays.new.items) × (map O.sent outs.new ≡ map O.sent outs.old) × (D.known desk.new ≡ D.known desk.old) × (kept.new ≡ None) }
    ensures idle { result ≡ Refusal.Idle → (I.waiting input.new ≡ I.waiting input.old) × (map O.sent outs.new ≡ map O.sent outs.old) × (D.known desk.new ≡ D.known desk.old) × (kept.new ≡ None) × (strays.new.items ≡ strays.old.items) }
    ensures memory { result ≡ Refusal.NoMemory → (I.waiting input.new ≡ I.waiting input.old) × (map O.sent outs.new ≡ map O.sent outs.old) × (D.known desk.new ≡ D.known desk.old) × (kept.new ≡ None) × (strays.new.items ≡ strays.old.items) }
    ensures wants { result ≡ Refusal.NoMemory → Awaits class (I.waiting input.old) (λ f. D.wants (D.known desk.old) f port ⊎ D.unknown (D.known desk.old) f port) }
    ensures cause { result ≡ Refusal.Idle → I.misses input.new ≢ I.misses input.old }
    ensures blocked { result ≡ Refusal.Idle → eligible class (I.waiting input.old) ≡ None }
    ensures kept { IfSome (frame_in kept.new) (λ answer. may_refuse_at (map O.may_refuse outs.old) own (class_of answer) ≡ true) }
    ensures input_lane { I.lane input.new ≡ I.lane input.old }
    ensures lanes { map O.lane outs.new ≡ map O.lane outs.old }
{
    refuse(
        input,
        &mut outs[own],
        desk,
        bridge,
        kept,
        strays,
        port,
        class,
    )
}
