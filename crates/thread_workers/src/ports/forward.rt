//! The turn of a port over what a worker has.

ghost use Rattle.std.specs.Prelude.{◌≡◌, ◌≢◌, ◌+◌, length, map};
ghost use Rattle.port.specs.Turns.{Moves, Rests, sight_with};

use bridge::Bridge;
use fab_types::{Class, Outcome};
use lane::{Desk, LaneIn, Reporter};
use port::{Port, TurnParts};
use std::sync::Wait;
use switch_output::LaneOut;
use thread_domains::{LockedDesk, Locks};

/// One turn of the port, as `Port::turn`.
pub(crate) fn turn_over<'a, I: LaneIn, O: LaneOut, D: Desk, R: Reporter>(
    port: &mut Port,
    class: Class,
    bridge: &'a Bridge,
    input: &'a mut I,
    outs: &'a mut [O],
    desk: &'a mut D,
    reporter: &'a mut R,
) -> Outcome
    requires { length outs.old ≡ length port.old.config.exits + 1 }
    ensures moved { result ≡ Outcome.Moved → Moves D.refuses D.unknown bridge.now port.old.config class (sight_with (I.waiting input.old) (map O.sent outs.old) (D.known desk.old) (R.reported reporter.old) port.old) (sight_with (I.waiting input.new) (map O.sent outs.new) (D.known desk.new) (R.reported reporter.new) port.new) }
    ensures rests { result ≢ Outcome.Moved → Rests port.old.config.own (sight_with (I.waiting input.old) (map O.sent outs.old) (D.known desk.old) (R.reported reporter.old) port.old) (sight_with (I.waiting input.new) (map O.sent outs.new) (D.known desk.new) (R.reported reporter.new) port.new) }
    ensures config { port.new.config ≡ port.old.config }
    ensures lanes { map O.lane outs.new ≡ map O.lane outs.old }
    ensures line { R.line reporter.new ≡ R.line reporter.old }
{
    let mut parts = TurnParts {
        bridge,
        input,
        outs,
        desk,
        reporter,
    };
    port.turn(class, &mut parts)
}

/// The same, where the port has the domains of these locks refuse packets. It may have to wait for one of them.
pub(crate) fn turn_with_locks<W: Wait, I: LaneIn, O: LaneOut, R: Reporter>(
    port: &mut Port,
    rt: &W,
    class: Class,
    bridge: &Bridge,
    input: &mut I,
    outs: &mut [O],
    locks: &Locks,
    reporter: &mut R,
) -> Outcome
    requires { length outs.old ≡ length port.old.config.exits + 1 }
    ensures config { port.new.config ≡ port.old.config }
    ensures lanes { map O.lane outs.new ≡ map O.lane outs.old }
    ensures line { R.line reporter.new ≡ R.line reporter.old }
{
    let mut desk = LockedDesk { locks, rt };
    turn_over(port, class, bridge, input, outs, &mut desk, reporter)
}
