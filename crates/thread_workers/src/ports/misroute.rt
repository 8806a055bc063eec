//! A packet that a port has no case for, in a layout that isn't guarded: its home enters it as an alien one.

ghost use Rattle.std.specs.Prelude.{◌≡◌, ◌≢◌, ◌++◌, ◌<◌, IfErr, IfOk, None, false, option_to_list};
ghost use Rattle.std.specs.List.{list_all};
ghost use Rattle.frame_log.specs.Faults.{fault_frame};
ghost use Rattle.lane.specs.Queues.{frames_of as frames_in};
ghost use Rattle.monitor.specs.Reporting.{seat_of};
ghost use Rattle.platform.specs.Share.{is_guarded_port};
ghost use Rattle.thread_workers.specs.Misrouting.{EnteredThere, Misroutes, frames_of};
ghost use Rattle.rtrb.specs.Ring.{known_free, sent};
ghost use Rattle.thread_rings.specs.Wired.{out_tag};

use bridge::Bridge;
use fab_types::{Class, Place, Violation};
use frame_log::{Frame, FrameFault};
use lane::Reporter;
use link::Ingress;
use monitor::QueueReporter;
use port::Port;
use std::sync::Wait;
use switch_output::VettedFrame;
use thread_domains::Locks;
use thread_rings::OutEnd;

/// What became of the eligible packet.
#[derive(Clone, Copy, Debug, PartialEq, Eq)]
pub(crate) enum Misrouting {
    /// Its home has an entry of it, and it is gone.
    Misrouted,
    /// It waits, for a place for its answer or for memory.
    Waits,
    /// The port's turn has to do with it.
    Elsewhere,
}

/// Its home enters a packet, under its lock. Never two locks are held at once.
fn enter<R: Wait>(
    rt: &R,
    locks: &Locks,
    place: Place,
    frame: Frame,
) -> Result<Option<Frame>, FrameFault>
    ensures made { IfOk result (λ answer. EnteredThere frame place answer) }
    ensures given { IfErr result (λ fault. fault_frame fault ≡ frame) }
{
    let Some(bytes) = locks.bytes_of(rt, &frame) else {
        return Err(FrameFault::Stray(frame));
    };
    locks.alien(rt, frame.domain(), place, frame, bytes.as_slice())
}

/// Puts what answers a packet, if anything does, into the port's own ring, which has a place for it.
fn answer(own: &mut OutEnd<VettedFrame>, bridge: &Bridge, answer: Option<Frame>)
    requires place { 0 < known_free own.old.producer }
    requires unguarded { list_all is_guarded_port bridge.now.ports ≡ false }
    ensures put { frames_of (sent own.new.producer) ≡ frames_of (sent own.old.producer) ++ option_to_list answer }
    ensures tag { out_tag own.new ≡ out_tag own.old }
{
    let Some(answer) = answer else {
        return;
    };
    match VettedFrame::new(answer, bridge) {
        Ok(packet) => own.put_reserved(packet),
        Err(_) => unreachable!(),
    }
}

/// Reports a violation, if there is one. A report that comes back the port holds.
fn report(port: &mut Port, reporter: &mut QueueReporter, report: Option<Violation>)
    requires { port.old.held ≡ None }
    ensures told { reporter.old.reported ++ option_to_list report ≡ reporter.new.reported ++ option_to_list port.new.held }
    ensures seat { seat_of reporter.new ≡ seat_of reporter.old }
    ensures others { port.new ≡ record port.old { held = port.new.held } }
{
    let Some(violation) = report else {
        return;
    };
    if let Err(violation) = reporter.report(violation) {
        port.hold(violation);
    }
}

/// Has the home of the eligible packet enter it, where the port has no case for it.
/// It does so if the layout isn't guarded, the port holds no report, and the home has an entry for it.
pub(crate) fn misroute<R: Wait>(
    rt: &R,
    class: Class,
    port: &mut Port,
    bridge: &Bridge,
    input: &mut Ingress,
    own: &mut OutEnd<VettedFrame>,
    locks: &Locks,
    reporter: &mut QueueReporter,
) -> Misrouting
    ensures misrouted { result ≡ Misrouting.Misrouted → Misroutes bridge.now class (frames_in input.old.queue.queue.waiting) (frames_in input.new.queue.queue.waiting) (sent own.old.producer) (sent own.new.producer) port.old port.new reporter.old.reported reporter.new.reported }
    ensures rests { result ≢ Misrouting.Misrouted → (frames_in input.new.queue.queue.waiting ≡ frames_in input.old.queue.queue.waiting) × (sent own.new.producer ≡ sent own.old.producer) × (port.new ≡ port.old) × (reporter.new ≡ reporter.old) }
    ensures tag { out_tag own.new ≡ out_tag own.old }
    ensures seat { seat_of reporter.new ≡ seat_of reporter.old }
    ensures others { port.new ≡ record port.old { held = port.new.held } }
{
    if bridge.is_guarded() || port.held_report().is_some() {
        return Misrouting::Elsewhere;
    }
    let Some(head) = input.next(class) else {
        return Misrouting::Elsewhere;
    };
    let Some(found) = port.misroute_of(bridge, &head) else {
        return Misrouting::Elsewhere;
    };
    if !own.has_place() {
        return Misrouting::Waits;
    }
    let Some(frame) = input.release(class) else {
        return Misrouting::Elsewhere;
    };
    match enter(rt, locks, found.place, frame) {
        Ok(reply) => {
            answer(own, bridge, reply);
            report(port, reporter, found.report);
            Misrouting::Misrouted
        }
        Err(FrameFault::Stray(frame)) => {
            input.give_back(frame);
            Misrouting::Elsewhere
        }
        Err(FrameFault::NoMemory(frame)) => {
            input.give_back(frame);
            Misrouting::Waits
        }
    }
}
