//! A packet that a port has no case for, in a layout that isn't guarded.

ghost use Rattle.std.specs.Prelude.{◌≡◌, ◌++◌, ◌&&◌, IfSome, IsSome, OnErr, OnOk, Some, false, is_some, option_to_list, true};
ghost use Rattle.fab_types.specs.declared.class.Class.TheVariants.{Completion};
ghost use Rattle.link.specs.Channels.{is_full as no_place};
ghost use Rattle.lane.specs.Lanes.{class_of};
ghost use Rattle.domains.specs.Aliens.{aliened, answers};
ghost use Rattle.domains.specs.Domains.{Made};
ghost use Rattle.topology.specs.Topologies.{IsEnd};
ghost use Rattle.interconnect.specs.Moves.{channel_at};
ghost use Rattle.interconnect.specs.Views.{IsSameRest, channels};
ghost use Rattle.fabric_core.specs.Misrouting.{is_at_port_of};
ghost use Rattle.fabric_core.specs.Passing.{answered_at};
ghost use Rattle.fabric_core.specs.Settling.{AnswersByCompletion, IsBack, IsTaken, Misroutes};

use domains::Agents;
use fab_types::{NoMemory, Outcome, Place, Violation};
use frame_log::{Frame, FrameFault};
use interconnect::{Interconnect, Misrouted};
use lane::Reporter;
use port::Reports;
use topology::LinkEnd;

/// Has the home of a packet that waits at a port an entry for it?
pub(crate) fn may_misroute(agents: &Agents, place: Place, frame: &Frame) -> bool
    ensures { result ≡ (is_at_port_of agents.now.domains frame.now.domain place && is_some (aliened agents.now.domains frame.now.domain place frame.now)) }
{
    let there = place;
    match agents.domain(frame.domain()) {
        Some(home) => home.is_at_port(there) && agents.has_alien(place, frame),
        None => false,
    }
}

/// Makes room for the report, if there is one.
fn prepare(reports: &mut Reports, report: &Option<Violation>) -> Result<(), NoMemory>
    ensures same { reports.new.violations ≡ reports.old.violations }
    ensures room { OnOk result (IfSome report.now (λ violation. reports.new.has_room ≡ true)) }
{
    match report {
        Some(_) => reports.prepare_report(),
        None => Ok(()),
    }
}

/// Reports the violation, if there is one.
fn report_violation(reports: &mut Reports, report: Option<Violation>)
    requires { IfSome report (λ violation. reports.old.has_room ≡ true) }
    ensures { reports.new.violations ≡ reports.old.violations ++ option_to_list report }
{
    if let Some(violation) = report {
        let _ = reports.report(violation);
    }
}

/// The answer, if there is one, waits at the port's own output, which has a place for it.
fn put_answer(interconnect: &mut Interconnect, own: LinkEnd, answer: Option<Frame>)
    requires end { IsEnd (interconnect.old.tree).outputs own }
    requires place { IfSome answer (λ frame. no_place (class_of frame) (channel_at (channels interconnect.old) own) ≡ false) }
    ensures put { channels interconnect.new ≡ answered_at (channels interconnect.old) own answer }
    ensures rest { IsSameRest interconnect.old interconnect.new }
{
    if let Some(answer) = answer {
        interconnect.put_at(own, answer);
    }
}

/// The home of a packet that was taken gets its entry. Where the port's own output is full, a packet that is answered
/// stays where it was taken.
pub(crate) fn misroute(
    interconnect: &mut Interconnect,
    agents: &mut Agents,
    reports: &mut Reports,
    misrouted: &Misrouted,
    is_full: bool,
    frame: Frame,
) -> Outcome
    requires input { IsEnd (interconnect.old.tree).outputs misrouted.now.input }
    requires own { IsEnd (interconnect.old.tree).outputs misrouted.now.own }
    requires taken { IsTaken interconnect.old misrouted.now.input frame }
    requires full { is_full ≡ no_place Completion (channel_at (channels interconnect.old) misrouted.now.own) }
    requires legal { IsSome (aliened agents.old.domains frame.domain misrouted.now.place frame) }
    requires completion { AnswersByCompletion (aliened agents.old.domains frame.domain misrouted.now.place frame) }
    ensures { (m : Made) → aliened agents.old.domains frame.domain misrouted.now.place frame ≡ Some m → Misroutes interconnect.old interconnect.new agents.old agents.new reports.old.violations reports.new.violations misrouted.now frame m result }
{
    if is_full && agents.answers_alien(misrouted.place, &frame) {
        interconnect.put_back_at(misrouted.input, frame);
        return Outcome::Idle;
    }
    if prepare(reports, &misrouted.report).is_err() {
        interconnect.put_back_at(misrouted.input, frame);
        return Outcome::NoMemory;
    }
    match agents.alien_at_port(misrouted.place, frame) {
        Ok(answer) => {
            put_answer(interconnect, misrouted.own, answer);
            report_violation(reports, misrouted.report);
            Outcome::Moved
        }
        Err(FrameFault::Stray(frame)) => {
            interconnect.put_back_at(misrouted.input, frame);
            Outcome::NoMemory
        }
        Err(FrameFault::NoMemory(frame)) => {
            interconnect.put_back_at(misrouted.input, frame);
            Outcome::NoMemory
        }
    }
}
