//! A port takes a packet.

ghost use Rattle.std.specs.Prelude.{List};
ghost use Rattle.frame_log.specs.Descriptor.{Descriptor};
ghost use Rattle.fabric_core.specs.declared.event.Event.TheVariants.{Pass};
ghost use Rattle.fabric_core.specs.Events.{StepsTo};
ghost use Rattle.fabric_core.specs.Invariant.{IsConsistent};
ghost use Rattle.fabric_core.specs.World.{world_over};

use crate::misroute::{may_misroute, misroute};
use domains::Agents;
use fab_types::{Class, Outcome, PortId};
use interconnect::Interconnect;
use port::Reports;

/// This port has its turn: its desk are the agents, and every report is taken. In a guarded layout no domain has a case for
/// an alien packet, so none is looked for.
pub(crate) fn pass(
    interconnect: &mut Interconnect,
    agents: &mut Agents,
    reports: &mut Reports,
    port: PortId,
    class: Class,
) -> Outcome
    ensures { (strays : List Descriptor) → IsConsistent (world_over interconnect.old agents.old reports.old.violations strays) → StepsTo (world_over interconnect.old agents.old reports.old.violations strays) (Pass port class) result (world_over interconnect.new agents.new reports.new.violations strays) }
{
    if interconnect.is_guarded() {
        return interconnect.pass(port, class, agents, reports);
    }
    let Some(misrouted) = interconnect.misrouted_at(port, class) else {
        return interconnect.pass(port, class, agents, reports);
    };
    let is_full = interconnect.is_full_at(misrouted.own, Class::Completion);
    let Some(frame) = interconnect.take_at(misrouted.input, class) else {
        return Outcome::Idle;
    };
    if may_misroute(agents, misrouted.place, &frame) {
        misroute(interconnect, agents, reports, &misrouted, is_full, frame)
    } else {
        interconnect.put_back_at(misrouted.input, frame);
        interconnect.pass(port, class, agents, reports)
    }
}
