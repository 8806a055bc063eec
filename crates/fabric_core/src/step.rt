//! What each event does, over the parts of a fabric.

ghost use Rattle.std.specs.Prelude.{◌≡◌, ◌≢◌, true};
ghost use Rattle.fabric_core.specs.Events.{StepsTo, is_begin};
ghost use Rattle.fabric_core.specs.Invariant.{IsConsistent};
ghost use Rattle.fabric_core.specs.World.{world_over};

use crate::begins::{mmio, submit, tick};
use crate::ends::{arrive, arrive_at_host};
use crate::event::Event;
use crate::pass::pass;
use crate::wires::{deliver, enter, send, update_fc};
use domains::Agents;
use fab_types::Outcome;
use frame_log::Frame;
use interconnect::Interconnect;
use port::Reports;

pub(crate) fn step(
    interconnect: &mut Interconnect,
    agents: &mut Agents,
    reports: &mut Reports,
    strays: &mut Vec<Frame>,
    event: &Event,
) -> Outcome
    requires { IsConsistent (world_over interconnect.old agents.old reports.old.violations strays.old.items) }
    ensures steps { StepsTo (world_over interconnect.old agents.old reports.old.violations strays.old.items) event.now result (world_over interconnect.new agents.new reports.new.violations strays.new.items) }
    ensures begun { is_begin event.now ≡ true → result ≢ Outcome.Idle }
{
    match event {
        Event::Submit(function, bytes) => submit(agents, *function, bytes),
        Event::Tick(function) => tick(agents, *function),
        Event::Mmio(domain, access) => mmio(agents, *domain, access),
        Event::Enter(origin, class) => enter(interconnect, agents, *origin, *class),
        Event::Pass(port, class) => pass(interconnect, agents, reports, *port, *class),
        Event::Send(direction, class) => send(interconnect, *direction, *class),
        Event::Take(direction) => deliver(interconnect, *direction),
        Event::Credit(direction) => update_fc(interconnect, *direction),
        Event::Root(class) => arrive_at_host(interconnect, agents, strays, *class),
        Event::Arrive(function, class) => arrive(interconnect, agents, strays, *function, *class),
    }
}
