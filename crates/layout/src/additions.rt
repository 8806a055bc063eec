//! A platform with one line more.

ghost use Rattle.std.specs.Prelude.{◌≡◌, ◌≤◌, ◌<◌, ◌^◌, ◌==◌, true, false, map, option_map};
ghost use Rattle.std.specs.List.{find};
ghost use Rattle.layout.specs.Rules.{has_good_credits, is_past_frames};
ghost use Rattle.platform.specs.Owners.{owns_port};
ghost use Rattle.layout.specs.Additions.{port_line, function_line, with_vector, target_of_text, rights_of_text, limits_of_text};
ghost use Rattle.layout.specs.Reading.{with_layout_line, with_form, with_line, IsStep};

use crate::layout::Layout;
use fab_types::{AcsControl, Bdf, DomainId, LayoutCause, PortId};
use layout_line::{
    BudgetText, CreditText, EgressText, FunctionText, LayoutLine, MapText, PortText, RightsText,
    SwitchText, TargetText, layout_line_of,
};
use platform::{
    BudgetLine, CreditLimits, CreditLine, DownstreamPort, EndpointFunction, MapTarget, Mapping,
    Rights, Switch,
};
use text::is_comment;

fn port_line(port: &PortText) -> DownstreamPort
    requires owner { (1 ≤ port.now.owner) × (port.now.owner ≤ 31) }
    requires controls { port.now.controls < 64 }
    ensures value { result ≡ port_line port.now }
    ensures low { port.now.limit < 2 ^ 32 }
{
    // a copy has the range of its type
    let port = *port;
    DownstreamPort {
        id: PortId::new(port.id),
        secondary: port.secondary,
        subordinate: port.subordinate,
        base: port.base,
        limit: port.limit,
        controls: AcsControl::from_register(port.controls).unwrap(),
        owner: DomainId::new(port.owner as u8).unwrap(),
        egress_vector: None,
    }
}

pub(crate) fn with_vector(egress: &EgressText, port: &DownstreamPort) -> DownstreamPort
    ensures { result ≡ with_vector egress.now port.now }
{
    let egress_vector = if port.id.id() == egress.port {
        Some(egress.vector)
    } else {
        port.egress_vector
    };
    DownstreamPort {
        egress_vector,
        ..*port
    }
}

/// Gives the port of the line the line's vector.
fn give_vector(ports: &mut [DownstreamPort], egress: &EgressText)
    ensures { ports.new ≡ map (with_vector egress.now) ports.old }
{
    for place in 0..ports.len() {
        ports[place] = with_vector(egress, &ports[place]);
    }
}

#[tactic(auto, unfolding(crate::specs::Rules::has_good_credits))]
fn limits_of_text(credit: &CreditText) -> CreditLimits
    requires { has_good_credits credit.now ≡ true }
    ensures { result ≡ limits_of_text credit.now }
{
    CreditLimits {
        posted_headers: credit.posted_headers as u16,
        posted_data: credit.posted_data as u16,
        non_posted_headers: credit.non_posted_headers as u16,
        non_posted_data: credit.non_posted_data as u16,
        completion_headers: credit.completion_headers as u16,
        completion_data: credit.completion_data as u16,
    }
}

fn target_of_text(target: &TargetText) -> MapTarget
    requires { is_past_frames 65536 target.now ≡ false }
    ensures { result ≡ target_of_text target.now }
{
    match target {
        TargetText::Frame(frame) => MapTarget::Frame(*frame as u16),
        TargetText::Peer(peer) => MapTarget::Peer(*peer),
    }
}

fn function_line(function: &FunctionText) -> EndpointFunction
    ensures { result ≡ function_line function.now }
{
    EndpointFunction {
        id: function.id,
        bar: function.bar,
    }
}

fn rights_of_text(rights: &RightsText) -> Rights
    ensures { result ≡ rights_of_text rights.now }
{
    Rights {
        read: rights.read,
        write: rights.write,
    }
}

fn find_owner(ports: &[DownstreamPort], domain: u32) -> Option<DomainId>
    ensures { result ≡ option_map (λ port. port.owner) (find (λ port. port.owner == domain) ports.now) }
{
    ports
        .iter()
        .find(|port| u32::from(port.owner.get()) == domain)
        .map(|port| port.owner)
}

// The domain of this number, which owns a port.
fn owner_of_number(ports: &[DownstreamPort], domain: u32) -> DomainId
    requires { owns_port ports.now domain ≡ true }
    ensures { result ≡ domain }
{
    find_owner(ports, domain).unwrap()
}

impl Layout {
    #[tactic(auto, unfolding(crate::specs::Reading::with_layout_line))]
    fn take_frames(&mut self, count: u32) -> Result<(), LayoutCause>
        ensures { IsStep (with_layout_line self.old (LayoutLine.Frames count)) result self.new }
    {
        if let Some(cause) = self.frames_fault(count) {
            return Err(cause);
        }
        self.frames = count as u16;
        Ok(())
    }

    #[tactic(auto, unfolding(crate::specs::Reading::with_layout_line))]
    fn take_root(&mut self, id: Bdf) -> Result<(), LayoutCause>
        ensures { IsStep (with_layout_line self.old (LayoutLine.Root id)) result self.new }
    {
        if let Some(cause) = self.root_fault(id) {
            return Err(cause);
        }
        let line = Switch { id, above: None };
        match self.switches.push(line) {
            Ok(()) => Ok(()),
            Err(_) => Err(LayoutCause::NoMemory),
        }
    }

    #[tactic(auto, unfolding(crate::specs::Reading::with_layout_line))]
    fn take_switch(&mut self, switch: &SwitchText) -> Result<(), LayoutCause>
        ensures { IsStep (with_layout_line self.old (LayoutLine.Switch switch.now)) result self.new }
    {
        if let Some(cause) = self.switch_fault(switch) {
            return Err(cause);
        }
        let line = Switch {
            id: switch.id,
            above: Some(PortId::new(switch.above)),
        };
        match self.switches.push(line) {
            Ok(()) => Ok(()),
            Err(_) => Err(LayoutCause::NoMemory),
        }
    }

    #[tactic(auto, unfolding(crate::specs::Reading::with_layout_line))]
    fn take_port(&mut self, port: &PortText) -> Result<(), LayoutCause>
        ensures { IsStep (with_layout_line self.old (LayoutLine.Port port.now)) result self.new }
    {
        if let Some(cause) = self.port_fault(port) {
            return Err(cause);
        }
        match self.ports.push(port_line(port)) {
            Ok(()) => Ok(()),
            Err(_) => Err(LayoutCause::NoMemory),
        }
    }

    #[tactic(auto, unfolding(crate::specs::Reading::with_layout_line))]
    fn take_function(&mut self, function: &FunctionText) -> Result<(), LayoutCause>
        ensures { IsStep (with_layout_line self.old (LayoutLine.Function function.now)) result self.new }
    {
        let line = function_line(function);
        if let Some(cause) = self.function_fault(&line) {
            return Err(cause);
        }
        match self.functions.push(line) {
            Ok(()) => Ok(()),
            Err(_) => Err(LayoutCause::NoMemory),
        }
    }

    #[tactic(auto, unfolding(crate::specs::Reading::with_layout_line))]
    fn take_map(&mut self, map: &MapText) -> Result<(), LayoutCause>
        ensures { IsStep (with_layout_line self.old (LayoutLine.Map map.now)) result self.new }
    {
        if let Some(cause) = self.map_fault(map) {
            return Err(cause);
        }
        let line = Mapping {
            requester: map.requester,
            page: map.page,
            target: target_of_text(&map.target),
            rights: rights_of_text(&map.rights),
        };
        match self.maps.push(line) {
            Ok(()) => Ok(()),
            Err(_) => Err(LayoutCause::NoMemory),
        }
    }

    #[tactic(auto, unfolding(crate::specs::Reading::with_layout_line))]
    fn take_budget(&mut self, budget: &BudgetText) -> Result<(), LayoutCause>
        ensures { IsStep (with_layout_line self.old (LayoutLine.Budget budget.now)) result self.new }
    {
        if let Some(cause) = self.budget_fault(budget) {
            return Err(cause);
        }
        let line = BudgetLine {
            domain: owner_of_number(self.ports(), budget.domain),
            begins: budget.begins,
        };
        match self.budgets.push(line) {
            Ok(()) => Ok(()),
            Err(_) => Err(LayoutCause::NoMemory),
        }
    }

    #[tactic(auto, unfolding(crate::specs::Reading::with_layout_line))]
    fn take_credit(&mut self, credit: &CreditText) -> Result<(), LayoutCause>
        ensures { IsStep (with_layout_line self.old (LayoutLine.Credit credit.now)) result self.new }
    {
        if let Some(cause) = self.credit_fault(credit) {
            return Err(cause);
        }
        let line = CreditLine {
            id: credit.id,
            limits: limits_of_text(credit),
        };
        match self.credits.push(line) {
            Ok(()) => Ok(()),
            Err(_) => Err(LayoutCause::NoMemory),
        }
    }

    #[tactic(auto, unfolding(crate::specs::Reading::with_layout_line))]
    fn take_egress(&mut self, egress: &EgressText) -> Result<(), LayoutCause>
        ensures { IsStep (with_layout_line self.old (LayoutLine.Egress egress.now)) result self.new }
    {
        if let Some(cause) = self.egress_fault(egress) {
            return Err(cause);
        }
        give_vector(self.ports.as_mut_slice(), egress);
        Ok(())
    }

    fn take_layout_line(&mut self, statement: &LayoutLine) -> Result<(), LayoutCause>
        ensures { IsStep (with_layout_line self.old statement.now) result self.new }
    {
        match statement {
            LayoutLine::Frames(count) => self.take_frames(*count),
            LayoutLine::Root(id) => self.take_root(*id),
            LayoutLine::Switch(switch) => self.take_switch(switch),
            LayoutLine::Port(port) => self.take_port(port),
            LayoutLine::Function(function) => self.take_function(function),
            LayoutLine::Map(map) => self.take_map(map),
            LayoutLine::Budget(budget) => self.take_budget(budget),
            LayoutLine::Credit(credit) => self.take_credit(credit),
            LayoutLine::Egress(egress) => self.take_egress(egress),
        }
    }

    /// Reads one line. What it answers is the least number that applies to it, or `NoMemory`.
    #[tactic(auto, unfolding(crate::specs::Reading::with_line))]
    pub(crate) fn take_line(&mut self, line: &[u8]) -> Result<(), LayoutCause>
        ensures { IsStep (with_line self.old line.now) result self.new }
    {
        if is_comment(line) {
            return Ok(());
        }
        match layout_line_of(line) {
            Some(statement) => self.take_layout_line(&statement),
            None => Err(LayoutCause::Line),
        }
    }
}
