//! What is wrong with a line on frames, switches, functions, budgets or credits.

ghost use Rattle.std.specs.Prelude.{◌≡◌, ◌≤◌, ◌<◌, ◌==◌, IfNone, true};
ghost use Rattle.std.specs.List.{list_any};
ghost use Rattle.platform.specs.Owners.{owns_port};
ghost use Rattle.layout.specs.Rules.{is_within, frames_fault, root_fault, switch_fault_below, switch_fault, function_fault_below, function_fault, budget_fault, has_good_credits, credit_fault};

use crate::layout::Layout;
use fab_types::{Bdf, LayoutCause};
use layout_line::{BudgetText, CreditText, SwitchText};
use platform::{
    BudgetLine, CreditLine, DownstreamPort, EndpointFunction, id_below, is_taken, is_third_level,
    port_at, port_leading_to,
};

pub(crate) fn is_within(least: u32, most: u32, number: u32) -> bool
    ensures { result ≡ is_within least most number }
{
    least <= number && number <= most
}

pub(crate) fn owns_port_by_number(ports: &[DownstreamPort], domain: u32) -> bool
    ensures { result ≡ owns_port ports.now domain }
{
    ports
        .iter()
        .any(|port| u32::from(port.owner.get()) == domain)
}

fn has_budget(budgets: &[BudgetLine], domain: u32) -> bool
    ensures { result ≡ list_any (λ line. line.domain == domain) budgets.now }
{
    budgets
        .iter()
        .any(|line| u32::from(line.domain.get()) == domain)
}

fn has_credits(credits: &[CreditLine], id: Bdf) -> bool
    ensures { result ≡ list_any (λ line. line.id == id) credits.now }
{
    credits.iter().any(|line| line.id == id)
}

#[tactic(auto, unfolding(crate::specs::Rules::has_good_credits))]
fn has_good_credits(credit: &CreditText) -> bool
    ensures { result ≡ has_good_credits credit.now }
{
    is_within(1, 127, credit.posted_headers)
        && is_within(16, 2047, credit.posted_data)
        && is_within(1, 127, credit.non_posted_headers)
        && is_within(16, 2047, credit.non_posted_data)
        && is_within(1, 127, credit.completion_headers)
        && is_within(16, 2047, credit.completion_data)
}

impl Layout {
    /// `frames N`: once, before any `map`, 1 to 1,024.
    #[tactic(auto, unfolding(crate::specs::Rules::frames_fault))]
    pub(crate) fn frames_fault(&self, count: u32) -> Option<LayoutCause>
        ensures value { result ≡ frames_fault self.now count }
        ensures small { IfNone result (count ≤ 1024) }
    {
        if self.frames() != 0 || !self.maps().as_slice().is_empty() {
            return Some(LayoutCause::Line);
        }
        if !is_within(1, 1024, count) {
            return Some(LayoutCause::Limit);
        }
        None
    }

    /// `switch ID root`: 01:00.0, before all other switches.
    #[tactic(auto, unfolding(crate::specs::Rules::root_fault))]
    pub(crate) fn root_fault(&self, id: Bdf) -> Option<LayoutCause>
        ensures { result ≡ root_fault self.now id }
    {
        if id.bits() != 0x100 || !self.switches().is_empty() {
            return Some(LayoutCause::Line);
        }
        None
    }

    fn switch_fault_below(&self, id: Bdf, above: Option<DownstreamPort>) -> Option<LayoutCause>
        ensures { result ≡ switch_fault_below self.now id above }
    {
        let Some(port) = above else {
            return Some(LayoutCause::Line);
        };
        if id != id_below(&port) || is_taken(self.switches(), self.functions(), id) {
            return Some(LayoutCause::Line);
        }
        let bus = port.id.id().bus();
        if 8 <= self.switches().len() || is_third_level(self.switches(), self.ports(), bus) {
            return Some(LayoutCause::Limit);
        }
        if u16::from(port.subordinate) < u16::from(port.secondary) + 1 {
            return Some(LayoutCause::BusOutside);
        }
        None
    }

    /// `switch ID PORT`: directly below an earlier port below which nothing stands; 8 switches, 3
    /// levels.
    #[tactic(auto, unfolding(crate::specs::Rules::switch_fault))]
    pub(crate) fn switch_fault(&self, switch: &SwitchText) -> Option<LayoutCause>
        ensures { result ≡ switch_fault self.now switch.now }
    {
        self.switch_fault_below(switch.id, port_at(self.ports(), switch.above))
    }

    fn function_fault_below(
        &self,
        function: &EndpointFunction,
        above: Option<DownstreamPort>,
    ) -> Option<LayoutCause>
        ensures { result ≡ function_fault_below self.now function.now above }
    {
        let Some(port) = above else {
            return Some(LayoutCause::Line);
        };
        if is_taken(self.switches(), self.functions(), function.id) {
            return Some(LayoutCause::Line);
        }
        let last = u64::from(function.bar) + 4095;
        if function.bar % 4096 != 0
            || !(port.base <= function.bar && last <= u64::from(port.limit))
        {
            return Some(LayoutCause::BarOutside);
        }
        None
    }

    /// `function ID BAR`: directly below an earlier port below which nothing stands; its page is in
    /// the port's window.
    #[tactic(auto, unfolding(crate::specs::Rules::function_fault))]
    pub(crate) fn function_fault(&self, function: &EndpointFunction) -> Option<LayoutCause>
        ensures { result ≡ function_fault self.now function.now }
    {
        self.function_fault_below(function, port_leading_to(self.ports(), function.id))
    }

    /// `budget D N`: once for a domain that owns a port, 1 to 16,384.
    #[tactic(auto, unfolding(crate::specs::Rules::budget_fault))]
    pub(crate) fn budget_fault(&self, budget: &BudgetText) -> Option<LayoutCause>
        ensures value { result ≡ budget_fault self.now budget.now }
        ensures owned { IfNone result (owns_port self.now.ports budget.now.domain ≡ true) }
    {
        if !owns_port_by_number(self.ports(), budget.domain)
            || has_budget(self.budgets(), budget.domain)
        {
            return Some(LayoutCause::Line);
        }
        if !is_within(1, 16384, budget.begins) {
            return Some(LayoutCause::Limit);
        }
        None
    }

    /// `credit ID PH PD NPH NPD CPLH CPLD`: once for a function or an upstream port.
    #[tactic(auto, unfolding(crate::specs::Rules::credit_fault))]
    pub(crate) fn credit_fault(&self, credit: &CreditText) -> Option<LayoutCause>
        ensures value { result ≡ credit_fault self.now credit.now }
        ensures good { IfNone result (has_good_credits credit.now ≡ true) }
    {
        if !is_taken(self.switches(), self.functions(), credit.id)
            || has_credits(self.credit_lines(), credit.id)
        {
            return Some(LayoutCause::Line);
        }
        if !has_good_credits(credit) {
            return Some(LayoutCause::CreditRange);
        }
        None
    }
}
