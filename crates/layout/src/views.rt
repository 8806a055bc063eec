//! What a platform gives: credits of a link, owners, and the share of a domain.

ghost use Rattle.std.specs.Prelude.{◌≡◌, ◌≤◌, ◌==◌, filter, IfOk, true};
ghost use Rattle.std.specs.List.{find, list_all};
ghost use Rattle.std.specs.List.Sorted.{IsStrictlyIncreasing};
ghost use Rattle.std.specs.Option.{option_copied};
ghost use Rattle.platform.specs.Share.{is_guarded_port};
ghost use Rattle.platform.specs.Owners.{domain_above, owner_of};
ghost use Rattle.layout.specs.Laws.{each_pair, is_good_budget, share_no_frame};
ghost use Rattle.layout.specs.Views.{usual_limits, limits_or_usual, credits_of, begins_or_usual, budget_of, is_map_of, maps_of, is_frame_of, frames_of, share_of_owner};

use crate::layout::Layout;
use crate::map_lines::MapLines;
use fab_types::{Bdf, DomainId, NoMemory};
use platform::{
    BudgetLine, CreditLimits, CreditLine, DownstreamPort, Grant, Mapping, Start, are_guarded,
    domain_of, is_taken, owner_of, owns_port, port_with_secondary,
};
use std::alloc::Global;

// The credits of a link without a `credit` line.
const USUAL_LIMITS: CreditLimits = CreditLimits {
    posted_headers: 16,
    posted_data: 64,
    non_posted_headers: 16,
    non_posted_data: 16,
    completion_headers: 16,
    completion_data: 64,
};

fn credit_line(credits: &[CreditLine], id: Bdf) -> Option<&CreditLine>
    ensures { option_copied result ≡ find (λ line. line.id == id) credits.now }
{
    credits.iter().find(|line| line.id == id)
}

fn limits_or_usual(line: Option<&CreditLine>) -> CreditLimits
    ensures { result ≡ limits_or_usual (option_copied line.entry) }
{
    match line {
        Some(line) => line.limits,
        None => USUAL_LIMITS,
    }
}

fn budget_line(budgets: &[BudgetLine], domain: DomainId) -> Option<&BudgetLine>
    ensures { option_copied result ≡ find (λ line. line.domain == domain) budgets.now }
{
    budgets.iter().find(|line| line.domain == domain)
}

fn budget_of(budgets: &[BudgetLine], domain: DomainId) -> u32
    requires { list_all is_good_budget budgets.now ≡ true }
    ensures value { result ≡ budget_of budgets.now domain }
    ensures least { 1 ≤ result }
    ensures most { result ≤ 16384 }
{
    match budget_line(budgets, domain) {
        Some(line) => line.begins,
        None => 256,
    }
}

fn is_map_of(ports: &[DownstreamPort], domain: DomainId, line: &Mapping) -> bool
    ensures { result ≡ is_map_of ports.now domain line.now }
{
    domain_of(ports, line.requester) == domain.get()
}

/// Does a mapping of the domain lead to this frame? All that mapped it are of one domain, so the first of them tells.
fn is_frame_of(ports: &[DownstreamPort], maps: &MapLines, domain: DomainId, frame: u16) -> bool
    requires { each_pair (share_no_frame ports.now) maps.now ≡ true }
    ensures { result ≡ is_frame_of (filter (is_map_of ports.now domain) maps.now) frame }
{
    match maps.first_of_frame(u32::from(frame)) {
        Some(requester) => domain_of(ports, requester) == domain.get(),
        None => false,
    }
}

impl Layout {
    /// Are all five ACS controls set on each downstream port?
    pub fn is_guarded(&self) -> bool
        ensures { result ≡ list_all is_guarded_port self.now.ports }
    {
        are_guarded(self.ports())
    }

    /// The domain that owns an ID, if any does.
    /// It is the domain whose host has the ID, if that owns a port, or the one that owns the ports above its
    /// bus.
    pub fn owner(&self, id: Bdf) -> Option<DomainId>
        ensures { result ≡ owner_of self.now.ports id }
    {
        owner_of(self.ports(), id)
    }

    /// The domain of a function: the owner of the port directly above it.
    pub fn domain_above(&self, function: Bdf) -> Option<DomainId>
        ensures { result ≡ domain_above self.now.ports function }
    {
        port_with_secondary(self.ports(), function.bus()).map(|port| port.owner)
    }

    /// What each receiver of a link advertises at the start, in credits.
    /// The link is named by its lower end: a function or the upstream port of a switch. None where there is no
    /// such link.
    pub fn credits(&self, id: Bdf) -> Option<CreditLimits>
        ensures { result ≡ credits_of self.now id }
    {
        if is_taken(self.switches(), self.functions(), id) {
            Some(limits_or_usual(credit_line(self.credit_lines(), id)))
        } else {
            None
        }
    }

    fn maps_of(&self, alloc: Global, domain: DomainId) -> Result<Vec<Mapping>, NoMemory>
        ensures { IfOk result (λ maps. maps.items ≡ maps_of self.now domain) }
    {
        let ports = self.ports();
        Ok(
            self.maps()
                .as_slice()
                .iter()
                .copied()
                .filter(|line| is_map_of(ports, domain, line))
                .collect(alloc)?,
        )
    }

    fn frames_of(&self, alloc: Global, domain: DomainId) -> Result<Vec<u16>, NoMemory>
        ensures { IfOk result (λ numbers. numbers.items ≡ frames_of self.now.frames (maps_of self.now domain)) }
    {
        let (ports, maps) = (self.ports(), self.maps());
        Ok(
            (0..self.frames())
                .filter(|frame| is_frame_of(ports, maps, domain, *frame))
                .collect(alloc)?,
        )
    }

    fn rising_frames_of(&self, alloc: Global, domain: DomainId) -> Result<Vec<u16>, NoMemory>
        ensures value { IfOk result (λ numbers. numbers.items ≡ frames_of self.now.frames (maps_of self.now domain)) }
        ensures rising { IfOk result (λ numbers. IsStrictlyIncreasing numbers.items) }
    {
        let numbers = self.frames_of(alloc, domain)?;
        Ok(numbers)
    }

    /// What a domain starts from, or none where it owns no port. Where memory was refused, it answers
    /// `NoMemory`.
    pub fn start(&self, alloc: Global, domain: DomainId) -> Result<Option<Start>, NoMemory>
        ensures { IfOk result (λ start. start ≡ share_of_owner self.now domain) }
    {
        if !owns_port(self.ports(), domain) {
            return Ok(None);
        }
        let maps = self.maps_of(alloc, domain)?;
        let frames = self.rising_frames_of(alloc, domain)?;
        let grant = Grant {
            budget: self.budget(domain),
            frames,
            maps,
        };
        Ok(Some(Start::of(
            alloc,
            domain,
            grant,
            self.switches(),
            self.ports(),
            self.functions(),
        )?))
    }

    /// How many begins a domain has: what its `budget` line says, or 256 without one.
    pub fn budget(&self, domain: DomainId) -> u32
        ensures value { result ≡ budget_of self.now.budgets domain }
        ensures least { 1 ≤ result }
        ensures most { result ≤ 16384 }
    {
        budget_of(self.budgets(), domain)
    }
}
