//! The domains of a fabric with their outboxes.

ghost use Rattle.std.specs.Prelude.{◌≡◌, ◌==◌, ◌++◌, ◌∷◌, [], IfOk, IfErr, IfSome, IsSome, MatchOption, None, OnErr, OnOk, Some, List, is_some, length, map, option_map};
ghost use Rattle.std.specs.List.Sorted.{IsPermutation};
ghost use Rattle.std.specs.Option.{option_copied};
ghost use Rattle.std.specs.Result.{IsOkUnless};
ghost use Rattle.fab_types.specs.declared.faults.begin.SubmitFault.{SubmitFault};
ghost use Rattle.fab_types.specs.declared.faults.begin.TickFault.{TickFault};
ghost use Rattle.fab_types.specs.declared.faults.begin.MmioFault.{MmioFault};
ghost use Rattle.frame_log.specs.Descriptor.{Descriptor};
ghost use Rattle.port_queue.specs.EligibleClasses.{has};
ghost use Rattle.lane.specs.Lanes.{Class, eligible};
ghost use Rattle.domains.specs.Domains.{Emits, IsGivenBack, IsStray, domain_at, made, made_at, mmio_refusal, place_of, place_of_function, submit_refusal, tick_refusal};
ghost use Rattle.domains.specs.Agents.{AreFound, AreReplayed, accessed, carried_at, carried_by_function, carried_by_host, IsSettled, delivered, agents_of, is_function_of, submitted, taken_from, ticked, waiting_of};

mod aliens;
mod desk;

use crate::domains::Domains;
use domain::Domain;
use fab_types::{
    Bdf, Class, DomainId, HostAccess, MmioFault, NoMemory, Origin, PacketBytes, PortId,
    SubmitFault, TickFault,
};
use frame_log::{Frame, FrameFault};
use lane::Desk;
use layout::Layout;
use outboxes::Outboxes;
use port_queue::EligibleClasses;
use std::alloc::Global;
use std::marker::Model;

/// The domains of a fabric, and an outbox of each of their functions and hosts.
/// Each outbox has a place for each packet that may ever be put into it. A contract sees an `AgentsView`.
#[derive(Drop)]
pub struct Agents {
    pub(crate) domains: Domains,
    pub(crate) outboxes: Outboxes,
}

impl Model for Agents {
    ghost use Rattle.domains.specs.Agents.{AgentsView};

    ghost Value = { AgentsView };

    ghost use Rattle.domains.specs.AgentsKept.{AreAgents, agents_view};

    ghost view = { agents_view };

    ghost invariant = { AreAgents };
}

impl Agents {
    ghost use Rattle.domain.specs.declared.entry.Entry.TheVariants.{Carry, Deliver, Refuse, Tick};

    /// Each domain that owns a port in the layout, at its start.
    /// The outboxes of its functions and its host are empty. It answers `NoMemory` where memory was refused.
    pub fn new(alloc: Global, layout: &Layout) -> Result<Agents, NoMemory>
        ensures start { IfOk result (λ agents. agents ≡ agents_of layout.now) }
        ensures settled { IfOk result (λ agents. IsSettled agents) }
    {
        // for the proof: what holds of every platform
        let _ = layout.ports();
        Ok(Agents {
            domains: Domains::new(alloc, layout)?,
            outboxes: Outboxes::new(alloc, layout)?,
        })
    }

    /// The domain of this number, if there is one.
    pub fn domain(&self, number: DomainId) -> Option<&Domain>
        ensures value { option_copied result ≡ domain_at self.now.domains (place_of self.now.domains number) }
        ensures number { IfSome result (λ domain. domain.now.share.domain ≡ number) }
    {
        self.domains.domain(number)
    }

    /// All domains, by rising number. The state of each is what its machine alone makes of its journal.
    pub fn domains(&self) -> &[Domain]
        ensures value { result.now ≡ self.now.domains }
        ensures settled { IsSettled self.now }
        ensures replayed { AreReplayed self.now.domains }
    {
        self.domains.domains()
    }

    /// A function submits a packet, which waits in its outbox.
    pub fn submit(&mut self, function: Bdf, bytes: &PacketBytes) -> Result<(), SubmitFault>
        ensures ok { OnOk result (submitted self.old function bytes.now ≡ Some self.new) }
        // Which refusal it is: the first that applies. Without one only memory may be refused.
        ensures refused { (fault : SubmitFault) → submit_refusal self.old.domains function bytes.now ≡ Some fault → result ≡ Err fault }
        ensures accepted { submit_refusal self.old.domains function bytes.now ≡ None → IsOkUnless result SubmitFault.NoMemory }
        ensures err { OnErr result (self.new ≡ self.old) }
    {
        let frame = self.domains.submit(function, bytes)?;
        self.outboxes.put(Origin::Function(function), frame);
        Ok(())
    }

    /// The program of a function does its next line.
    /// What it sends, if anything, waits in the function's outbox.
    pub fn tick(&mut self, function: Bdf) -> Result<(), TickFault>
        ensures ok { OnOk result (ticked self.old function ≡ Some self.new) }
        ensures refused { (fault : TickFault) → tick_refusal self.old.domains function ≡ Some fault → result ≡ Err fault }
        ensures accepted { tick_refusal self.old.domains function ≡ None → IsOkUnless result TickFault.NoMemory }
        // Memory is refused only to a line that sends.
        ensures memory { result ≡ Err TickFault.NoMemory → Emits (made_at self.old.domains (Tick function) (place_of_function self.old.domains function)) }
        ensures err { OnErr result (self.new ≡ self.old) }
    {
        if let Some(sent) = self.domains.tick(function)? {
            self.outboxes.put(Origin::Function(function), sent);
        }
        Ok(())
    }

    /// The host of a domain reads or writes the register page of a function.
    /// The request waits in the host's outbox.
    pub fn mmio(&mut self, domain: DomainId, access: &HostAccess) -> Result<(), MmioFault>
        ensures ok { OnOk result (accessed self.old domain access.now ≡ Some self.new) }
        ensures refused { (fault : MmioFault) → mmio_refusal self.old.domains domain access.now ≡ Some fault → result ≡ Err fault }
        ensures accepted { mmio_refusal self.old.domains domain access.now ≡ None → IsOkUnless result MmioFault.NoMemory }
        ensures err { OnErr result (self.new ≡ self.old) }
    {
        let request = self.domains.mmio(domain, access)?;
        self.outboxes.put(Origin::Host(domain), request);
        Ok(())
    }

    /// The host takes a request of its home.
    /// What answers it, if anything, waits in the host's outbox.
    pub fn carry_by_host(&mut self, frame: Frame) -> Result<(), FrameFault>
        ensures ok { OnOk result (carried_by_host self.old frame ≡ Some self.new) }
        ensures fault { IfErr result (λ fault. IsGivenBack (made self.old.domains frame.domain (Carry frame.number)) frame fault) }
        ensures stray { carried_by_host self.old frame ≡ None → result ≡ Err (FrameFault.Stray frame) }
        ensures err { OnErr result (self.new ≡ self.old) }
    {
        let domain = frame.domain();
        if let Some(answer) = self.domains.carry(frame)? {
            self.outboxes.put(Origin::Host(domain), answer);
        }
        Ok(())
    }

    /// A function takes a request of its own domain.
    /// What answers it, if anything, waits in the function's outbox. `Stray` where the function is not one of
    /// the request's home.
    pub fn carry_by_function(&mut self, function: Bdf, frame: Frame) -> Result<(), FrameFault>
        ensures ok { OnOk result (carried_by_function self.old function frame ≡ Some self.new) }
        ensures fault { IfErr result (λ fault. IsGivenBack (carried_at self.old.domains function frame) frame fault) }
        ensures stray { carried_by_function self.old function frame ≡ None → result ≡ Err (FrameFault.Stray frame) }
        ensures err { OnErr result (self.new ≡ self.old) }
    {
        if !self.is_function_of(function, frame.domain()) {
            return Err(FrameFault::Stray(frame));
        }
        if let Some(answer) = self.domains.carry(frame)? {
            self.outboxes.put(Origin::Function(function), answer);
        }
        Ok(())
    }

    /// Is it a function of one of the domains?
    pub fn has_function(&self, function: Bdf) -> bool
        ensures { result ≡ is_some (place_of_function self.now.domains function) }
    {
        self.domains.domain_of_function(function).is_some()
    }

    /// Is it a function of this domain?
    pub fn is_function_of(&self, function: Bdf, domain: DomainId) -> bool
        ensures { result ≡ is_function_of self.now.domains function domain }
    {
        match self.domains.domain_of_function(function) {
            Some(home) => home.start().domain() == domain,
            None => false,
        }
    }

    /// A completion reached whom it answers.
    pub fn complete(&mut self, frame: Frame) -> Result<(), FrameFault>
        ensures ok { OnOk result (delivered self.old frame ≡ Some self.new) }
        ensures fault { IfErr result (λ fault. IsStray (made self.old.domains frame.domain (Deliver frame.number)) frame fault) }
        ensures stray { delivered self.old frame ≡ None → result ≡ Err (FrameFault.Stray frame) }
        ensures err { OnErr result (self.new ≡ self.old) }
    {
        self.domains.complete(frame)
    }

    /// Does no packet wait in the outbox of this origin? So it is too where there is no such outbox.
    pub fn is_outbox_empty(&self, origin: Origin) -> bool
        ensures { result ≡ (length (waiting_of self.now.outboxes origin) == 0) }
    {
        self.outboxes.is_empty(origin)
    }

    /// The functions and hosts that have an outbox. No packet waits in an outbox but that which is found by its origin.
    pub fn origins(&self, alloc: Global) -> Result<Vec<Origin>, NoMemory>
        ensures value { IfOk result (λ origins. origins.items ≡ map (λ box. box.origin) self.now.outboxes) }
        ensures found { AreFound self.now.outboxes }
    {
        self.outboxes.origins(alloc)
    }

    /// All packets that an origin has waiting.
    /// No caller may rely on their order. Where there is no such outbox, there are none.
    pub fn all(&self, alloc: Global, origin: Origin) -> Result<Vec<&Frame>, NoMemory>
        ensures { IfOk result (λ all. IsPermutation (map (λ frame. frame.now) all.items) (waiting_of self.now.outboxes origin)) }
    {
        self.outboxes.all(alloc, origin)
    }

    /// Of which classes a packet may leave an origin's outbox (PCIe 4.0, 2.4.1).
    pub fn eligible_classes(&self, origin: Origin) -> EligibleClasses
        ensures { (class : Class) → has result class ≡ is_some (eligible class (waiting_of self.now.outboxes origin)) }
    {
        self.outboxes.eligible_classes(origin)
    }

    /// The domain that made the eligible packet of a class that an origin has waiting.
    pub fn home(&self, origin: Origin, class: Class) -> Option<DomainId>
        ensures { result ≡ option_map (λ taken. taken.0.domain) (eligible class (waiting_of self.now.outboxes origin)) }
    {
        self.outboxes.home(origin, class)
    }

    /// The number of the domain that a function is of, if it is of one.
    pub fn home_of_function(&self, function: Bdf) -> Option<DomainId>
        ensures { result ≡ option_map (λ domain. domain.share.domain) (domain_at self.now.domains (place_of_function self.now.domains function)) }
    {
        match self.domains.domain_of_function(function) {
            Some(home) => Some(home.start().domain()),
            None => None,
        }
    }

    /// Takes the eligible packet of a class from an origin's outbox.
    pub fn take(&mut self, origin: Origin, class: Class) -> Option<Frame>
        ensures taken { MatchOption result ((eligible class (waiting_of self.old.outboxes origin) ≡ None) × (self.new ≡ self.old))
            (λ frame. (waiting : List Descriptor) × (eligible class (waiting_of self.old.outboxes origin) ≡ Some (frame, waiting)) × (self.new ≡ taken_from self.old origin waiting)) }
    {
        self.outboxes.take(origin, class)
    }
}
