//! The domains of a fabric as one value.

ghost use Rattle.std.specs.Prelude.{◌≡◌, ◌<◌, IfOk, IfErr, IfSome, None, OnErr, OnOk, Some, is_some, length};
ghost use Rattle.std.specs.Option.{option_copied};
ghost use Rattle.std.specs.Result.{IsOkUnless};
ghost use Rattle.fab_types.specs.declared.faults.begin.SubmitFault.{SubmitFault};
ghost use Rattle.fab_types.specs.declared.faults.begin.TickFault.{TickFault};
ghost use Rattle.fab_types.specs.declared.faults.begin.MmioFault.{MmioFault};
ghost use Rattle.frame_log.specs.Descriptor.{IsCompletion};
ghost use Rattle.domains.specs.Aliens.{IsUntaken, aliened, answers, owner_of_frame};
ghost use Rattle.domains.specs.Domains.{Emits, IsGivenBack, IsHome, IsStray, domain_at, made, made_at, mmio_refusal, place_of, place_of_function, submit_refusal, starting_domains, tick_refusal};

use crate::aliens::{alien_at, answers_alien, has_alien};
use crate::begins::{mmio_at, submit_at, tick_at};
use crate::ends::{carry_at, complete_at, refuse_at};
use crate::indexing::{index_of, indexed_home, indexed_place};
use crate::places::owner_of_frame;
use crate::starts::domains_of;
use domain::Domain;
use fab_types::{
    Bdf, DomainId, HostAccess, MmioFault, NoMemory, PacketBytes, Place, PortId, SubmitFault,
    TickFault,
};
use frame_log::{Frame, FrameFault};
use layout::Layout;
use outboxes::OriginIndex;
use std::alloc::Global;
use std::marker::Model;

/// The domains of a fabric, each that owns a port, by rising number. A contract sees the list of them.
#[derive(Drop)]
pub struct Domains {
    domains: Vec<Domain>,
    index: OriginIndex,
}

impl Model for Domains {
    ghost use Rattle.std.specs.Prelude.{List};
    ghost use Rattle.domain.specs.Domains.{DomainView};

    ghost Value = { List DomainView };

    ghost use Rattle.domains.specs.DomainsKept.{IsIndexed, domains_of};

    ghost view = { domains_of };

    ghost invariant = { IsIndexed };
}

impl Domains {
    ghost use Rattle.domain.specs.declared.entry.Entry.TheVariants.{Carry, Deliver, Mmio, Refuse, Submit, Tick};

    /// Each domain that owns a port in the layout, at its start. It answers `NoMemory` where memory was refused.
    pub fn new(alloc: Global, layout: &Layout) -> Result<Domains, NoMemory>
        ensures { IfOk result (λ domains. domains ≡ starting_domains layout.now) }
    {
        let domains = domains_of(alloc, layout)?;
        Ok(Domains {
            index: index_of(layout.functions(), &domains),
            domains,
        })
    }

    /// The place of the domain with this number.
    fn place(&self, number: DomainId) -> Option<usize>
        ensures value { result ≡ place_of self.now number }
        ensures within { IfSome result (λ place. place < length self.now) }
        ensures home { IfSome result (λ place. IsHome self.now place number) }
    {
        indexed_place(&self.index, &self.domains, number)
    }

    /// The place of the domain that this function is of.
    fn home(&self, function: Bdf) -> Option<usize>
        ensures value { result ≡ place_of_function self.now function }
        ensures within { IfSome result (λ place. place < length self.now) }
    {
        indexed_home(&self.index, &self.domains, function)
    }

    /// The domain of this number, if there is one.
    pub fn domain(&self, number: DomainId) -> Option<&Domain>
        ensures value { option_copied result ≡ domain_at self.now (place_of self.now number) }
        ensures number { IfSome result (λ domain. domain.now.share.domain ≡ number) }
    {
        let place = self.place(number)?;
        Some(&self.domains[place])
    }

    /// The domain that this function is of, if there is one.
    pub fn domain_of_function(&self, function: Bdf) -> Option<&Domain>
        ensures { option_copied result ≡ domain_at self.now (place_of_function self.now function) }
    {
        let home = self.home(function)?;
        Some(&self.domains[home])
    }

    /// All domains.
    pub fn domains(&self) -> &[Domain]
        ensures { result.now ≡ self.now }
    {
        &self.domains
    }

    /// A function submits a packet, in its own domain.
    pub fn submit(&mut self, function: Bdf, bytes: &PacketBytes) -> Result<Frame, SubmitFault>
        ensures ok { IfOk result (λ frame. made_at self.old (Submit function bytes.now) (place_of_function self.old function) ≡ Some (record { domains = self.new; sent = Some frame })) }

        // Which refusal it is: the first that applies. Without one only memory may be refused.
        ensures refused { (fault : SubmitFault) → submit_refusal self.old function bytes.now ≡ Some fault → result ≡ Err fault }
        ensures accepted { submit_refusal self.old function bytes.now ≡ None → IsOkUnless result SubmitFault.NoMemory }
        ensures err { OnErr result (self.new ≡ self.old) }
    {
        match self.home(function) {
            Some(place) => submit_at(&mut self.domains, place, function, bytes),
            None => Err(SubmitFault::NoFunction),
        }
    }

    /// The program of a function does its next line, in its own domain.
    pub fn tick(&mut self, function: Bdf) -> Result<Option<Frame>, TickFault>
        ensures ok { IfOk result (λ sent. made_at self.old (Tick function) (place_of_function self.old function) ≡ Some (record { domains = self.new; sent = sent })) }

        // Which refusal it is: the first that applies. Without one only memory may be refused.
        ensures refused { (fault : TickFault) → tick_refusal self.old function ≡ Some fault → result ≡ Err fault }
        ensures accepted { tick_refusal self.old function ≡ None → IsOkUnless result TickFault.NoMemory }
        // Memory is refused only to a line that sends.
        ensures memory { result ≡ Err TickFault.NoMemory → Emits (made_at self.old (Tick function) (place_of_function self.old function)) }
        ensures err { OnErr result (self.new ≡ self.old) }
    {
        match self.home(function) {
            Some(place) => tick_at(&mut self.domains, place, function),
            None => Err(TickFault::NoFunction),
        }
    }

    /// The host of this domain reads or writes the register page of a function.
    pub fn mmio(&mut self, domain: DomainId, access: &HostAccess) -> Result<Frame, MmioFault>
        ensures ok { IfOk result (λ frame. made self.old domain (Mmio access.now) ≡ Some (record { domains = self.new; sent = Some frame })) }

        // Which refusal it is: the first that applies. Without one only memory may be refused.
        ensures refused { (fault : MmioFault) → mmio_refusal self.old domain access.now ≡ Some fault → result ≡ Err fault }
        ensures accepted { mmio_refusal self.old domain access.now ≡ None → IsOkUnless result MmioFault.NoMemory }
        ensures err { OnErr result (self.new ≡ self.old) }
    {
        match self.place(domain) {
            Some(place) => mmio_at(&mut self.domains, place, access),
            None => Err(MmioFault::NotYours),
        }
    }

    /// A packet is stopped by its sender's first port.
    pub fn refuse(&mut self, frame: Frame, port: PortId) -> Result<Option<Frame>, FrameFault>
        ensures ok { IfOk result (λ sent. made self.old frame.domain (Refuse frame.number) ≡ Some (record { domains = self.new; sent = sent })) }
        ensures reply { IfOk result (λ sent. IfSome sent IsCompletion) }
        ensures fault { IfErr result (λ fault. IsGivenBack (made self.old frame.domain (Refuse frame.number)) frame fault) }
        ensures stray { made self.old frame.domain (Refuse frame.number) ≡ None → result ≡ Err (FrameFault.Stray frame) }
        ensures err { OnErr result (self.new ≡ self.old) }
    {
        match self.place(frame.domain()) {
            Some(place) => refuse_at(&mut self.domains, place, frame, port),
            None => Err(FrameFault::Stray(frame)),
        }
    }

    /// A packet reached its completer.
    pub fn carry(&mut self, frame: Frame) -> Result<Option<Frame>, FrameFault>
        ensures ok { IfOk result (λ sent. made self.old frame.domain (Carry frame.number) ≡ Some (record { domains = self.new; sent = sent })) }
        ensures fault { IfErr result (λ fault. IsGivenBack (made self.old frame.domain (Carry frame.number)) frame fault) }
        ensures stray { made self.old frame.domain (Carry frame.number) ≡ None → result ≡ Err (FrameFault.Stray frame) }
        ensures err { OnErr result (self.new ≡ self.old) }
    {
        match self.place(frame.domain()) {
            Some(place) => carry_at(&mut self.domains, place, frame),
            None => Err(FrameFault::Stray(frame)),
        }
    }

    /// A completion reached whom it answers.
    pub fn complete(&mut self, frame: Frame) -> Result<(), FrameFault>
        ensures ok { OnOk result (made self.old frame.domain (Deliver frame.number) ≡ Some (record { domains = self.new; sent = None })) }
        ensures fault { IfErr result (λ fault. IsStray (made self.old frame.domain (Deliver frame.number)) frame fault) }
        ensures stray { made self.old frame.domain (Deliver frame.number) ≡ None → result ≡ Err (FrameFault.Stray frame) }
        ensures err { OnErr result (self.new ≡ self.old) }
    {
        match self.place(frame.domain()) {
            Some(place) => complete_at(&mut self.domains, place, frame),
            None => Err(FrameFault::Stray(frame)),
        }
    }

    /// A packet was taken where its home has no case.
    /// That happens only in layouts that aren't guarded. It was taken at this place, and the domain of this
    /// number gets the entry, with the bytes that the packet's home has in flight. The packet's own frame ends
    /// here, while its number stays in flight at its home. It is `Stray` where there is no such entry. Memory
    /// may be refused to any such entry.
    pub fn alien(
        &mut self,
        number: DomainId,
        place: Place,
        frame: Frame,
    ) -> Result<Option<Frame>, FrameFault>
        ensures ok { IfOk result (λ sent. aliened self.old number place frame ≡ Some (record { domains = self.new; sent = sent })) }
        ensures fault { IfErr result (λ fault. IsUntaken (aliened self.old number place frame) frame fault) }
        ensures stray { aliened self.old number place frame ≡ None → result ≡ Err (FrameFault.Stray frame) }
        ensures err { OnErr result (self.new ≡ self.old) }
    {
        let at = self.place(number);
        alien_at(&mut self.domains, at, place, frame)
    }

    /// May the domain of this number have the entry of this packet?
    pub fn has_alien(&self, number: DomainId, place: Place, frame: &Frame) -> bool
        ensures { result ≡ is_some (aliened self.now number place frame.now) }
    {
        let at = self.place(number);
        has_alien(&self.domains, at, place, frame)
    }

    /// Would the entry of this packet in the domain of this number emit another?
    pub fn answers_alien(&self, number: DomainId, place: Place, frame: &Frame) -> bool
        ensures { result ≡ answers (aliened self.now number place frame.now) }
    {
        let at = self.place(number);
        answers_alien(&self.domains, at, place, frame)
    }

    /// The domain that a frame of memory is of, if it is of one.
    pub fn owner_of_frame(&self, page: u64) -> Option<DomainId>
        ensures { result ≡ owner_of_frame self.now page }
    {
        owner_of_frame(&self.domains, page)
    }
}
