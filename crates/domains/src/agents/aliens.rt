//! Packets that are taken where their home has no case.

ghost use Rattle.std.specs.Prelude.{◌≡◌, IfErr, IfOk, None, OnErr, OnOk, Some, is_some, true};
ghost use Rattle.fab_types.specs.declared.origin.Origin.{Origin};
ghost use Rattle.domains.specs.Agents.{aliened_at_function, aliened_at_host};
ghost use Rattle.domains.specs.AlienPlaces.{HasMore, HasPlaces, IsGrown, is_of};
ghost use Rattle.domains.specs.Aliens.{IsUntaken, aliened, aliened_at, answers};
ghost use Rattle.domains.specs.Domains.{place_of_function};

use crate::agents::Agents;
use crate::domains::Domains;
use fab_types::{Bdf, DomainId, NoMemory, Origin, Place};
use frame_log::{Frame, FrameFault};
use layout::Start;
use outboxes::Outboxes;
use received::OwnsFrames;

/// How many packets an alien one may lead to: its answer or what goes on in its place, and the answer to that.
const PACKETS: usize = 2;

/// Places in the outboxes of a domain for what an alien packet may lead to.
fn make_places(outboxes: &mut Outboxes, start: &Start) -> Result<(), NoMemory>
    ensures grown { IsGrown outboxes.old outboxes.new }
    ensures ok { OnOk result ((origin : Origin) → is_of start.now origin ≡ true → HasMore 2 outboxes.old outboxes.new origin) }
{
    outboxes.more(Origin::Host(start.domain()), PACKETS)?;
    for function in start.functions() {
        if start.owns_function(function.id) {
            outboxes.more(Origin::Function(function.id), PACKETS)?;
        }
    }
    Ok(())
}

/// The domain of this number gets the entry of a packet that was taken at this place. Its outboxes have places for what
/// that leads to.
fn enter(
    domains: &mut Domains,
    outboxes: &mut Outboxes,
    number: DomainId,
    place: Place,
    frame: Frame,
) -> Result<Option<Frame>, FrameFault>
    ensures grown { IsGrown outboxes.old outboxes.new }
    ensures places { OnOk result (HasPlaces domains.old number outboxes.old outboxes.new) }
    ensures ok { IfOk result (λ sent. aliened domains.old number place frame ≡ Some (record { domains = domains.new; sent = sent })) }
    ensures fault { IfErr result (λ fault. IsUntaken (aliened domains.old number place frame) frame fault) }
    ensures stray { aliened domains.old number place frame ≡ None → result ≡ Err (FrameFault.Stray frame) }
    ensures err { OnErr result (domains.new ≡ domains.old) }
{
    let there = place;
    if !domains.has_alien(number, there, &frame) {
        return Err(FrameFault::Stray(frame));
    }
    let Some(domain) = domains.domain(number) else {
        return Err(FrameFault::Stray(frame));
    };
    if make_places(outboxes, domain.start()).is_err() {
        return Err(FrameFault::NoMemory(frame));
    }
    domains.alien(number, place, frame)
}

impl Agents {
    /// The host took a packet that its home has no case for.
    /// That happens only in layouts that aren't guarded. The domain of this number gets the entry, and what
    /// answers it waits in the outbox of that domain's host. The packet's own frame ends here, while its number
    /// stays in flight at its home. It is `Stray` where there is no such entry. Memory may be refused to any
    /// such entry.
    pub fn alien_at_host(
        &mut self,
        number: DomainId,
        place: Place,
        frame: Frame,
    ) -> Result<(), FrameFault>
        ensures ok { OnOk result (aliened_at_host self.old number place frame ≡ Some self.new) }
        ensures fault { IfErr result (λ fault. IsUntaken (aliened self.old.domains number place frame) frame fault) }
        ensures stray { aliened_at_host self.old number place frame ≡ None → result ≡ Err (FrameFault.Stray frame) }
        ensures err { OnErr result (self.new ≡ self.old) }
    {
        let host = Origin::Host(number);
        let sent = enter(&mut self.domains, &mut self.outboxes, number, place, frame)?;
        if let Some(answer) = sent {
            self.outboxes.put(host, answer);
        }
        Ok(())
    }

    /// A function took a packet that its home has no case for.
    /// The function's domain gets the entry, and what answers it waits in the function's outbox.
    pub fn alien_at_function(
        &mut self,
        function: Bdf,
        place: Place,
        frame: Frame,
    ) -> Result<(), FrameFault>
        ensures ok { OnOk result (aliened_at_function self.old function place frame ≡ Some self.new) }
        ensures fault { IfErr result (λ fault. IsUntaken (aliened_at self.old.domains (place_of_function self.old.domains function) place frame) frame fault) }
        ensures stray { aliened_at_function self.old function place frame ≡ None → result ≡ Err (FrameFault.Stray frame) }
        ensures err { OnErr result (self.new ≡ self.old) }
    {
        let Some(home) = self.domains.domain_of_function(function) else {
            return Err(FrameFault::Stray(frame));
        };
        let owner = home.start().domain();
        let sent = enter(&mut self.domains, &mut self.outboxes, owner, place, frame)?;
        if let Some(answer) = sent {
            self.outboxes.put(Origin::Function(function), answer);
        }
        Ok(())
    }

    /// A port took a packet that it has no case for.
    /// The packet's home gets the entry. What answers it is the result, and leaves by the port.
    pub fn alien_at_port(&mut self, place: Place, frame: Frame) -> Result<Option<Frame>, FrameFault>
        ensures ok { IfOk result (λ sent. (aliened self.old.domains frame.domain place frame ≡ Some (record { domains = self.new.domains; sent = sent })) × (self.new.outboxes ≡ self.old.outboxes)) }
        ensures fault { IfErr result (λ fault. IsUntaken (aliened self.old.domains frame.domain place frame) frame fault) }
        ensures stray { aliened self.old.domains frame.domain place frame ≡ None → result ≡ Err (FrameFault.Stray frame) }
        ensures err { OnErr result (self.new ≡ self.old) }
    {
        let home = frame.domain();
        enter(&mut self.domains, &mut self.outboxes, home, place, frame)
    }

    /// Has the home of a packet an entry for it as an alien?
    /// An alien is one that nobody at this place has a case for.
    pub fn has_alien(&self, place: Place, frame: &Frame) -> bool
        ensures { result ≡ is_some (aliened self.now.domains frame.now.domain place frame.now) }
    {
        self.domains.has_alien(frame.domain(), place, frame)
    }

    /// Would that entry emit a packet?
    pub fn answers_alien(&self, place: Place, frame: &Frame) -> bool
        ensures { result ≡ answers (aliened self.now.domains frame.now.domain place frame.now) }
    {
        self.domains.answers_alien(frame.domain(), place, frame)
    }
}

impl OwnsFrames for Agents {
    ghost use Rattle.domains.specs.Aliens.{owner_of_frame};

    ghost owner_of_frame = { λ agents. owner_of_frame agents.domains };

    fn owner_of_frame(&self, number: u64) -> Option<DomainId> {
        self.domains.owner_of_frame(number)
    }
}
