//! The end of a packet: what it changes in a domain's state.

ghost use Rattle.std.specs.Prelude.{◌≡◌, ℕ, List, ◌+◌, ◌<◌, ◌≤◌, ◌^◌, IfOk, IsSome, MatchOption, OnErr, length, option_map, vec_capacity, true, false, None, Some, ◌++◌, ◌∷◌, []};
ghost use Rattle.tlp_view.specs.Bytes.{packet_of};
ghost use Rattle.tlp_view.specs.Malformed.{malformed};
ghost use Rattle.tlp_view.specs.Packet.{Packet};
ghost use Rattle.tlp_view.specs.Runs.{is_write};
ghost use Rattle.platform.specs.Share.{Share};
ghost use Rattle.domain.specs.Deliveries.{HasArrived, arrival, arrival_by, arrived, unexpected};
ghost use Rattle.domain.specs.Receptions.{MayArrive};
ghost use Rattle.function.specs.Tags.{closed, use_of};
ghost use Rattle.domain_state.specs.Closings.{completed};
ghost use Rattle.domain_state.specs.Ends.{EffectFits, conclude, done, replied};
ghost use Rattle.request_handling.specs.Heads.{descriptor_of};
ghost use Rattle.request_handling.specs.Dispositions.{Suits, effect_of, may_answer, reply_of};
ghost use Rattle.request_handling.specs.Emissions.{Emission};
ghost use Rattle.domain.specs.Domains.{IsAnswered, disposed};
ghost use Rattle.domain_state.specs.State.{item_at};
ghost use Rattle.domain_state.specs.Tags.{is_open};

use crate::deliver::{Arriving, Record, arriving_of};
use crate::state::State;
use domain_state::complete;
use fab_types::{DomainId, NoMemory};
use frame_log::Frame;
use function::{Functions, OpenTags, TagUse};
use layout::Start;
use request_handling::{Disposition, Effect, Reply};
use tlp_view::TlpView;

/// Closes the Tag that the completion of these bytes names, and keeps the record of it, which is made in its place.
fn record(tags: &mut OpenTags, records: &mut Vec<Record>, arriving: &Arriving, bytes: &[u8])
    requires short { length bytes.now ≤ 272 }
    requires well_formed { malformed bytes.now ≡ None }
    requires is_open { is_open tags.old.items arriving.now.owner arriving.now.tag ≡ true }
    requires room { length tags.old.items + length records.old.items ≤ vec_capacity records.old }
    ensures tags { tags.new.items ≡ closed tags.old.items arriving.now.owner arriving.now.tag }
    ensures records { records.new.items ≡ records.old.items ++ (arrival_by arriving.now bytes.now).delivery ∷ [] }
    ensures room { length tags.new.items + length records.new.items ≤ vec_capacity records.new }
{
    tags.close(arriving.owner, arriving.tag);
    records.push_reserved(arriving.record(bytes));
}

/// Does nothing answer a packet that ends so, whatever it is?
fn is_silent(disposition: Disposition) -> bool
    ensures silent { result ≡ true → (share : Share) → (frames registers : List (ℕ × List ℕ)) → (t : Packet) → reply_of share frames registers t disposition ≡ None }
    ensures asked { result ≡ false → (t : Packet) → is_write t.kind ≡ false → may_answer t disposition ≡ true }
{
    matches!(
        disposition,
        Disposition::Discarded | Disposition::Blocked | Disposition::Stored(..)
    )
}

/// The data of a read line go to its function's page, where the completion closes that line's Tag.
fn complete_line(functions: &mut Functions, tags: &OpenTags, arriving: &Arriving, bytes: &[u8])
    requires { malformed bytes.now ≡ None }
    ensures { functions.new ≡ completed functions.old (use_of tags.now.items arriving.now.owner arriving.now.tag) arriving.now.owner arriving.now.status (packet_of bytes.now).payload }
{
    let usage = tags.use_of(arriving.owner, arriving.tag);
    if matches!(usage, TagUse::Raw) {
        return;
    }
    let view = TlpView::again(bytes);
    complete(
        functions,
        arriving.owner,
        arriving.tag,
        usage,
        arriving.status,
        view.payload(),
    );
}

impl State {
    /// Emits what answers a packet, if anything does. Where memory was refused nothing changes.
    pub(crate) fn send(
        &mut self,
        domain: DomainId,
        reply: Option<Reply>,
    ) -> Result<Option<Frame>, NoMemory>
        ensures state { IfOk result (λ _. self.new ≡ replied self.old reply) }
        ensures sent { IfOk result (λ sent. sent ≡ option_map (descriptor_of domain (length self.old.flight)) reply) }
        ensures err { OnErr result ((self.new ≡ self.old) × IsSome reply) }
    {
        let Some(reply) = &reply else {
            return Ok(None);
        };
        let frame = self
            .flight
            .emit_made(domain, reply.parties(), reply.bytes())?;
        Ok(Some(frame))
    }

    /// Does what the end of the packet of this number does.
    fn perform(&mut self, number: u64, effect: Effect)
        requires blocks { self.old.counts.blocked + 1 < 2 ^ 64 }
        requires fits { (e : Emission) → item_at self.old.flight number ≡ Some e → EffectFits e effect }
        ensures { (e : Emission) → item_at self.old.flight number ≡ Some e → self.new ≡ done self.old e.bytes effect }
    {
        if matches!(effect, Effect::Leave) {
            return;
        }
        if let Some((_, bytes)) = self.flight.item(number) {
            self.contents.perform(bytes, effect);
        }
    }

    /// Emits what answers the packet of this number, which ends so, made as a whole. Where memory was refused nothing changes.
    // (apart from `answer`, which else would clear room for such an answer for each packet that ends)
    #[cold]
    fn send_reply(
        &mut self,
        start: &Start,
        number: u64,
        disposition: Disposition,
    ) -> Result<Option<Frame>, NoMemory>
        requires waits { IsSome (item_at self.old.flight number) }
        requires suits { (e : Emission) → item_at self.old.flight number ≡ Some e → Suits e.bytes disposition }
        ensures answered { IfOk result (λ sent. (e : Emission) → item_at self.old.flight number ≡ Some e → IsAnswered start.now self.old e disposition self.new sent) }
        ensures err { OnErr result ((self.new ≡ self.old) × ((e : Emission) → item_at self.old.flight number ≡ Some e → IsSome (disposed start.now self.old e disposition).reply)) }
    {
        let Some((_, bytes)) = self.flight.item(number) else {
            unreachable!();
        };
        let (memory, registers) = (&self.contents.memory, &self.contents.registers);
        let reply = disposition.reply(start, memory, registers, bytes);
        self.send(start.domain(), reply)
    }

    /// The same, but the data of a read's answer are lent where it is put together.
    #[tactic(auto, using(request_handling::proofs::Suiting::unanswered))]
    fn answer(
        &mut self,
        start: &Start,
        number: u64,
        disposition: Disposition,
    ) -> Result<Option<Frame>, NoMemory>
        requires waits { IsSome (item_at self.old.flight number) }
        requires suits { (e : Emission) → item_at self.old.flight number ≡ Some e → Suits e.bytes disposition }
        ensures answered { IfOk result (λ sent. (e : Emission) → item_at self.old.flight number ≡ Some e → IsAnswered start.now self.old e disposition self.new sent) }
        ensures err { OnErr result ((self.new ≡ self.old) × ((e : Emission) → item_at self.old.flight number ≡ Some e → IsSome (disposed start.now self.old e disposition).reply)) }
    {
        if is_silent(disposition) {
            return Ok(None);
        }
        let Some((_, bytes)) = self.flight.item(number) else {
            unreachable!();
        };
        if !disposition.may_answer(bytes) {
            return Ok(None);
        }
        let (memory, registers) = (&self.contents.memory, &self.contents.registers);
        if let Some(reply) = disposition.data_reply(start, memory, registers, bytes) {
            return Ok(Some(self.flight.emit_data(start.domain(), &reply)?));
        }
        self.send_reply(start, number, disposition)
    }

    /// Ends the packet of this number: emits what answers it, and does what its end does. Where memory
    /// was refused, which comes only where something answers it, nothing changes.
    pub(crate) fn conclude(
        &mut self,
        start: &Start,
        number: u64,
        disposition: Disposition,
    ) -> Result<Option<Frame>, NoMemory>
        requires waits { IsSome (item_at self.old.flight number) }
        requires blocks { self.old.counts.blocked + 1 < 2 ^ 64 }
        requires suits { (e : Emission) → item_at self.old.flight number ≡ Some e → Suits e.bytes disposition }
        requires fits { (e : Emission) → item_at self.old.flight number ≡ Some e → EffectFits e (effect_of disposition) }
        ensures state { IfOk result (λ _. (e : Emission) → item_at self.old.flight number ≡ Some e → self.new ≡ (conclude self.old number e.bytes (disposed start.now self.old e disposition)).state) }
        ensures sent { IfOk result (λ sent. (e : Emission) → item_at self.old.flight number ≡ Some e → sent ≡ option_map (descriptor_of start.now.domain (length self.old.flight)) (disposed start.now self.old e disposition).reply) }
        ensures err { OnErr result ((self.new ≡ self.old) × ((e : Emission) → item_at self.old.flight number ≡ Some e → IsSome (disposed start.now self.old e disposition).reply)) }
    {
        let sent = self.answer(start, number, disposition)?;
        self.perform(number, disposition.effect());
        self.flight.end(number);
        Ok(sent)
    }

    /// A completion of these bytes arrives so.
    pub(crate) fn arrive(&mut self, bytes: &[u8], arriving: &Arriving)
        requires counts { self.old.counts.unexpected + 1 < 2 ^ 64 }
        requires short { length bytes.now ≤ 272 }
        requires arrives { MayArrive self.old.open_tags bytes.now arriving.now }
        ensures { self.new ≡ arrived self.old (arrival_by arriving.now bytes.now) }
    {
        if arriving.is_awaited {
            complete_line(
                &mut self.contents.registers,
                &self.open_tags,
                arriving,
                bytes,
            );
            record(&mut self.open_tags, &mut self.records, arriving, bytes);
        } else {
            self.count_unexpected();
        }
    }

    /// Counts a completion that nobody waits for.
    fn count_unexpected(&mut self)
        requires { self.old.counts.unexpected + 1 < 2 ^ 64 }
        ensures { self.new ≡ unexpected self.old }
    {
        self.contents.counts.unexpected += 1;
    }

    /// Ends the packet of this number, a completion that arrives at whom it is for. Was a record made of it, since
    /// its addressee waited for it? None, and nothing changes, where it is no completion for somebody.
    pub(crate) fn deliver(&mut self, number: u64) -> Option<bool>
        requires { self.old.counts.unexpected + 1 < 2 ^ 64 }
        ensures { MatchOption result ((self.new ≡ self.old) × (arrival self.old.open_tags (item_at self.old.flight number) ≡ None))
            (λ is_recorded. HasArrived self.old number self.new is_recorded) }
    {
        let Some((parties, bytes)) = self.flight.item(number) else {
            return None;
        };
        let Some(arriving) = arriving_of(&self.open_tags, parties, bytes) else {
            return None;
        };
        if arriving.is_awaited {
            let functions = &mut self.contents.registers;
            complete_line(functions, &self.open_tags, &arriving, bytes);
            record(&mut self.open_tags, &mut self.records, &arriving, bytes);
        } else {
            self.count_unexpected();
        }
        self.flight.end(number);
        Some(arriving.is_awaited)
    }
}
