//! The begins of a domain: what a submit, a tick and a request of the host change in its state.

ghost use Rattle.std.specs.Prelude.{◌≡◌, ◌+◌, ◌<◌, ◌≤◌, ◌^◌, ℕ, List, IfOk, IfSome, IsSome, OnErr, OnOk, Some, length, option_map, slice_index_or, true, vec_capacity};
ghost use Rattle.fab_types.specs.declared.head.Parties.TheVariants.{Upward};
ghost use Rattle.function.specs.declared.tags.OpenTag.{OpenTag};
ghost use Rattle.function.specs.Plans.{OpensLineTag, PlanFits};
ghost use Rattle.function.specs.Tags.{is_line};
ghost use Rattle.host_memory.specs.Pages.{page_of};
ghost use Rattle.tlp_view.specs.Requests.{packet_bytes};
ghost use Rattle.request_handling.specs.declared.handling.Made.TheVariants as made;
ghost use Rattle.request_handling.specs.Answers.{IsReply};
ghost use Rattle.request_handling.specs.Heads.{descriptor_of};
ghost use Rattle.domain_state.specs.State.{begun, with_emission};
ghost use Rattle.domain_state.specs.Tags.{and_opened, opened};
ghost use Rattle.domain.specs.Submits.{submitted};
ghost use Rattle.domain.specs.Ticks.{sent_by, ticks_by};

use crate::deliver::Record;
use crate::state::State;
use domain_state::{perform, tag_to_open};
use fab_types::{Bdf, DomainId, NoMemory, Origin, PacketBytes, Parties};
use frame_log::Frame;
use function::{OpenTag, OpenTags, Plan, TagUse};
use tlp_view::{ReadPacket, RequestBuf};

/// The Tag that a packet of this function opens, if it opens one.
fn opened_by(function: Bdf, packet: &ReadPacket<'_>) -> Option<OpenTag>
    ensures opens { (tags : List OpenTag) → and_opened tags result ≡ opened tags function packet.now }
    ensures line { IfSome result (λ open_tag. is_line open_tag.usage ≡ true → open_tag.tag < 8) }
{
    match tag_to_open(packet) {
        Some(tag) => Some(OpenTag {
            owner: Origin::Function(function),
            tag,
            usage: TagUse::Raw,
        }),
        None => None,
    }
}

/// Makes room for this Tag, if there is one, and for the record that closes it.
fn make_room(
    tags: &mut OpenTags,
    records: &mut Vec<Record>,
    opened: Option<&OpenTag>,
) -> Result<(), NoMemory>
    requires room { length tags.old.items + length records.old.items ≤ vec_capacity records.old }
    ensures tags { tags.new.items ≡ tags.old.items }
    ensures records { records.new.items ≡ records.old.items }
    ensures room { length tags.new.items + length records.new.items ≤ vec_capacity records.new }
    ensures tag { OnOk result (IfSome opened.entry (λ open_tag. 1 ≤ slice_index_or tags.new.room open_tag.now.tag 0)) }
    ensures record { OnOk result (length tags.new.items + length records.new.items + 1 ≤ vec_capacity records.new) }
{
    if let Some(opened) = opened {
        tags.reserve(opened.tag)?;
    }
    // (it was reserved at the start)
    Ok(records.reserve(tags.len() + 1)?)
}

/// Opens this Tag, if there is one. It has room.
fn open(tags: &mut OpenTags, opened: Option<OpenTag>)
    requires room { IfSome opened (λ open_tag. 1 ≤ slice_index_or tags.old.room open_tag.tag 0) }
    requires fits { length tags.old.items + 1 < 2 ^ 64 }
    requires line { IfSome opened (λ open_tag. is_line open_tag.usage ≡ true → open_tag.tag < 8) }
    ensures tags { tags.new.items ≡ and_opened tags.old.items opened }
    ensures one { length tags.new.items ≤ length tags.old.items + 1 }
{
    if let Some(OpenTag { owner, tag, usage }) = opened {
        tags.open_reserved(owner, tag, usage);
    }
}

impl State {
    /// Emits a packet of a function, which has these bytes, and opens its Tag if it waits for a completion.
    pub(crate) fn submit(
        &mut self,
        domain: DomainId,
        function: Bdf,
        packet: &ReadPacket<'_>,
        bytes: PacketBytes,
    ) -> Result<Frame, NoMemory>
        requires same { bytes ≡ packet.now }
        requires short { length packet.now ≤ 272 }
        requires begins { self.old.counts.begins + 1 < 2 ^ 32 }
        ensures state { IfOk result (λ _. self.new ≡ with_emission (submitted self.old function packet.now) (record { parties = Upward function; bytes = packet.now })) }
        ensures frame { IfOk result (λ frame. frame ≡ descriptor_of domain (length self.old.flight) (record { parties = Upward function; bytes = packet.now })) }
        ensures err { OnErr result (self.new ≡ self.old) }
    {
        let opened = opened_by(function, packet);
        make_room(&mut self.open_tags, &mut self.records, opened.as_ref())?;
        let frame = self
            .flight
            .emit_read(domain, Parties::Upward(function), packet, bytes)?;
        open(&mut self.open_tags, opened);
        self.contents.counts.begins += 1;
        Ok(frame)
    }

    /// Begins by emitting this request, which opens this Tag if it waits for a completion.
    pub(crate) fn request(
        &mut self,
        domain: DomainId,
        parties: Parties,
        packet: &RequestBuf,
        opened: Option<OpenTag>,
    ) -> Result<Frame, NoMemory>
        requires made { IsReply parties (made.Request packet.now) }
        requires line { IfSome opened (λ open_tag. is_line open_tag.usage ≡ true → open_tag.tag < 8) }
        requires begins { self.old.counts.begins + 1 < 2 ^ 32 }
        ensures state { IfOk result (λ _. self.new ≡ with_emission (begun self.old opened) (record { parties = parties; bytes = packet_bytes packet.now })) }
        ensures frame { IfOk result (λ frame. frame ≡ descriptor_of domain (length self.old.flight) (record { parties = parties; bytes = packet_bytes packet.now })) }
        ensures err { OnErr result (self.new ≡ self.old) }
    {
        make_room(&mut self.open_tags, &mut self.records, opened.as_ref())?;
        let frame = self.flight.emit_made(domain, parties, packet.bytes())?;
        open(&mut self.open_tags, opened);
        self.contents.counts.begins += 1;
        Ok(frame)
    }

    /// A tick of this function with this plan.
    pub(crate) fn tick(
        &mut self,
        domain: DomainId,
        function: Bdf,
        plan: &Plan,
    ) -> Result<Option<Frame>, NoMemory>
        requires fits { (page : List ℕ) → page_of self.old.registers function ≡ Some page → PlanFits plan.now page }
        requires tag { OpensLineTag plan.now }
        requires begins { self.old.counts.begins + 1 < 2 ^ 32 }
        ensures state { IfOk result (λ _. self.new ≡ (ticks_by self.old function plan.now).state) }
        ensures sent { IfOk result (λ sent. sent ≡ option_map (descriptor_of domain (length self.old.flight)) (sent_by function plan.now)) }
        ensures err { OnErr result ((self.new ≡ self.old) × IsSome (sent_by function plan.now)) }
    {
        let sent = match plan {
            Plan::Emit(packet, opened) => {
                let parties = Parties::Upward(function);
                Some(self.request(domain, parties, packet, *opened)?)
            }
            Plan::Nothing | Plan::Halt | Plan::Fault | Plan::Pass => {
                self.contents.counts.begins += 1;
                None
            }
        };
        perform(&mut self.contents.registers, function, plan);
        Ok(sent)
    }
}
