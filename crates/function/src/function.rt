//! An endpoint function.

ghost use Rattle.std.specs.Prelude.{◌≡◌, ◌≤◌, ◌*◌, IfOk, IfSome, length, vec_len};
ghost use Rattle.function.specs.Registers.{first_page};
ghost use Rattle.function.specs.Plans.{page_after, plan_of, tick_of, OpensLineTag, PlanFits};
ghost use Rattle.function.specs.Closings.{closed_by};
ghost use Rattle.std.specs.Option.{option_copied};
ghost use Rattle.function.specs.Accesses.{accessed, answer, read_data, shown_part, IsAccess};
ghost use Rattle.tlp_view.specs.Packet.{dw_count};
ghost use Rattle.tlp_view.specs.declared.kind.Kind.TheVariants.{MRd};

use crate::buffer::close;
use crate::open_tags::OpenTags;
use crate::plan::{Plan, Tick, advance, plan_of};
use crate::reads::{completion_of, place_of, shown_part};
use crate::registers::{FAULT, HALTED, PAGE, STATUS, write_page};
use crate::tags::{OpenTag, TagUse};
use fab_types::{Bdf, NoMemory, Status};
use std::alloc::Global;
use std::marker::Model;
use tlp_view::{CplBuf, Kind, TlpView};

/// A function: its ID and its register page of 4,096 bytes.
/// A DMA program of 16 lines and its buffer stand in the page. A contract sees the ID and the bytes.
#[derive(Drop)]
pub struct Function {
    id: Bdf,
    bytes: Vec<u8>,
}

impl Model for Function {
    ghost use Rattle.std.specs.Prelude.{ℕ, List};

    ghost Value = { ℕ × List ℕ };

    ghost use Rattle.function.specs.Pages.{page_of, IsPage};

    ghost view = { page_of };

    ghost invariant = { IsPage };
}

/// The page of a function at the start.
fn first_page(alloc: Global, id: Bdf) -> Result<Vec<u8>, NoMemory>
    ensures items { IfOk result (λ bytes. bytes.items ≡ first_page id) }
    ensures len { IfOk result (λ bytes. vec_len bytes ≡ 4096) }
{
    let mut bytes = Vec::with_capacity(alloc, PAGE)?;
    bytes.extend_from_slice(&[id.bus(), (id.bits() % 256) as u8, 0x46, 0x42])?;
    bytes.resize(PAGE, 0)?;
    Ok(bytes)
}

impl Function {
    /// A function with the page of the start. It answers `NoMemory` where memory was refused; no
    /// other call takes memory.
    pub fn new(alloc: Global, id: Bdf) -> Result<Function, NoMemory>
        ensures { IfOk result (λ function. function ≡ (id, first_page id)) }
    {
        let bytes = first_page(alloc, id)?;
        Ok(Function { id, bytes })
    }

    /// Its ID, which its requests and completions bear.
    pub fn id(&self) -> Bdf
        ensures { result ≡ self.now.0 }
    {
        self.id
    }

    /// The bytes of the register page.
    pub fn page(&self) -> &[u8]
        ensures value { result.now ≡ self.now.1 }
        ensures size { length result.now ≡ 4096 }
    {
        &self.bytes
    }

    /// What the next tick does, with these Tags open.
    pub fn planned(&self, open_tags: &OpenTags) -> Plan
        ensures value { result ≡ plan_of self.now.0 self.now.1 open_tags.now.items }
        ensures fits { PlanFits result self.now.1 }
        ensures tag { OpensLineTag result }
    {
        plan_of(self.id, &self.bytes, open_tags)
    }

    /// Does to the page what a tick with this plan does. Who sends the request keeps it till then.
    pub fn perform(&mut self, plan: &Plan)
        requires { PlanFits plan.now self.old.1 }
        ensures { self.new ≡ (self.old.0, page_after plan.now self.old.1) }
    {
        match plan {
            Plan::Nothing => {}
            Plan::Halt => self.bytes[STATUS] = HALTED,
            Plan::Fault => self.bytes[STATUS] = FAULT,
            Plan::Pass | Plan::Emit(_, _) => advance(&mut self.bytes),
        }
    }

    /// One tick of the program, with these Tags open.
    pub fn tick(&mut self, open_tags: &OpenTags) -> Tick
        ensures page { self.new ≡ (self.old.0, page_after (plan_of self.old.0 self.old.1 open_tags.now.items) self.old.1) }
        ensures sent { result ≡ tick_of (plan_of self.old.0 self.old.1 open_tags.now.items) }
    {
        let plan = self.planned(open_tags);
        self.perform(&plan);
        match plan {
            Plan::Emit(packet, opened) => Tick::Emit(packet, opened),
            Plan::Nothing | Plan::Halt | Plan::Fault | Plan::Pass => Tick::Nothing,
        }
    }

    /// The bytes of the page that a read of at most 64 DW shows, disabled ones too; none of a read of no bytes.
    /// The address counts modulo 4,096.
    pub fn shown(&self, request: &TlpView) -> Option<&[u8]>
        requires read { (request.now).kind ≡ MRd }
        requires short { dw_count (request.now).length ≤ 64 }
        ensures value { option_copied result ≡ shown_part self.now.1 request.now }
        ensures data { IfSome result (λ part. part.now ≡ read_data self.now.1 request.now) }
        ensures size { IfSome result (λ part. length part.now ≡ 4 * dw_count (request.now).length) }
    {
        shown_part(&self.bytes, request)
    }

    /// What answers a request for the page, if anything does.
    /// It is the completion of a read of at most 64 DW, and nothing for a write.
    pub fn answer(&self, request: &TlpView) -> Option<CplBuf>
        requires { IsAccess request.now }
        ensures { result ≡ answer self.now.0 self.now.1 request.now }
    {
        if matches!(request.kind(), Kind::MWr) {
            return None;
        }
        Some(completion_of(self.id, &self.bytes, request))
    }

    /// Does to the page what the request says. A read leaves it as it is.
    pub(crate) fn change(&mut self, request: &TlpView)
        requires { IsAccess request.now }
        ensures { self.new ≡ (self.old.0, accessed self.old.1 request.now) }
    {
        if matches!(request.kind(), Kind::MWr) {
            write_page(&mut self.bytes, place_of(request), request);
        }
    }

    /// A memory write to the page, or a read of it, which is answered.
    /// A read is of at most 64 DW. The address counts modulo 4,096.
    pub fn access(&mut self, request: &TlpView) -> Option<CplBuf>
        requires { IsAccess request.now }
        ensures page { self.new ≡ (self.old.0, accessed self.old.1 request.now) }
        ensures answer { result ≡ answer self.old.0 self.old.1 request.now }
    {
        let answer = self.answer(request);
        self.change(request);
        answer
    }

    /// A completion has closed this Tag of the function.
    /// The data of a read line go to the buffer, or the program ends.
    pub fn completed(&mut self, tag: OpenTag, status: Status, payload: &[u8])
        ensures { self.new ≡ (self.old.0, closed_by self.old.1 tag.usage status payload.now) }
    {
        match tag.usage {
            TagUse::Raw => {}
            TagUse::Line(offset, count) => close(&mut self.bytes, offset, count, status, payload),
        }
    }
}
