//! What a tick does.

ghost use Rattle.std.specs.Prelude.{◌≡◌, ◌<◌, length};
ghost use Rattle.function.specs.Registers.{status_of, counter_of};
ghost use Rattle.function.specs.Plans.{advanced, plan_of, line_plan, write_plan, read_plan, fence_plan, OpensLineTag, PlanFits};

use crate::line::{Operation, ProgramLine, is_good, line_at, read_of, write_of};
use crate::open_tags::OpenTags;
use crate::registers::{HALTED, PC, RUNNING, STATUS};
use crate::tags::{OpenTag, TagUse};
use fab_types::{Bdf, Origin};
use tlp_view::RequestBuf;

/// What the next tick of a function does.
#[derive(Drop)]
pub enum Plan {
    /// Nothing: no program runs, or it waits for a completion.
    Nothing,
    /// The program ends.
    Halt,
    /// The program ends at a line that can't be done.
    Fault,
    /// A fence is passed.
    Pass,
    /// A request is sent, which opens this Tag if it is a read.
    Emit(RequestBuf, Option<OpenTag>),
}

/// What a tick did beside the function's page.
#[derive(Drop)]
pub enum Tick {
    /// No request is sent.
    Nothing,
    /// A request is sent, which opens this Tag if it is a read.
    Emit(RequestBuf, Option<OpenTag>),
}

fn write_plan(id: Bdf, page: &[u8], line: ProgramLine) -> Plan
    requires { length page.now ≡ 4096 }
    ensures { result ≡ write_plan id page.now line }
{
    if !is_good(line) {
        return Plan::Fault;
    }
    Plan::Emit(write_of(id, page, line), None)
}

fn read_plan(id: Bdf, open_tags: &OpenTags, line: ProgramLine) -> Plan
    ensures value { result ≡ read_plan id open_tags.now.items line }
    ensures tag { OpensLineTag result }
{
    if !is_good(line) {
        return Plan::Fault;
    }
    match open_tags.free_tag(id) {
        Some(tag) => {
            let opened = OpenTag {
                owner: Origin::Function(id),
                tag,
                usage: TagUse::Line(line.offset, line.count),
            };
            Plan::Emit(read_of(id, tag, line), Some(opened))
        }
        None => Plan::Nothing,
    }
}

fn fence_plan(id: Bdf, open_tags: &OpenTags) -> Plan
    ensures { result ≡ fence_plan id open_tags.now.items }
{
    if open_tags.awaits_line(id) {
        Plan::Nothing
    } else {
        Plan::Pass
    }
}

fn line_plan(id: Bdf, page: &[u8], open_tags: &OpenTags, line: ProgramLine) -> Plan
    requires { length page.now ≡ 4096 }
    ensures value { result ≡ line_plan id page.now open_tags.now.items line }
    ensures tag { OpensLineTag result }
{
    match line.operation {
        Operation::Halt => Plan::Halt,
        Operation::Write => write_plan(id, page, line),
        Operation::Read => read_plan(id, open_tags, line),
        Operation::Fence => fence_plan(id, open_tags),
        Operation::Unknown => Plan::Fault,
    }
}

/// What a tick of the function with this page does.
pub(crate) fn plan_of(id: Bdf, page: &[u8], open_tags: &OpenTags) -> Plan
    requires size { length page.now ≡ 4096 }
    requires runs { status_of page.now ≡ 1 → counter_of page.now < 16 }
    ensures value { result ≡ plan_of id page.now open_tags.now.items }
    ensures fits { PlanFits result page.now }
    ensures tag { OpensLineTag result }
{
    if page[STATUS] != RUNNING {
        return Plan::Nothing;
    }
    line_plan(id, page, open_tags, line_at(page, usize::from(page[PC])))
}

/// The program comes to its next line, and after the last one to its end.
pub(crate) fn advance(page: &mut [u8])
    requires size { length page.old ≡ 4096 }
    requires inside { counter_of page.old < 16 }
    ensures { page.new ≡ advanced page.old }
{
    let next = page[PC] + 1;
    page[PC] = next;
    if next == 16 {
        page[STATUS] = HALTED;
    }
}
