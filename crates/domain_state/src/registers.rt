//! The functions of a domain, and their register pages.

ghost use Rattle.std.specs.Prelude.{◌≡◌, ℕ, List, Some, IfOk, IfSome, option_map};
ghost use Rattle.function.specs.Plans.{OpensLineTag, PlanFits, page_after, plan_of};
ghost use Rattle.std.specs.Option.{option_copied};
ghost use Rattle.fab_types.specs.declared.origin.Origin.{Origin};
ghost use Rattle.function.specs.Accesses.{IsAccess, accessed};
ghost use Rattle.host_memory.specs.Pages.{page_of};
ghost use Rattle.domain_state.specs.Closings.{completed};
ghost use Rattle.domain_state.specs.RegisterPages.{changed};
ghost use Rattle.domain_state.specs.State.{first_registers};

use fab_types::{Bdf, NoMemory, Origin, Status};
use function::{Function, Functions, OpenTag, OpenTags, Plan, TagUse};
use layout::Start;
use request_handling::{function_of, place};
use std::alloc::Global;
use tlp_view::TlpView;

/// The domain's functions at the start.
pub fn first_registers(alloc: Global, start: &Start) -> Result<Functions, NoMemory>
    ensures { IfOk result (λ made. made ≡ first_registers start.now) }
{
    let mut made = Vec::new(alloc);
    for line in start.functions() {
        if start.owns_function(line.id) {
            made.push(Function::new(alloc, line.id)?)?;
        }
    }
    Functions::new(alloc, made)
}

/// The register page of this function.
pub fn register_page(functions: &Functions, id: Bdf) -> Option<&[u8]>
    ensures { option_copied result ≡ page_of functions.now id }
{
    let function = function_of(functions, id)?;
    Some(function.page())
}

/// Does to this function's register page what the request asks for.
pub(crate) fn access(functions: &mut Functions, id: Bdf, request: &TlpView)
    requires { IsAccess request.now }
    ensures { functions.new ≡ changed functions.old id (λ page. accessed page request.now) }
{
    if let Some(at) = place(functions, id) {
        functions.access(at, request);
    }
}

/// A completion closed a Tag of this owner.
/// The data of a read line go to its function's page.
pub fn complete(
    functions: &mut Functions,
    owner: Origin,
    tag: u8,
    usage: TagUse,
    status: Status,
    payload: &[u8],
)
    ensures { functions.new ≡ completed functions.old usage owner status payload.now }
{
    match owner {
        Origin::Function(id) => complete_at(functions, id, tag, usage, status, payload),
        Origin::Host(_) => {}
    }
}

fn complete_at(
    functions: &mut Functions,
    id: Bdf,
    tag: u8,
    usage: TagUse,
    status: Status,
    payload: &[u8],
)
    ensures { functions.new ≡ completed functions.old usage (Origin.Function id) status payload.now }
{
    if let Some(at) = place(functions, id) {
        let owner = Origin::Function(id);
        functions.completed(at, OpenTag { owner, tag, usage }, status, payload);
    }
}

/// What the next tick of this function does, with these Tags open.
pub fn planned(functions: &Functions, id: Bdf, open_tags: &OpenTags) -> Option<Plan>
    ensures value { result ≡ option_map (λ page. plan_of id page open_tags.now.items) (page_of functions.now id) }
    ensures fits { IfSome result (λ plan. (page : List ℕ) → page_of functions.now id ≡ Some page → PlanFits plan page) }
    ensures tag { IfSome result OpensLineTag }
{
    let function = function_of(functions, id)?;
    Some(function.planned(open_tags))
}

/// Does to this function's register page what a tick with this plan does.
pub fn perform(functions: &mut Functions, id: Bdf, plan: &Plan)
    requires { (page : List ℕ) → page_of functions.old id ≡ Some page → PlanFits plan.now page }
    ensures { functions.new ≡ changed functions.old id (page_after plan.now) }
{
    if let Some(at) = place(functions, id) {
        functions.perform(at, plan);
    }
}
