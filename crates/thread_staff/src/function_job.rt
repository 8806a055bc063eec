//! The worker of a function: made, and taken apart.

ghost use Rattle.std.specs.Prelude.{◌≡◌, IfOk, IsSome, None};
ghost use Rattle.fab_types.specs.declared.origin.Origin.TheVariants as origin;
ghost use Rattle.platform.specs.Owners.{domain_above};
ghost use Rattle.thread_staff.specs.Building.{IsSharedOf};
ghost use Rattle.thread_staff.specs.declared.remains.Parts.TheVariants as parts;
ghost use Rattle.thread_staff.specs.Kept.{post_kept, seat_in};
ghost use Rattle.thread_staff.specs.Roles.{function_role};

use crate::job::Job;
use crate::post::Post;
use crate::remains::Parts;
use crate::shared::Shared;
use crate::sides::side_of;
use fab_types::{NoMemory, Origin};
use injector::Injector;
use layout::Layout;
use outboxes::OriginBox;
use platform::EndpointFunction;
use std::alloc::Global;
use thread_crew::WorkerId;
use thread_workers::FunctionWork;

/// The worker of a function of the layout, with its outbox, and the function's injector. It answers `NoMemory` where memory
/// was refused.
pub(crate) fn function_post(
    alloc: Global,
    layout: &Layout,
    shared: &Shared,
    line: &EndpointFunction,
    outbox: OriginBox,
) -> Result<(Post, Injector), NoMemory>
    requires shared { IsSharedOf layout.now shared.now }
    requires own { outbox.origin ≡ origin.Function line.now.id }
    requires placed { IsSome (domain_above layout.now.ports line.now.id) }
    ensures role { IfOk result (λ made. (post_kept made.0).role ≡ function_role layout.now line.now) }
    ensures seat { IfOk result (λ made. seat_in made.0.job ≡ None) }
    ensures origin { IfOk result (λ made. made.1.origin ≡ origin.Function line.now.id) }
{
    let Some(domain) = layout.domain_above(line.id) else {
        unreachable!();
    };
    let side = side_of(alloc, layout, line.id)?;
    let bridge = shared.bridge()?;
    let locks = shared.locks()?;
    let origin = Origin::Function(line.id);
    let (injector, ends) = Injector::open(alloc, origin, layout.budget(domain))?;
    let work = FunctionWork::new(alloc, line.id, domain, outbox, ends, side, bridge, locks);
    let post = Post {
        id: WorkerId::Function(line.id),
        job: Job::Function(work),
    };
    Ok((post, injector))
}

/// What is left of a function's worker.
pub(crate) fn function_parts(work: FunctionWork) -> Parts
    ensures { result ≡ parts.Function work.parts }
{
    Parts::Function(work.into_parts())
}
