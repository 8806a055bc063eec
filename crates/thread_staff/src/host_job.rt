//! The worker of the host: made, and taken apart.

ghost use Rattle.std.specs.Prelude.{◌≡◌, ◌++◌, ◌∷◌, [], IfOk, None, OnOk, map};
ghost use Rattle.thread_staff.specs.Building.{IsSharedOf};
ghost use Rattle.thread_staff.specs.declared.remains.Parts.TheVariants as parts;
ghost use Rattle.thread_staff.specs.Origins.{origins_in};
ghost use Rattle.thread_staff.specs.Kept.{post_kept, seat_in};
ghost use Rattle.thread_staff.specs.Roles.{host_role, starting_shares};

use crate::job::Job;
use crate::post::Post;
use crate::remains::Parts;
use crate::shared::Shared;
use crate::sides::side_of;
use fab_types::{Bdf, NoMemory, Origin};
use injector::Injector;
use layout::{Layout, Start};
use outboxes::OriginBox;
use std::alloc::Global;
use thread_crew::WorkerId;
use thread_workers::{DomainHost, FrameOwners, HostWork};

/// How many completions may wait for the injector of an origin: as many as its domain's budget has begins.
fn budget_of(layout: &Layout, origin: Origin) -> u32 {
    match origin {
        Origin::Host(domain) => layout.budget(domain),
        Origin::Function(_) => 0,
    }
}

/// Of a domain, with its outbox there, what the host's worker has; and the injector, which goes to the others.
fn domain_host(
    alloc: Global,
    layout: &Layout,
    outbox: OriginBox,
    injectors: &mut Vec<Injector>,
) -> Result<DomainHost, NoMemory>
    ensures { OnOk result (origins_in injectors.new.items ≡ origins_in injectors.old.items ++ (outbox.origin ∷ [])) }
{
    let budget = budget_of(layout, outbox.origin());
    let (injector, ends) = Injector::open(alloc, outbox.origin(), budget)?;
    injectors.push(injector)?;
    Ok(DomainHost { outbox, ends })
}

/// The same of all hosts, in their order.
fn domain_hosts(
    alloc: Global,
    layout: &Layout,
    hosts: Vec<OriginBox>,
    injectors: &mut Vec<Injector>,
) -> Result<Vec<DomainHost>, NoMemory>
    ensures { OnOk result (origins_in injectors.new.items ≡ origins_in injectors.old.items ++ map (λ outbox. outbox.origin) hosts.items) }
{
    let mut works = Vec::new(alloc);
    for outbox in hosts {
        works.push(domain_host(alloc, layout, outbox, injectors)?)?;
    }
    Ok(works)
}

/// The worker of the host, above the link of the top switch.
/// It has the outboxes of the domains' hosts, and what the layout gives each domain. The hosts' injectors go to
/// the others. It answers `NoMemory` where memory was refused.
pub(crate) fn host_post(
    alloc: Global,
    layout: &Layout,
    shared: &Shared,
    hosts: Vec<OriginBox>,
    starts: Vec<Start>,
    injectors: &mut Vec<Injector>,
) -> Result<Post, NoMemory>
    requires shared { IsSharedOf layout.now shared.now }
    requires starts { starts.items ≡ starting_shares layout.now }
    ensures role { IfOk result (λ post. (post_kept post).role ≡ host_role layout.now) }
    ensures seat { IfOk result (λ post. seat_in post.job ≡ None) }
    ensures origins { OnOk result (origins_in injectors.new.items ≡ origins_in injectors.old.items ++ map (λ outbox. outbox.origin) hosts.items) }
{
    let side = side_of(alloc, layout, Bdf::from_bits(0x0100))?;
    let bridge = shared.bridge()?;
    let locks = shared.locks()?;
    let hosts = domain_hosts(alloc, layout, hosts, injectors)?;
    let frames = FrameOwners::new(starts);
    let work = HostWork::new(alloc, hosts, frames, side, bridge, locks);
    Ok(Post {
        id: WorkerId::Host,
        job: Job::Host(work),
    })
}

/// What is left of the worker of the host.
pub(crate) fn host_parts(work: HostWork) -> Parts
    ensures { result ≡ parts.Host work.parts }
{
    Parts::Host(work.into_parts())
}
