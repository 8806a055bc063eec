//! The fabric of a layout, before it runs.

ghost use Rattle.std.specs.Prelude.{◌≡◌, IfOk, length, map};
ghost use Rattle.std.specs.Arc.{arc_value};
ghost use Rattle.domains.specs.Domains.{starting_domains};
ghost use Rattle.thread_staff.specs.Building.{IsSharedOf};
ghost use Rattle.port_threads.specs.Building.{AreRingsOf};
ghost use Rattle.port_threads.specs.Fabrics.{IsFabricOf, posts_in};
ghost use Rattle.thread_staff.specs.Origins.{origins_in};

use crate::joining::{Pieces, joined};
use crate::monitor_worker::Monitor;
use crate::resting::Resting;
use crate::rings::{Rings, rings_of};
use bridge::Bridge;
use domain::Domain;
use domains::domains_of;
use fab_types::NoMemory;
use injector::Injector;
use layout::Layout;
use std::alloc::Global;
use std::sync::Arc;
use thread_domains::Locks;
use thread_plan::Plan;
use thread_staff::{Shared, Staff, staff_of, starts_of};

/// The switches of a layout, and these domains of it under locks.
fn shared_of(alloc: Global, layout: &Layout, domains: Vec<Domain>) -> Result<Shared, NoMemory>
    requires { domains.items ≡ starting_domains layout.now }
    ensures { IfOk result (λ shared. IsSharedOf layout.now shared) }
{
    let bridge = Arc::new(alloc, Bridge::new(alloc, layout)?)?;
    let locks = Arc::new(alloc, Locks::new(alloc, domains)?)?;
    Ok(Shared { bridge, locks })
}

/// Gives each worker the ends of its rings.
fn put_together(
    alloc: Global,
    plan: Plan,
    is_guarded: bool,
    rings: Rings,
    staff: Staff,
    locks: Arc<Locks, Global>,
    injectors: Vec<Injector>,
) -> Result<Resting, NoMemory>
    requires rings { AreRingsOf plan rings }
    requires count { length staff ≡ length plan.workers }
    ensures tables { IfOk result (λ fabric. fabric.tables ≡ plan) }
    ensures guarded { IfOk result (λ fabric. fabric.guarded ≡ is_guarded) }
    ensures posts { IfOk result (λ fabric. posts_in fabric ≡ staff) }
    ensures numbers { IfOk result (λ fabric. fabric.numbers ≡ arc_value locks) }
    ensures origins { IfOk result (λ fabric. fabric.origins ≡ origins_in injectors.items) }
{
    let (posts, watch) = staff.into_parts();
    let Rings {
        links,
        credits,
        pairs,
    } = rings;
    let parts = Pieces {
        posts,
        links: links.ends,
        credits: credits.ends,
        pairs: pairs.ends,
    };
    Ok(Resting {
        workers: joined(alloc, parts)?,
        monitor: Monitor { watch },
        plan,
        is_guarded,
        locks,
        injectors,
        links: links.made,
        credits: credits.made,
        pairs: pairs.made,
    })
}

/// All workers of the fabric of a layout, with their rings and the domains at their start. It answers `NoMemory` where
/// memory was refused.
pub(crate) fn build(alloc: Global, layout: &Layout) -> Result<Resting, NoMemory>
    ensures { IfOk result (λ fabric. IsFabricOf layout.now fabric) }
{
    let plan = Plan::new(alloc, layout)?;
    let rings = rings_of(alloc, &plan)?;
    let domains = domains_of(alloc, layout)?;
    let starts = starts_of(alloc, &domains)?;
    let shared = shared_of(alloc, layout, domains)?;
    let (staff, injectors) = staff_of(alloc, layout, &shared, starts)?;
    let Shared { bridge: _, locks } = shared;
    put_together(
        alloc,
        plan,
        layout.is_guarded(),
        rings,
        staff,
        locks,
        injectors,
    )
}
