//! Stopping workers.

ghost use Rattle.std.specs.Prelude.{◌≡◌, ◌↔◌, IfErr, IfOk, IsTrue, length, map, true, vec_len};
ghost use Rattle.std.specs.Arc.{arc_value};
ghost use Rattle.port_threads.specs.Fabrics.{posts_in};
ghost use Rattle.thread_staff.specs.Marks.{mark_left, mark_of};
ghost use Rattle.port_threads.specs.Left.{AddsUp, AreBack, AreReported, seat_left};
ghost use Rattle.thread_staff.specs.Seats.{seats_of};
ghost use Rattle.port_threads.specs.Stops.{IsStopFault, Leaves};

use crate::closing::{Reported, closed};
use crate::ending::Ending;
use crate::joining::{Pieces, apart};
use crate::resting::Resting;
use crate::running::Running;
use crate::stopped::Stopped;
use crate::tallying::tallied;
use domain::Domain;
use fab_types::{NoMemory, StopFault};
use std::alloc::Global;
use std::sync::atomic::Ordering;
use std::sync::{Arc, Wait};
use std::thread::Threads;
use thread_crew::{join_all, join_one};
use thread_domains::Locks;
use thread_staff::{AllRemains, remains_of};
use thread_totals::count_all;

/// Waits until all workers and the monitor have ended. Where memory for their list is refused they have ended all the same,
/// and are let go.
fn join<R: Threads>(
    rt: &R,
    alloc: Global,
    running: Running,
    ending: Ending,
) -> Result<Resting, NoMemory>
    ensures { IfOk result (λ fabric. fabric ≡ running) }
{
    let Running {
        plan,
        is_guarded,
        workers,
        monitor,
        flag,
        locks,
        injectors,
        links,
        credits,
        pairs,
    } = running;
    match ending {
        Ending::Now => flag.store(true, Ordering::SeqCst),
        Ending::AfterTurns => {}
    }
    let workers = join_all(rt, alloc, workers);
    let monitor = join_one(rt, monitor);
    Ok(Resting {
        workers: workers?,
        plan,
        is_guarded,
        monitor,
        locks,
        injectors,
        links,
        credits,
        pairs,
    })
}

/// The domains, which nobody else has any more: the workers were taken apart. Were they shared still, it would answer
/// `NoMemory`, as where memory was refused.
fn unlocked(alloc: Global, locks: Arc<Locks, Global>) -> Result<Vec<Domain>, NoMemory>
    ensures { IfOk result (λ domains. vec_len domains ≡ length (arc_value locks)) }
{
    match Arc::try_unwrap(locks) {
        Ok(locks) => locks.into_domains(alloc),
        Err(_) => Err(NoMemory),
    }
}

/// Takes workers apart that have ended.
fn left_of<R: Wait>(rt: &R, alloc: Global, fabric: Resting) -> Result<Stopped, NoMemory>
    ensures { IfOk result (λ stopped. Leaves fabric stopped) }
{
    let Resting {
        plan,
        is_guarded: _,
        workers,
        monitor,
        locks,
        injectors: _,
        links: made_links,
        credits: made_credits,
        pairs: made_pairs,
    } = fabric;
    let Pieces {
        posts,
        links,
        credits,
        pairs,
    } = apart(alloc, workers)?;
    let links = tallied(alloc, &made_links, plan.links(), links)?;
    let credits = tallied(alloc, &made_credits, plan.credits(), credits)?;
    let pairs = tallied(alloc, &made_pairs, plan.pairs(), pairs)?;
    let AllRemains { remains, reporters } = remains_of(alloc, posts)?;
    let Reported { list, ports } = closed(rt, alloc, monitor.watch, reporters)?;
    let domains = unlocked(alloc, locks)?;
    let count = count_all(alloc, &remains, &links.rings, &pairs.rings, &domains)?;
    Ok(Stopped {
        domains,
        links,
        credits,
        pairs,
        list,
        ports,
        remains,
        count,
    })
}

impl Running {
    /// Stops a fabric, and gives all that is left of it. It waits until all workers and the monitor have ended, before
    /// anything else: with `Now` each ends before its next turn, and with `AfterTurns` it makes first the turns that it was
    /// started for. Then both ends of every ring are put together, and the monitor takes what waits in its queue.
    ///
    /// All packets and begins are counted then ([`Stopped::totals`]).
    ///
    /// # Errors
    ///
    /// `NoMemory`: memory was refused, for a list of what is left, for what is left in a ring, or for the count.
    /// `Unbalanced`, in layouts alone whose downstream ports all have the five ACS controls set: of some domain the packets
    /// that stand anywhere are not those that it has in flight, each once, or a begin that was taken for it is neither in its
    /// journal nor refused nor held. After either no thread runs any more, and nothing is left of the fabric.
    pub fn stop<R: Threads + Wait>(
        self,
        rt: &R,
        alloc: Global,
        ending: Ending,
    ) -> Result<Stopped, StopFault>
        // Every ring of the plan comes back.
        ensures links { IfOk result (λ s. AreBack self.tables.links self.links s.links) }
        ensures credits { IfOk result (λ s. AreBack self.tables.credits self.credits s.credits) }
        ensures pairs { IfOk result (λ s. AreBack self.tables.pairs self.pairs s.pairs) }

        // The list of violations is what the ports reported.
        ensures ports { IfOk result (λ s. map seat_left s.ports.items ≡ seats_of (posts_in self)) }
        ensures reports { IfOk result (λ s. AreReported s.list.items s.ports.items) }

        // So does every worker, and every domain.
        ensures remains { IfOk result (λ s. map mark_left s.remains.items ≡ map mark_of (posts_in self)) }
        ensures domains { IfOk result (λ s. vec_len s.domains ≡ length self.numbers) }

        // Where all five controls are set on each port, nothing was lost or doubled; in any layout it says whether.
        ensures balanced { IfOk result (λ s. self.guarded ≡ true → AddsUp s) }
        ensures counted { IfOk result (λ s. IsTrue s.count.is_balanced ↔ AddsUp s) }
        ensures fault { IfErr result (λ f. IsStopFault self f) }
    {
        let is_guarded = self.is_guarded;
        let Ok(fabric) = join(rt, alloc, self, ending) else {
            return Err(StopFault::NoMemory);
        };
        let Ok(stopped) = left_of(rt, alloc, fabric) else {
            return Err(StopFault::NoMemory);
        };
        if is_guarded && !stopped.count.is_balanced {
            return Err(StopFault::Unbalanced);
        }
        Ok(stopped)
    }
}
