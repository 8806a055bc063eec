//! What is left of workers.

ghost use Rattle.std.specs.Prelude.{◌≡◌, ◌++◌, IfOk, OnOk, map, option_to_list};
ghost use Rattle.monitor.specs.Reporting.{seat_of};
ghost use Rattle.thread_staff.specs.Kept.{post_kept, seat_in};
ghost use Rattle.thread_staff.specs.Marks.{config_in, config_left, mark_left, mark_of, parts_in};
ghost use Rattle.thread_staff.specs.Seats.{seats_of};

use crate::function_job::function_parts;
use crate::host_job::host_parts;
use crate::job::Job;
use crate::port_job::port_parts;
use crate::post::Post;
use fab_types::NoMemory;
use monitor::QueueReporter;
use port::Port;
use std::alloc::Global;
use thread_crew::WorkerId;
use thread_workers::{FunctionParts, HostParts, LinkSide};

/// What is left of a port's worker.
/// It is the port, with its strays and what it holds, and its side of its link, with what waits there.
#[derive(Drop)]
pub struct PortRemains {
    /// The port, with its strays and what it holds.
    pub port: Port,
    /// Its side of its link, with what waits there.
    pub side: LinkSide,
}

/// What is left of a worker's work.
#[derive(Drop)]
pub enum Parts {
    /// Of a port's worker.
    Port(PortRemains),
    /// Of a function's worker.
    Function(FunctionParts),
    /// Of the worker of the host.
    Host(HostParts),
}

/// What is left of a worker.
#[derive(Drop)]
pub struct Remains {
    /// Which worker it was.
    pub id: WorkerId,
    /// What is left of its work.
    pub parts: Parts,
}

/// What is left of workers, with the ends of the ports among them.
/// These are ends of the queue of violations.
#[derive(Drop)]
pub struct AllRemains {
    /// What is left of each worker, in their order.
    pub remains: Vec<Remains>,
    /// The ends of the ports among them, in their order.
    pub reporters: Vec<QueueReporter>,
}

/// Takes a worker's work apart. The end of the queue of a port goes to the others.
fn parts_of(job: Job, reporters: &mut Vec<QueueReporter>) -> Result<Parts, NoMemory>
    ensures parts { IfOk result (λ parts. parts ≡ parts_in job) }
    ensures config { IfOk result (λ parts. config_left parts ≡ config_in job) }
    ensures seat { OnOk result (map seat_of reporters.new.items ≡ map seat_of reporters.old.items ++ option_to_list (seat_in job)) }
{
    match job {
        Job::Port(work) => {
            let (parts, reporter) = port_parts(work);
            reporters.push(reporter)?;
            Ok(parts)
        }
        Job::Function(work) => Ok(function_parts(work)),
        Job::Host(work) => Ok(host_parts(work)),
    }
}

/// Takes workers apart, in their order. It answers `NoMemory` where memory was refused.
pub fn remains_of(alloc: Global, posts: Vec<Post>) -> Result<AllRemains, NoMemory>
    ensures parts { IfOk result (λ all. map (λ r. r.parts) all.remains.items ≡ map (λ p. parts_in p.job) posts.items) }
    ensures marks { IfOk result (λ all. map mark_left all.remains.items ≡ map mark_of (map post_kept posts.items)) }
    ensures seats { IfOk result (λ all. map seat_of all.reporters.items ≡ seats_of (map post_kept posts.items)) }
{
    let mut remains = Vec::new(alloc);
    let mut reporters = Vec::new(alloc);
    for post in posts {
        let Post { id, job } = post;
        let parts = parts_of(job, &mut reporters)?;
        remains.push(Remains { id, parts })?;
    }
    Ok(AllRemains { remains, reporters })
}
