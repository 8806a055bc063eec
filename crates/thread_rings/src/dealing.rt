//! Dealing out the ends of rings.

ghost use Rattle.std.specs.Prelude.{◌≡◌, ◌<◌, ℕ, List, map, replicate, All, IfOk, OnOk, length, vec_len};
ghost use Rattle.thread_rings.specs.Names.{RingName, out_name, in_name};
ghost use Rattle.thread_rings.specs.Wired.{no_tags, out_given, in_given, AreWithin, dealt, tags_of, table_of};

use crate::ends::Ends;
use crate::laid::Laid;
use crate::ring::Ring;
use rtrb::{Consumer, Producer};
use std::alloc::{AllocError, Global};

/// Workers without ends.
fn idle<T: Drop>(alloc: Global, count: usize) -> Result<Vec<Ends<T>>, AllocError>
    ensures { IfOk result (λ workers. map tags_of workers.items ≡ replicate count no_tags) }
{
    let mut workers = Vec::new(alloc);
    for _ in 0..count {
        workers.push(Ends::none(alloc))?;
    }
    Ok(workers)
}

/// Gives a worker an end to put into.
#[tactic(auto, using(crate::proofs::Dealt::given_out))]
fn give_out<T: Drop>(
    workers: &mut Vec<Ends<T>>,
    worker: usize,
    number: usize,
    producer: Producer<T>,
) -> Result<(), AllocError>
    requires { worker < vec_len workers.old }
    ensures count { vec_len workers.new ≡ vec_len workers.old }
    ensures given { OnOk result
        (map tags_of workers.new.items ≡ out_given (map tags_of workers.old.items) worker (number, out_name producer)) }
{
    workers[worker].give_out(number, producer)?;
    Ok(())
}

/// Gives a worker an end to take from.
#[tactic(auto, using(crate::proofs::Dealt::given_in))]
fn give_in<T: Drop>(
    workers: &mut Vec<Ends<T>>,
    worker: usize,
    number: usize,
    consumer: Consumer<T>,
) -> Result<(), AllocError>
    requires { worker < vec_len workers.old }
    ensures count { vec_len workers.new ≡ vec_len workers.old }
    ensures given { OnOk result
        (map tags_of workers.new.items ≡ in_given (map tags_of workers.old.items) worker (number, in_name consumer)) }
{
    workers[worker].give_in(number, consumer)?;
    Ok(())
}

/// Gives the ends of a ring to the workers that the wire names.
fn deal_one<T: Drop>(
    workers: &mut Vec<Ends<T>>,
    from: usize,
    to: usize,
    number: usize,
    ring: Ring<T>,
) -> Result<(), AllocError>
    requires from { from < vec_len workers.old }
    requires to { to < vec_len workers.old }
    ensures count { vec_len workers.new ≡ vec_len workers.old }
    ensures given { OnOk result (map tags_of workers.new.items
        ≡ in_given (out_given (map tags_of workers.old.items) from (number, out_name ring.out)) to (number, out_name ring.out)) }
{
    let Ring { out, input } = ring;
    give_out(workers, from, number, out)?;
    give_in(workers, to, number, input)
}

/// Deals the ends of all rings out to so many workers.
/// It does so in the order of the table: the end to put into goes to the worker that its wire leads from, the
/// other to the one that it leads to. A worker's lists have its ends in that order. Where memory was refused,
/// all rings are let go.
pub fn deal<T: Drop>(
    alloc: Global,
    count: usize,
    rings: Vec<Laid<T>>,
) -> Result<Vec<Ends<T>>, AllocError>
    requires { AreWithin count (map (λ r. r.wire) rings.items) }
    ensures dealt { IfOk result (λ workers. map tags_of workers.items ≡ dealt count (table_of rings.items)) }
    ensures count { IfOk result (λ workers. vec_len workers ≡ count) }
{
    let mut workers = idle(alloc, count)?;
    let mut number = 0;
    for laid in rings {
        let Laid { wire, ring } = laid;
        deal_one(&mut workers, wire.from, wire.to, number, ring)?;
        number += 1;
    }
    Ok(workers)
}
