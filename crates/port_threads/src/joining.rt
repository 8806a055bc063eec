//! Workers and the ends of their rings: put together, and taken apart.

ghost use Rattle.std.specs.Prelude.{◌≡◌, IfOk, map, vec_len};
ghost use Rattle.thread_rings.specs.Wired.{tags_of};
ghost use Rattle.port_threads.specs.Kept.{kept_of};
ghost use Rattle.thread_staff.specs.Kept.{post_kept};

use crate::worker::Worker;
use credit::Limits;
use fab_types::NoMemory;
use frame_log::Frame;
use std::alloc::Global;
use switch_output::VettedFrame;
use thread_rings::Ends;
use thread_staff::Post;

/// Workers in one order, and the ends of each in the same.
#[derive(Drop)]
pub(crate) struct Pieces {
    /// The workers, without their ends.
    pub posts: Vec<Post>,
    /// Their ends of the rings of packets on links.
    pub links: Vec<Ends<Frame>>,
    /// Their ends of the rings of credits.
    pub credits: Vec<Ends<Limits>>,
    /// Their ends of the rings between the ports of switches.
    pub pairs: Vec<Ends<VettedFrame>>,
}

/// Each worker with its ends. It answers `NoMemory` where memory was refused.
pub(crate) fn joined(alloc: Global, parts: Pieces) -> Result<Vec<Worker>, NoMemory>
    requires links { vec_len parts.links ≡ vec_len parts.posts }
    requires credits { vec_len parts.credits ≡ vec_len parts.posts }
    requires pairs { vec_len parts.pairs ≡ vec_len parts.posts }
    ensures posts { IfOk result (λ workers. map (λ k. k.post) (map kept_of workers.items) ≡ map post_kept parts.posts.items) }
    ensures links { IfOk result (λ workers. map (λ k. k.links) (map kept_of workers.items) ≡ map tags_of parts.links.items) }
    ensures credits { IfOk result (λ workers. map (λ k. k.credits) (map kept_of workers.items) ≡ map tags_of parts.credits.items) }
    ensures pairs { IfOk result (λ workers. map (λ k. k.pairs) (map kept_of workers.items) ≡ map tags_of parts.pairs.items) }
{
    let Pieces {
        posts,
        links,
        credits,
        pairs,
    } = parts;
    let mut workers = Vec::new(alloc);
    let mut all_links = links.into_iter();
    let mut all_credits = credits.into_iter();
    let mut all_pairs = pairs.into_iter();
    for post in posts {
        let Some(links) = all_links.next() else {
            unreachable!();
        };
        let Some(credits) = all_credits.next() else {
            unreachable!();
        };
        let Some(pairs) = all_pairs.next() else {
            unreachable!();
        };
        workers.push(Worker {
            post,
            links,
            credits,
            pairs,
        })?;
    }
    Ok(workers)
}

/// Workers without their ends, and the ends. It answers `NoMemory` where memory was refused.
pub(crate) fn apart(alloc: Global, workers: Vec<Worker>) -> Result<Pieces, NoMemory>
    ensures posts { IfOk result (λ parts. map post_kept parts.posts.items ≡ map (λ k. k.post) (map kept_of workers.items)) }
    ensures links { IfOk result (λ parts. map tags_of parts.links.items ≡ map (λ k. k.links) (map kept_of workers.items)) }
    ensures credits { IfOk result (λ parts. map tags_of parts.credits.items ≡ map (λ k. k.credits) (map kept_of workers.items)) }
    ensures pairs { IfOk result (λ parts. map tags_of parts.pairs.items ≡ map (λ k. k.pairs) (map kept_of workers.items)) }
{
    let mut all_posts = Vec::new(alloc);
    let mut all_links = Vec::new(alloc);
    let mut all_credits = Vec::new(alloc);
    let mut all_pairs = Vec::new(alloc);
    for worker in workers {
        let Worker {
            post,
            links,
            credits,
            pairs,
        } = worker;
        all_posts.push(post)?;
        all_links.push(links)?;
        all_credits.push(credits)?;
        all_pairs.push(pairs)?;
    }
    Ok(Pieces {
        posts: all_posts,
        links: all_links,
        credits: all_credits,
        pairs: all_pairs,
    })
}
