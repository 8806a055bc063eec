//! A worker of any kind.

ghost use Rattle.std.specs.Prelude.{◌≡◌};
ghost use Rattle.port_threads.specs.Kept.{kept_of};

use credit::Limits;
use frame_log::Frame;
use std::sync::Wait;
use switch_output::VettedFrame;
use thread_crew::{Work, WorkerId};
use thread_rings::Ends;
use thread_staff::Post;

/// A worker with the ends of its rings: those of its link, of the credits of that, and of the pairs of ports of its switch.
#[derive(Drop)]
pub(crate) struct Worker {
    /// Which worker it is, and its work.
    pub post: Post,
    /// The ends of the rings of its link's packets.
    pub links: Ends<Frame>,
    /// The ends of the rings of its link's credits.
    pub credits: Ends<Limits>,
    /// The ends of the rings between it and the ports of its switch.
    pub pairs: Ends<VettedFrame>,
}

impl Worker {
    fn work<R: Wait>(&mut self, rt: &R)
        ensures { kept_of self.new ≡ kept_of self.old }
    {
        self.post
            .job
            .turn(rt, &mut self.links, &mut self.credits, &mut self.pairs);
    }
}

impl Work for Worker {
    ghost use Rattle.port_threads.specs.Kept.{Kept, kept_of};

    ghost Kept = { Kept };

    ghost kept = { kept_of };

    fn id(&self) -> WorkerId {
        self.post.id
    }

    fn turn<R: Wait>(&mut self, rt: &R) {
        self.work(rt);
    }
}
