//! The workers of a fabric as they are taken on.

ghost use Rattle.std.specs.Prelude.{◌≡◌, ◌++◌, ◌∷◌, [], IfOk, None, OnErr, OnOk, map};
ghost use Rattle.std.specs.Arc.{arc_value};
ghost use Rattle.thread_crew.specs.declared.worker_id.WorkerId.TheVariants as worker;
ghost use Rattle.thread_staff.specs.Watched.{watch_kept};
ghost use Rattle.thread_staff.specs.Kept.{post_kept, role_of, seat_in};
ghost use Rattle.thread_staff.specs.Roles.{port_role};
ghost use Rattle.thread_staff.specs.Seats.{AreWatched};

use crate::job::Job;
use crate::post::Post;
use bridge::Bridge;
use fab_types::{NoMemory, PortId};
use monitor::Watch;
use port::Port;
use std::alloc::Global;
use std::marker::Model;
use std::sync::Arc;
use thread_crew::WorkerId;
use thread_domains::Locks;
use thread_workers::{LinkSide, PortWork};

/// Workers without the ends of their rings, and the monitor's end.
/// That is the end of the queue of violations, at which the ports among them have their seats. A contract sees
/// of each worker what no turn changes, a `PostKept`.
#[derive(Drop)]
pub struct Staff {
    watch: Watch,
    posts: Vec<Post>,
}

impl Model for Staff {
    ghost use Rattle.std.specs.Prelude.{List};
    ghost use Rattle.thread_staff.specs.Building.{IsStaff, staff_view};
    ghost use Rattle.thread_staff.specs.Kept.{PostKept};

    ghost Value = { List PostKept };

    ghost view = { staff_view };

    ghost invariant = { IsStaff };
}

impl Staff {
    /// No worker, and an empty queue of violations. It answers `NoMemory` where memory was refused.
    pub(crate) fn open(alloc: Global) -> Result<Staff, NoMemory>
        ensures { IfOk result (λ staff. staff ≡ []) }
    {
        Ok(Staff {
            watch: Watch::open(alloc)?,
            posts: Vec::new(alloc),
        })
    }

    /// One worker more, which has no seat. After `NoMemory` there are those that there were.
    pub(crate) fn add(&mut self, post: Post) -> Result<(), NoMemory>
        requires { seat_in post.job ≡ None }
        ensures ok { OnOk result (self.new ≡ self.old ++ post_kept post ∷ []) }
        ensures err { OnErr result (self.new ≡ self.old) }
    {
        self.posts.reserve(1)?;
        self.posts.push_reserved(post);
        Ok(())
    }

    /// The worker of a port more, at the next seat. After `NoMemory` there are those that there were.
    pub(crate) fn add_port(
        &mut self,
        id: PortId,
        port: Port,
        bridge: Arc<Bridge, Global>,
        side: LinkSide,
        locks: Arc<Locks, Global>,
    ) -> Result<(), NoMemory>
        ensures ok { OnOk result (map role_of self.new ≡ map role_of self.old ++ port_role (worker.Port id) port.config (arc_value bridge) ∷ []) }
        ensures err { OnErr result (self.new ≡ self.old) }
    {
        // Room first: a seat that was given is taken.
        self.posts.reserve(1)?;
        let reporter = self.watch.admit()?;
        let work = PortWork::new(port, bridge, side, locks, reporter);
        self.posts.push_reserved(Post {
            id: WorkerId::Port(id),
            job: Job::Port(work),
        });
        Ok(())
    }

    /// The workers and the monitor's end of the queue.
    pub fn into_parts(self) -> (Vec<Post>, Watch)
        ensures posts { map post_kept result.0.items ≡ self }
        ensures watched { AreWatched (watch_kept result.1) self }
    {
        let Staff { watch, posts } = self;
        (posts, watch)
    }
}
