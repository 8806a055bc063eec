//! What a worker does.

ghost use Rattle.std.specs.Prelude.{◌≡◌};

use crate::worker_id::WorkerId;
use std::snapshot::Snapshot;
use std::sync::Wait;
use std::thread::Promise;

/// A worker that makes turns.
pub trait Work {
    /// What is known of a worker, whatever it did.
    ghost Kept: { Type 0 };

    /// What no turn changes.
    ghost kept: { Self → Kept };

    /// Which worker it is: a gate is asked by this name.
    fn id(&self) -> WorkerId;

    /// Makes one turn.
    fn turn<R: Wait>(&mut self, rt: &R)
        ensures { kept self.new ≡ kept self.old };
}

/// The promise of a worker's thread.
/// The worker that comes back has what no turn changes. The promise holds the worker as it was when its thread
/// began, for contracts alone, and has no bytes.
#[derive(Drop)]
pub struct Keeps<W>(pub Snapshot<W>);

impl<W: Work> Promise<W> for Keeps<W> {
    ghost kept_by = { λ p r. W.kept r ≡ W.kept p.0.value };
}
