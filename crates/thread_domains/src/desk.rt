//! The desk of a port whose domains other threads use too.

use crate::locks::Locks;
use fab_types::PortId;
use frame_log::{Frame, FrameFault};
use lane::Desk;
use std::sync::Wait;

/// A port's way to the domains that all workers share. A call may have to wait for another thread; what is said of it
/// holds if it returns.
#[derive(Drop)]
pub struct LockedDesk<'a, R: Wait> {
    /// The domains under locks.
    pub locks: &'a Locks,
    /// What waits for a lock.
    pub rt: &'a R,
}

impl<'a, R: Wait> Desk for LockedDesk<'a, R> {
    ghost use Rattle.std.specs.Prelude.{◌≡◌, IsSome, List, ℕ};
    ghost use Rattle.domain.specs.declared.entry.Entry.TheVariants.{Refuse};
    ghost use Rattle.thread_domains.specs.Locks.{IllegalThere, MadeThere, WantedThere, place_of};

    // The numbers of the locks. Of domains that others use too nothing more can be known from one call to the next.
    ghost Known = { List ℕ };

    ghost known = { λ desk. desk.locks.now };

    ghost refuses = { λ known frame port answer after. (after ≡ known) × MadeThere frame.domain (Refuse frame.number) answer };

    ghost unknown = { λ known frame port. IsSome (place_of known frame.domain) → IllegalThere frame.domain (Refuse frame.number) };

    ghost wants = { λ known frame port. WantedThere frame.domain (Refuse frame.number) };

    fn refuse(&mut self, frame: Frame, port: PortId) -> Result<Option<Frame>, FrameFault> {
        self.locks.refuse(self.rt, frame, port)
    }
}
