//! A desk, a lane and a reporter that refuse where a test wants them to.

ghost use Rattle.std.specs.Prelude.{⊤, ℕ, true, false};
ghost use Rattle.domain.specs.Domains.{DomainView};
ghost use Rattle.lane.specs.Queues.{frames_of};

use domain::Domain;
use fab_types::{Class, NoMemory, PortId, Violation};
use frame_log::{Frame, FrameFault};
use lane::{Desk, FrameQueue, Reporter};
use port::Reports;
use switch_output::{LaneOut, VettedFrame};

/// A desk with one domain.
#[derive(Drop)]
pub struct OneDomain {
    /// The domain that refuses.
    pub domain: Domain,
}

impl Desk for OneDomain {
    ghost Known = { DomainView };

    ghost known = { λ d. d.domain };

    ghost refuses = { λ known frame port answer after. ⊤ };

    ghost unknown = { λ known frame port. ⊤ };

    ghost wants = { λ known frame port. ⊤ };

    fn refuse(&mut self, frame: Frame, port: PortId) -> Result<Option<Frame>, FrameFault> {
        self.domain.refuse(frame, port)
    }
}

/// A lane that takes so many packets, and gives all others back.
/// It never says before that it is full.
#[derive(Drop)]
pub struct Giving {
    /// The packets that it took.
    pub queue: FrameQueue<16>,
    /// How many more it takes.
    pub left: u64,
    /// How many it gave back, in a number that wraps.
    pub refused: u64,
}

impl LaneOut for Giving {
    ghost Lane = { ℕ };

    ghost lane = { λ _. 0 };

    ghost sent = { λ l. frames_of l.queue.queue.waiting };

    ghost refusals = { λ l. l.refused };

    ghost may_refuse = { λ lane class. true };

    ghost is_sure = { false };

    fn is_full(&mut self, _class: Class) -> bool {
        false
    }

    fn push(&mut self, packet: VettedFrame) -> Result<(), VettedFrame> {
        if self.left == 0 || self.queue.has_no_place(packet.frame().head().cost.class) {
            self.refused = self.refused.wrapping_add(1);
            return Err(packet);
        }
        if self.queue.put(packet.into_frame()).is_err() {
            unreachable!();
        }
        self.left -= 1;
        Ok(())
    }
}

/// A reporter that has a place, or has none.
#[derive(Drop)]
pub struct Place {
    /// The reports that it took.
    pub reports: Reports,
    /// Has it a place?
    pub is_free: bool,
    /// How many reports it gave back, in a number that wraps.
    pub refused: u64,
}

impl Reporter for Place {
    ghost Line = { ⊤ };

    ghost line = { λ _. tt };

    ghost reported = { λ p. p.reports.violations };

    ghost refusals = { λ p. p.refused };

    ghost has_room = { λ place. false };

    ghost is_sure = { false };

    fn prepare_report(&mut self) -> Result<(), NoMemory> {
        self.reports.prepare_report()
    }

    fn report(&mut self, violation: Violation) -> Result<(), Violation> {
        if !self.is_free {
            self.refused = self.refused.wrapping_add(1);
            return Err(violation);
        }
        match self.reports.report(violation) {
            Ok(()) => Ok(()),
            Err(violation) => {
                self.refused = self.refused.wrapping_add(1);
                Err(violation)
            }
        }
    }
}
