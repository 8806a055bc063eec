//! The sender's end of a link as a lane out of a switch.

ghost use Rattle.lane.specs.Queues.{frames_of};

use crate::lane_out::LaneOut;
use crate::vetted_frame::VettedFrame;
use fab_types::Class;
use link::Egress;

impl LaneOut for Egress {
    ghost use Rattle.std.specs.Prelude.{◌==◌, true};
    ghost use Rattle.credit.specs.Limits.{Ledger};
    ghost use Rattle.link.specs.Channels.{count_in};

    ghost Lane = { Ledger };

    ghost lane = { λ e. e.sender };

    ghost sent = { λ e. frames_of e.queue.queue.waiting };

    ghost refusals = { λ e. e.queue.refusals };

    ghost may_refuse = { λ e class. count_in class (frames_of e.queue.queue.waiting) == 16 };

    ghost is_sure = { true };

    fn is_full(&mut self, class: Class) -> bool {
        self.is_full(class)
    }

    fn push(&mut self, packet: VettedFrame) -> Result<(), VettedFrame> {
        if self.is_full(packet.frame().head().cost.class) {
            return Err(packet);
        }
        if self.put(packet.into_frame()).is_err() {
            unreachable!();
        }
        Ok(())
    }
}
