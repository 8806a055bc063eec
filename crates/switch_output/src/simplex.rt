//! A direction of a link as a lane out of a switch.

ghost use Rattle.lane.specs.Queues.{frames_of};

use crate::lane_out::LaneOut;
use crate::vetted_frame::VettedFrame;
use fab_types::Class;
use link::Simplex;

impl LaneOut for Simplex {
    ghost use Rattle.std.specs.Prelude.{true};
    ghost use Rattle.link.specs.Channels.{is_full};
    ghost use Rattle.link.specs.Simplexes.{Before, channel};

    ghost Lane = { Before };

    ghost lane = { λ s. record { start = s.start; left = s.left; wire = s.wire; ingress = frames_of s.ingress.queue.waiting } };

    ghost sent = { λ s. frames_of s.egress.queue.waiting };

    ghost refusals = { λ s. s.egress.refusals };

    ghost may_refuse = { λ s class. is_full class (channel s) };

    ghost is_sure = { true };

    fn is_full(&mut self, class: Class) -> bool {
        self.is_full(class)
    }

    fn push(&mut self, packet: VettedFrame) -> Result<(), VettedFrame> {
        if self.is_full(packet.frame().head().cost.class) {
            return Err(packet);
        }
        self.put(packet.into_frame());
        Ok(())
    }
}
