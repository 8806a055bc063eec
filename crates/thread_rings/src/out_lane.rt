//! A ring as a lane out of a port.

ghost use Rattle.std.specs.Prelude.{◌≡◌};

use crate::out_end::OutEnd;
use fab_types::Class;
use switch_output::{LaneOut, VettedFrame};

impl LaneOut for OutEnd<VettedFrame> {
    ghost use Rattle.std.specs.Prelude.{false, map, true};
    ghost use Rattle.rtrb.specs.Ring.{sent};
    ghost use Rattle.thread_rings.specs.Wired.{Tag, out_tag};

    ghost Lane = { Tag };

    ghost lane = { λ l. out_tag l };

    ghost sent = { λ l. map (λ packet. packet.frame) (sent l.producer) };

    ghost refusals = { λ l. l.refusals };

    ghost may_refuse = { λ _ _. true };

    ghost is_sure = { false };

    fn is_full(&mut self, _class: Class) -> bool {
        !self.has_place()
    }

    fn push(&mut self, packet: VettedFrame) -> Result<(), VettedFrame> {
        self.put(packet)
    }
}
