//! The domains of a fabric at the desk of a port.

use crate::agents::Agents;
use fab_types::PortId;
use frame_log::{Frame, FrameFault};
use lane::Desk;

impl Desk for Agents {
    ghost use Rattle.std.specs.Prelude.{◌≡◌, None, Some};
    ghost use Rattle.domain.specs.declared.entry.Entry.TheVariants.{Refuse};
    ghost use Rattle.domains.specs.Agents.{AgentsView};
    ghost use Rattle.domains.specs.Domains.{Emits, made};

    ghost Known = { AgentsView };

    ghost known = { λ agents. agents };

    // What answers the packet leaves by the port, and waits in no outbox.
    ghost refuses = { λ known frame port answer after. (made known.domains frame.domain (Refuse frame.number) ≡ Some (record { domains = after.domains; sent = answer })) × (after.outboxes ≡ known.outboxes) };

    ghost unknown = { λ known frame port. made known.domains frame.domain (Refuse frame.number) ≡ None };

    ghost wants = { λ known frame port. Emits (made known.domains frame.domain (Refuse frame.number)) };

    fn refuse(&mut self, frame: Frame, port: PortId) -> Result<Option<Frame>, FrameFault> {
        self.domains.refuse(frame, port)
    }
}
