//! The domains of a fabric at the desk of a port.

use crate::domains::Domains;
use fab_types::PortId;
use frame_log::{Frame, FrameFault};
use lane::Desk;

impl Desk for Domains {
    ghost use Rattle.std.specs.Prelude.{◌≡◌, List, None, Some};
    ghost use Rattle.domain.specs.declared.entry.Entry.TheVariants.{Refuse};
    ghost use Rattle.domain.specs.Domains.{DomainView};
    ghost use Rattle.domains.specs.Domains.{Emits, made};

    ghost Known = { List DomainView };

    ghost known = { λ domains. domains };

    ghost refuses = { λ known frame port answer after. made known frame.domain (Refuse frame.number) ≡ Some (record { domains = after; sent = answer }) };

    ghost unknown = { λ known frame port. made known frame.domain (Refuse frame.number) ≡ None };

    ghost wants = { λ known frame port. Emits (made known frame.domain (Refuse frame.number)) };

    fn refuse(&mut self, frame: Frame, port: PortId) -> Result<Option<Frame>, FrameFault> {
        self.refuse(frame, port)
    }
}
