//! The change of a domain's state that an alien packet makes.

ghost use Rattle.std.specs.Prelude.{◌≡◌, ◌+◌, ◌<◌, ◌≤◌, ◌^◌, IfOk, OnErr, length, option_map};
ghost use Rattle.domain_state.specs.Ends.{BytesFit, does};
ghost use Rattle.request_handling.specs.Heads.{descriptor_of};
ghost use Rattle.domain.specs.Receptions.{IsReceivable, received};

use crate::deliver::Arriving;
use crate::state::State;
use fab_types::{DomainId, NoMemory};
use frame_log::Frame;
use request_handling::Handling;

/// What becomes of an alien packet: it ends like one of the domain's own, or arrives as a completion.
#[derive(Drop)]
pub(crate) enum Reception {
    Ends(Handling),
    Arrives(Arriving),
}

impl State {
    /// A packet that isn't in flight here ends so. Where memory was refused nothing changes.
    fn end_bytes(
        &mut self,
        domain: DomainId,
        bytes: &[u8],
        handling: Handling,
    ) -> Result<Option<Frame>, NoMemory>
        requires blocks { self.old.counts.blocked + 1 < 2 ^ 64 }
        requires fits { BytesFit bytes.now handling.effect }
        ensures state { IfOk result (λ _. self.new ≡ (does self.old bytes.now handling).state) }
        ensures sent { IfOk result (λ sent. sent ≡ option_map (descriptor_of domain (length self.old.flight)) handling.reply) }
        ensures err { OnErr result (self.new ≡ self.old) }
    {
        let Handling { effect, reply } = handling;
        let sent = self.send(domain, reply)?;
        self.contents.perform(bytes, effect);
        Ok(sent)
    }

    /// An alien packet is received so. Where memory was refused nothing changes.
    pub(crate) fn receive(
        &mut self,
        domain: DomainId,
        bytes: &[u8],
        reception: Reception,
    ) -> Result<Option<Frame>, NoMemory>
        requires blocks { self.old.counts.blocked + 1 < 2 ^ 64 }
        requires counts { self.old.counts.unexpected + 1 < 2 ^ 64 }
        requires short { length bytes.now ≤ 272 }
        requires fits { IsReceivable self.old.open_tags bytes.now reception }
        ensures state { IfOk result (λ _. self.new ≡ (received self.old bytes.now reception).state) }
        ensures sent { IfOk result (λ sent. sent ≡ option_map (descriptor_of domain (length self.old.flight)) (received self.old bytes.now reception).emission) }
        ensures err { OnErr result (self.new ≡ self.old) }
    {
        match reception {
            Reception::Ends(handling) => self.end_bytes(domain, bytes, handling),
            Reception::Arrives(arriving) => {
                self.arrive(bytes, &arriving);
                Ok(None)
            }
        }
    }
}
