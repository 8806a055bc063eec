//! Whom a port asks to refuse a packet.

ghost use Rattle.std.specs.Prelude.{◌≡◌, ℕ, Option, MatchResult, IfErr, IfOk, IfSome, OnErr};
ghost use Rattle.frame_log.specs.Descriptor.{Descriptor, IsCompletion};
ghost use Rattle.frame_log.specs.Faults.{fault_frame};
ghost use Rattle.frame_log.specs.declared.fault.FrameFault.TheVariants as fault;

use fab_types::PortId;
use frame_log::{Frame, FrameFault};

/// The domains whose packets a port refuses.
pub trait Desk {
    /// What can be known of the domains.
    ghost Known: { Type 0 };

    /// What is known of them.
    ghost known: { Self → Known };

    /// A packet is refused by this port: what was known before, the answer, and what is known after.
    ghost refuses: { Known → Descriptor → ℕ → Option Descriptor → Known → Type 0 };

    /// No domain has the packet in flight, or it isn't one that this port refuses.
    ghost unknown: { Known → Descriptor → ℕ → Type 0 };

    /// To refuse this packet by this port, memory is needed.
    ghost wants: { Known → Descriptor → ℕ → Type 0 };

    /// Has the domain that made the packet refuse it. A non-posted request is answered by the port with
    /// a completion for its sender, whose frame is the result. `Stray`: the domain doesn't know the
    /// packet. `NoMemory`: memory was refused. Then nothing changes, and the frame is given back.
    fn refuse(&mut self, frame: Frame, port: PortId) -> Result<Option<Frame>, FrameFault>
        ensures refused { MatchResult result (λ answer. refuses (known self.old) frame port answer (known self.new)) (λ fault. fault_frame fault ≡ frame) }
        ensures stray { IfErr result (λ f. f ≡ fault.Stray frame → unknown (known self.old) frame port) }
        ensures memory { IfErr result (λ f. f ≡ fault.NoMemory frame → wants (known self.old) frame port) }
        ensures err { OnErr result (known self.new ≡ known self.old) }
        ensures reply { IfOk result (λ answer. IfSome answer IsCompletion) };
}
