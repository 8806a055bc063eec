//! Ends of packets of the domain at a place.

ghost use Rattle.std.specs.Prelude.{◌≡◌, ◌<◌, IfErr, IfOk, IfSome, None, OnErr, OnOk, Some, length};
ghost use Rattle.fab_types.specs.declared.origin.Origin.{Origin};
ghost use Rattle.frame_log.specs.Descriptor.{IsCompletion};
ghost use Rattle.domain.specs.declared.entry.Entry.TheVariants.{Carry, Deliver, Refuse};
ghost use Rattle.domains.specs.Indexes.{place_of_origin};
ghost use Rattle.domains.specs.Domains.{IsGivenBack, IsHome, IsStray, made_at};

use domain::Domain;
use fab_types::PortId;
use frame_log::{Frame, FrameFault};

/// A packet of the domain at this place is stopped by its sender's first port.
pub(crate) fn refuse_at(
    domains: &mut [Domain],
    place: usize,
    frame: Frame,
    port: PortId,
) -> Result<Option<Frame>, FrameFault>
    requires within { place < length domains.old }
    requires home { IsHome domains.old place frame.domain }
    ensures ok { IfOk result (λ sent. made_at domains.old (Refuse frame.number) (Some place) ≡ Some (record { domains = domains.new; sent = sent })) }
    ensures reply { IfOk result (λ sent. IfSome sent IsCompletion) }
    ensures fault { IfErr result (λ fault. IsGivenBack (made_at domains.old (Refuse frame.number) (Some place)) frame fault) }
    ensures err { OnErr result (domains.new ≡ domains.old) }
    ensures places { (origin : Origin) → place_of_origin domains.new origin ≡ place_of_origin domains.old origin }
{
    domains[place].refuse(frame, port)
}

/// A packet of the domain at this place reached its completer.
pub(crate) fn carry_at(
    domains: &mut [Domain],
    place: usize,
    frame: Frame,
) -> Result<Option<Frame>, FrameFault>
    requires within { place < length domains.old }
    requires home { IsHome domains.old place frame.domain }
    ensures ok { IfOk result (λ sent. made_at domains.old (Carry frame.number) (Some place) ≡ Some (record { domains = domains.new; sent = sent })) }
    ensures fault { IfErr result (λ fault. IsGivenBack (made_at domains.old (Carry frame.number) (Some place)) frame fault) }
    ensures err { OnErr result (domains.new ≡ domains.old) }
    ensures places { (origin : Origin) → place_of_origin domains.new origin ≡ place_of_origin domains.old origin }
{
    domains[place].carry(frame)
}

/// A completion of the domain at this place reached whom it answers.
pub(crate) fn complete_at(
    domains: &mut [Domain],
    place: usize,
    frame: Frame,
) -> Result<(), FrameFault>
    requires within { place < length domains.old }
    requires home { IsHome domains.old place frame.domain }
    ensures ok { OnOk result (made_at domains.old (Deliver frame.number) (Some place) ≡ Some (record { domains = domains.new; sent = None })) }
    ensures fault { IfErr result (λ fault. IsStray (made_at domains.old (Deliver frame.number) (Some place)) frame fault) }
    ensures err { OnErr result (domains.new ≡ domains.old) }
    ensures places { (origin : Origin) → place_of_origin domains.new origin ≡ place_of_origin domains.old origin }
{
    domains[place].complete(frame)?;
    Ok(())
}
