//! Begins of the domain at a place.

ghost use Rattle.std.specs.Prelude.{◌≡◌, ◌<◌, IfOk, None, OnErr, Some, length, slice_get};
ghost use Rattle.std.specs.Result.{IsOkUnless};
ghost use Rattle.fab_types.specs.declared.origin.Origin.{Origin};
ghost use Rattle.fab_types.specs.declared.faults.begin.SubmitFault.{SubmitFault};
ghost use Rattle.fab_types.specs.declared.faults.begin.TickFault.{TickFault};
ghost use Rattle.fab_types.specs.declared.faults.begin.MmioFault.{MmioFault};
ghost use Rattle.domain.specs.declared.entry.Entry.TheVariants.{Mmio, Submit, Tick};
ghost use Rattle.domains.specs.Indexes.{place_of_origin};
ghost use Rattle.domains.specs.Domains.{Emits, made_at, mmio_refusal_by, submit_refusal_by, tick_refusal_by};

use domain::Domain;
use fab_types::{Bdf, HostAccess, MmioFault, PacketBytes, SubmitFault, TickFault};
use frame_log::Frame;

/// A function of the domain at this place submits a packet.
pub(crate) fn submit_at(
    domains: &mut [Domain],
    place: usize,
    function: Bdf,
    bytes: &PacketBytes,
) -> Result<Frame, SubmitFault>
    requires { place < length domains.old }
    ensures ok { IfOk result (λ frame. made_at domains.old (Submit function bytes.now) (Some place) ≡ Some (record { domains = domains.new; sent = Some frame })) }
    ensures refused { (fault : SubmitFault) → submit_refusal_by (slice_get domains.old place) function bytes.now ≡ Some fault → result ≡ Err fault }
    ensures accepted { submit_refusal_by (slice_get domains.old place) function bytes.now ≡ None → IsOkUnless result SubmitFault.NoMemory }
    ensures err { OnErr result (domains.new ≡ domains.old) }
    ensures places { (origin : Origin) → place_of_origin domains.new origin ≡ place_of_origin domains.old origin }
{
    domains[place].submit_bytes(function, bytes)
}

/// The program of a function of the domain at this place has a tick.
pub(crate) fn tick_at(
    domains: &mut [Domain],
    place: usize,
    function: Bdf,
) -> Result<Option<Frame>, TickFault>
    requires { place < length domains.old }
    ensures ok { IfOk result (λ sent. made_at domains.old (Tick function) (Some place) ≡ Some (record { domains = domains.new; sent = sent })) }
    ensures refused { (fault : TickFault) → tick_refusal_by (slice_get domains.old place) function ≡ Some fault → result ≡ Err fault }
    ensures accepted { tick_refusal_by (slice_get domains.old place) function ≡ None → IsOkUnless result TickFault.NoMemory }
    ensures memory { result ≡ Err TickFault.NoMemory → Emits (made_at domains.old (Tick function) (Some place)) }
    ensures err { OnErr result (domains.new ≡ domains.old) }
    ensures places { (origin : Origin) → place_of_origin domains.new origin ≡ place_of_origin domains.old origin }
{
    domains[place].tick(function)
}

/// The host of the domain at this place reads or writes a register page.
pub(crate) fn mmio_at(
    domains: &mut [Domain],
    place: usize,
    access: &HostAccess,
) -> Result<Frame, MmioFault>
    requires { place < length domains.old }
    ensures ok { IfOk result (λ frame. made_at domains.old (Mmio access.now) (Some place) ≡ Some (record { domains = domains.new; sent = Some frame })) }
    ensures refused { (fault : MmioFault) → mmio_refusal_by (slice_get domains.old place) access.now ≡ Some fault → result ≡ Err fault }
    ensures accepted { mmio_refusal_by (slice_get domains.old place) access.now ≡ None → IsOkUnless result MmioFault.NoMemory }
    ensures err { OnErr result (domains.new ≡ domains.old) }
    ensures places { (origin : Origin) → place_of_origin domains.new origin ≡ place_of_origin domains.old origin }
{
    domains[place].mmio(access)
}
