//! The call of a domain that a begin names.

ghost use Rattle.std.specs.Prelude.{◌≡◌, Err, IfErr, IfOk, None, OnErr, Some};
ghost use Rattle.std.specs.Result.{IsOkUnless};
ghost use Rattle.fab_types.specs.declared.faults.begin.BeginFault.{BeginFault};
ghost use Rattle.rtrb.specs.Ring.{SameConsumer};
ghost use Rattle.domain.specs.Domains.{Makes};
ghost use Rattle.injector.specs.Serves.{begin_fault, entry_of, is_memory_fault, memory_fault, IsIdle, Refuses, Serves};

use crate::begin::Ask;
use crate::begin_ring::BeginRing;
use domain::Domain;
use fab_types::{BeginFault, MmioFault, SubmitFault, TickFault};
use frame_log::Frame;

/// Makes the call of the domain that is asked for.
fn perform(domain: &mut Domain, ask: &Ask) -> Result<Option<Frame>, BeginFault>
    ensures ok { IfOk result (λ sent. Makes domain.old (entry_of ask.now) domain.new sent) }
    ensures refused { (fault : BeginFault) → begin_fault domain.old ask.now ≡ Some fault → result ≡ Err fault }
    ensures accepted { begin_fault domain.old ask.now ≡ None → IsOkUnless result (memory_fault ask.now) }
    ensures err { OnErr result (domain.new ≡ domain.old) }
{
    match ask {
        Ask::Submit(function, bytes) => match domain.submit(*function, bytes.as_slice()) {
            Ok(frame) => Ok(Some(frame)),
            Err(fault) => Err(BeginFault::Submit(fault)),
        },
        Ask::Tick(function) => match domain.tick(*function) {
            Ok(sent) => Ok(sent),
            Err(fault) => Err(BeginFault::Tick(fault)),
        },
        Ask::Mmio(access) => match domain.mmio(access) {
            Ok(frame) => Ok(Some(frame)),
            Err(fault) => Err(BeginFault::Mmio(fault)),
        },
    }
}

/// Was memory refused?
fn is_memory_fault(fault: &BeginFault) -> bool
    ensures { result ≡ is_memory_fault fault.now }
{
    matches!(
        fault,
        BeginFault::Submit(SubmitFault::NoMemory)
            | BeginFault::Tick(TickFault::NoMemory)
            | BeginFault::Mmio(MmioFault::NoMemory)
    )
}

/// Makes the one call of the domain that the next begin names.
/// The next begin is the one that is held, or else the oldest of the ring, which is taken out. The call is made
/// with the begin's inputs. What it emits is the result; a tick may emit nothing and is accepted all the same.
/// Without a begin nothing happens. The call that emits may have to wait for another thread; what is said holds
/// if it returns.
///
/// # Errors
///
/// The fault of that call, after which the domain is as it was. The begin is counted as refused; but where
/// memory was refused it is held, and the next `serve` makes the same call again.
pub fn serve(domain: &mut Domain, ring: &mut BeginRing) -> Result<Option<Frame>, BeginFault>
    ensures ring { SameConsumer ring.old.consumer ring.new.consumer }
    ensures ok { IfOk result (λ sent. Serves domain.old ring.old domain.new ring.new sent) }
    ensures err { IfErr result (λ fault. Refuses domain.old ring.old domain.new ring.new fault) }
{
    if !ring.fetch() {
        return Ok(None);
    }
    let Some(begin) = ring.held() else {
        unreachable!();
    };
    match perform(domain, &begin.what) {
        Ok(sent) => {
            ring.accept();
            Ok(sent)
        }
        Err(fault) => {
            if !is_memory_fault(&fault) {
                ring.refuse();
            }
            Err(fault)
        }
    }
}
