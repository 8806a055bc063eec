//! A completion that reached the function or host that it answers, and its record.

ghost use Rattle.std.specs.Prelude.{◌≡◌, IfErr, IsSome, None, OnErr, OnOk};
ghost use Rattle.rtrb.specs.Ring.{known_free, SameProducer};
ghost use Rattle.domain.specs.declared.entry.Entry.TheVariants.{Deliver};
ghost use Rattle.domain.specs.Domains.{IsStray, Makes};
ghost use Rattle.injector.specs.Records.{given_out, Records};

use crate::record_ring::RecordRing;
use domain::Domain;
use frame_log::{Frame, FrameFault};

/// Has the domain take a completion as delivered, as `Domain::deliver`. Its record, where it has one, goes into the ring;
/// where the ring is full it is held, until `flush` puts it. The caller sees to it that none is held
/// (`RecordRing::holds_record`). It takes no memory.
///
/// # Errors
///
/// `Stray`, the fault of `Domain::deliver`. Then the domain and the ring are as they were, and the frame is given back.
pub fn settle(domain: &mut Domain, frame: Frame, ring: &mut RecordRing) -> Result<(), FrameFault>
    requires { ring.old.held ≡ None }
    ensures ring { SameProducer ring.old.producer ring.new.producer }
    ensures ok { OnOk result ((frame.domain ≡ (domain.old.share).domain) × Makes domain.old (Deliver frame.number) domain.new None) }
    ensures record_ { OnOk result (Records domain.old frame.number ring.old ring.new) }
    ensures full { IsSome ring.new.held → known_free ring.new.producer ≡ 0 }
    ensures fault { IfErr result (λ fault. IsStray domain.old (Deliver frame.number) frame fault) }
    ensures err { OnErr result ((domain.new ≡ domain.old) × (ring.new ≡ ring.old)) }
{
    if let Some(record) = domain.deliver(frame)? {
        ring.add(record);
    }
    Ok(())
}

/// Puts the record that is held, if one is, into the ring.
/// Where the ring is full it stays held. None is lost, doubled or overtaken.
pub fn flush(ring: &mut RecordRing)
    ensures ring { SameProducer ring.old.producer ring.new.producer }
    ensures kept { given_out ring.new ≡ given_out ring.old }
    ensures full { IsSome ring.new.held → known_free ring.new.producer ≡ 0 }
{
    ring.retry();
}
