ghost use Rattle.std.specs.Prelude.{◌≡◌, ◌<◌};
ghost use Rattle.credit.specs.Limits.{MayStart};

use credit::{Credits, Limits, Receiver, Sender};
use fab_types::Class::{NonPosted, Posted};
use fab_types::{Class, Cost};
use std::test::Fail;

/// Limits of posted packets, and of the other two classes.
fn limits(rt: &impl std::process::Abort, posted: (u8, u16), other: (u8, u16)) -> Limits
    ensures { MayStart result }
{
    assert!(rt; posted.0 < 128 && posted.1 < 2048 && other.0 < 128 && other.1 < 2048);
    Limits {
        posted: Credits::new(posted.0, posted.1),
        non_posted: Credits::new(other.0, other.1),
        completion: Credits::new(other.0, other.1),
    }
}

/// The cost of a packet of this class with so many bytes of payload.
fn cost(class: Class, payload: usize) -> Result<Cost, Fail> {
    Ok(Cost::of_payload(class, payload).ok_or("at most 256 bytes")?)
}

fn sent(rt: &impl std::process::Abort, sender: &mut Sender, cost: Cost) {
    let same = cost;
    assert!(rt; sender.room(same));
    sender.spend(cost);
}

#[test]
fn a_write_of_256_bytes_has_room_four_times_and_not_a_fifth(rt: HostRuntime) -> Result<(), Fail> {
    let mut start = limits(&rt, (16, 64), (16, 16));
    start.completion = Credits::new(16, 64);
    let mut sender = Sender::new(start);
    assert_eq!(rt; cost(Posted, 256)?.data.get(), 16);
    for _ in 0..4 {
        sent(&rt, &mut sender, cost(Posted, 256)?);
    }
    assert!(rt; !sender.room(cost(Posted, 256)?));
    assert!(rt; sender.room(cost(Posted, 0)?));
    Ok(())
}

#[test]
fn a_begun_unit_of_four_dwords_costs_a_whole_credit(rt: HostRuntime) -> Result<(), Fail> {
    for (bytes, credits) in [(0, 0), (4, 1), (16, 1), (20, 2), (256, 16)] {
        assert_eq!(rt; cost(Posted, bytes)?.data.get(), credits, "{bytes} bytes");
    }
    assert!(rt; Cost::of_payload(Posted, 257).is_none());
    Ok(())
}

#[test]
fn counters_that_wrapped_tell_the_same_as_totals(rt: HostRuntime) -> Result<(), Fail> {
    let start = limits(&rt, (3, 48), (16, 16));
    let mut receiver = Receiver::new(start);
    let mut sender = Sender::new(limits(&rt, (3, 48), (16, 16)));
    for round in 0..300 {
        sent(&rt, &mut sender, cost(Posted, 256)?);
        receiver.take(cost(Posted, 256)?);
        receiver.free(cost(Posted, 256)?);
        assert!(rt; sender.update(receiver.advert()), "{round}");
    }
    let (header, payload) = (
        sender.credits_consumed().posted.headers,
        sender.credits_consumed().posted.payload,
    );
    assert_eq!(rt; (header.value(), payload.value()), (44, 704));
    assert_eq!(rt; receiver.credits_received(), sender.credits_consumed());
    let advertised = sender.credit_limit().posted;
    assert_eq!(rt;
        (advertised.headers.value(), advertised.payload.value()),
        (47, 752)
    );
    assert_eq!(rt; sender.credit_limit(), receiver.advert());
    Ok(())
}

#[test]
fn limits_beyond_the_start_are_refused_and_change_nothing(rt: HostRuntime) -> Result<(), Fail> {
    let mut sender = Sender::new(limits(&rt, (3, 48), (16, 16)));
    let before = sender;
    assert!(rt; !sender.update(limits(&rt, (4, 48), (16, 16))));
    assert_eq!(rt; sender, before);
    for _ in 0..3 {
        sent(&rt, &mut sender, cost(Posted, 256)?);
    }
    assert!(rt; !sender.room(cost(Posted, 256)?));
    assert!(rt; sender.room(cost(NonPosted, 0)?));
    Ok(())
}

#[test]
fn limits_that_take_something_back_are_refused(rt: HostRuntime) {
    let mut sender = Sender::new(limits(&rt, (3, 48), (16, 16)));
    assert!(rt; !sender.update(limits(&rt, (3, 47), (16, 16))));
    assert!(rt; !sender.update(limits(&rt, (3, 48), (15, 16))));
    assert!(rt; sender.update(limits(&rt, (3, 48), (16, 16))));
}

#[test]
fn what_is_reclaimed_is_not_advertised(rt: HostRuntime) -> Result<(), Fail> {
    let start = limits(&rt, (3, 48), (16, 16));
    let mut receiver = Receiver::new(start);
    let mut sender = Sender::new(limits(&rt, (3, 48), (16, 16)));
    sent(&rt, &mut sender, cost(Posted, 256)?);
    receiver.free(cost(Posted, 256)?);
    receiver.reclaim(cost(Posted, 256)?);
    assert_eq!(rt; receiver.advert(), sender.credit_limit());
    let left = sender.left().posted;
    assert_eq!(rt; (left.headers.value(), left.payload.value()), (2, 32));
    Ok(())
}
