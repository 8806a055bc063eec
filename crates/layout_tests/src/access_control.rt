use crate::example::EXAMPLE;
use acs::{AcsBlock, Verdict, redirect, vet};
use bridge::Route;
use fab_types::{AcsControl, AddressType, Bdf, Check, Header, PortId};
use layout::Layout;
use platform::DownstreamPort;
use std::test::Fail;

// The controls that are set, and the eight bytes.
const BLOCKS: [(u8, [u8; 8]); 5] = [
    (0x1f, [0x0d, 0x00, 0x01, 0x00, 0x1f, 0x00, 0x1f, 0x00]),
    (0x1e, [0x0d, 0x00, 0x01, 0x00, 0x1f, 0x00, 0x1e, 0x00]),
    (0x1d, [0x0d, 0x00, 0x01, 0x00, 0x1f, 0x00, 0x1d, 0x00]),
    (0x16, [0x0d, 0x00, 0x01, 0x00, 0x1f, 0x00, 0x16, 0x00]),
    (0x00, [0x0d, 0x00, 0x01, 0x00, 0x1f, 0x00, 0x00, 0x00]),
];

#[test]
fn a_block_is_eight_bytes_of_which_the_controls_are_the_seventh(
    rt: HostRuntime,
) -> Result<(), Fail> {
    for (bits, bytes) in BLOCKS {
        let control = AcsControl::from_register(bits).ok_or("no controls")?;
        assert_eq!(rt; AcsBlock::new(control).bytes(), bytes);
    }
    Ok(())
}

#[test]
fn a_block_with_a_vector_has_that_behind_the_controls(rt: HostRuntime) -> Result<(), Fail> {
    let control = AcsControl::from_register(0x3f).ok_or("no controls")?;
    let bytes = [
        0x0d, 0x00, 0x01, 0x00, 0x3f, 0x20, 0x3f, 0x00, 0xfb, 0xff, 0xff, 0xff,
    ];
    assert_eq!(rt; AcsBlock::with_egress(control, 0xffff_fffb), bytes);
    Ok(())
}

fn port_of(layout: &Layout, id: u16) -> Option<DownstreamPort> {
    let id = PortId::new(Bdf::from_bits(id));
    layout.ports().iter().find(|port| port.id == id).copied()
}

fn request(requester: u16) -> Header {
    Header::OtherRequest {
        requester: Bdf::from_bits(requester),
    }
}

fn translated_write(requester: u16) -> Header {
    Header::Memory {
        requester: Bdf::from_bits(requester),
        address_type: AddressType::Translated,
        address: 0x1000,
    }
}

fn completion(relaxed_ordering: bool) -> Header {
    Header::Completion {
        target: Bdf::from_bits(0x0700),
        relaxed_ordering,
    }
}

const SPOOFED: Verdict = Verdict::Violation(Check::SourceValidation);

const TRANSLATED: Verdict = Verdict::Violation(Check::TranslationBlocking);

#[test]
fn the_bus_of_the_requester_is_tested_and_then_the_address_type(
    rt: HostRuntime,
) -> Result<(), Fail> {
    let layout = Layout::read(rt.alloc(), EXAMPLE)?;
    let packets = [
        (0x0210, request(0x09ff), Verdict::Pass),
        (0x0210, request(0x0a00), SPOOFED),
        (0x0208, request(0x051d), Verdict::Pass),
        (0x0500, translated_write(0x0300), SPOOFED),
        (0x0500, translated_write(0x0600), TRANSLATED),
    ];
    for (id, header, verdict) in packets {
        let port = port_of(&layout, id).ok_or("no port")?;
        assert!(rt; vet(&port, &header) == verdict);
    }
    Ok(())
}

#[test]
fn a_guarded_port_sends_all_up_but_relaxed_completions(rt: HostRuntime) -> Result<(), Fail> {
    let layout = Layout::read(rt.alloc(), EXAMPLE)?;
    let port = port_of(&layout, 0x0500).ok_or("no port")?;
    let beside = Route::Port(PortId::new(Bdf::from_bits(0x0508)));
    let left = redirect(&port, beside, &request(0x0600)).ok();
    assert_eq!(rt; left.ok_or("stopped")?, Route::Up);
    let left = redirect(&port, beside, &completion(false)).ok();
    assert_eq!(rt; left.ok_or("stopped")?, Route::Up);
    let left = redirect(&port, beside, &completion(true)).ok();
    assert_eq!(rt; left.ok_or("stopped")?, beside);
    let left = redirect(&port, Route::OwnEgress, &request(0x0600)).ok();
    assert_eq!(rt; left.ok_or("stopped")?, Route::Up);
    Ok(())
}
