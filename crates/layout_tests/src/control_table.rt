//! What each setting of the ACS controls makes of each packet, letter by letter.

use crate::example::EXAMPLE;
use acs::{Verdict, redirect, vet};
use bridge::Route;
use fab_types::{AcsControl, AddressType, Bdf, Check, Header, PortId};
use layout::Layout;
use platform::DownstreamPort;
use std::test::Fail;

// For each packet four rows, one for each route; in each row a letter for each setting of the five controls.
const WITHOUT_EGRESS_CONTROL: [&str; 36] = [
    "^^^^^^^^^^^^^^^^^^^^^^^^^^^^^^^^",
    ">>>>^^^^>>>>^^^^>>>>^^^^>>>>^^^^",
    "<<<<<<<<<<<<<<<<^^^^^^^^^^^^^^^^",
    "................................",
    "^V^V^V^V^V^V^V^V^V^V^V^V^V^V^V^V",
    ">V>V^V^V>V>V^V^V>V>V^V^V>V>V^V^V",
    "<V<V<V<V<V<V<V<V^V^V^V^V^V^V^V^V",
    ".V.V.V.V.V.V.V.V.V.V.V.V.V.V.V.V",
    "^^BB^^BB^^BB^^BB^^BB^^BB^^BB^^BB",
    ">>BB^^BB>>BB^^BB>>BB^^BB>>BB^^BB",
    "<<BB<<BB<<BB<<BB^^BB^^BB^^BB^^BB",
    "..BB..BB..BB..BB..BB..BB..BB..BB",
    "^VBV^VBV^VBV^VBV^VBV^VBV^VBV^VBV",
    ">VBV^VBV>VBV^VBV>VBV^VBV>VBV^VBV",
    "<VBV<VBV<VBV<VBV^VBV^VBV^VBV^VBV",
    ".VBV.VBV.VBV.VBV.VBV.VBV.VBV.VBV",
    "^^^^^^^^^^^^^^^^^^^^^^^^^^^^^^^^",
    ">>>>^^^^>>>>^^^^>>>>^^^^>>>>^^^^",
    "<<<<<<<<<<<<<<<<^^^^^^^^^^^^^^^^",
    "................................",
    "^V^V^V^V^V^V^V^V^V^V^V^V^V^V^V^V",
    ">V>V^V^V>V>V^V^V>V>V^V^V>V>V^V^V",
    "<V<V<V<V<V<V<V<V^V^V^V^V^V^V^V^V",
    ".V.V.V.V.V.V.V.V.V.V.V.V.V.V.V.V",
    "^^^^^^^^^^^^^^^^^^^^^^^^^^^^^^^^",
    ">>>>>>>>^^^^^^^^>>>>>>>>^^^^^^^^",
    "<<<<<<<<<<<<<<<<^^^^^^^^^^^^^^^^",
    "................................",
    "^^^^^^^^^^^^^^^^^^^^^^^^^^^^^^^^",
    ">>>>>>>>>>>>>>>>>>>>>>>>>>>>>>>>",
    "<<<<<<<<<<<<<<<<^^^^^^^^^^^^^^^^",
    "................................",
    "^^^^^^^^^^^^^^^^^^^^^^^^^^^^^^^^",
    ">>>>>>>>>>>>>>>>>>>>>>>>>>>>>>>>",
    "<<<<<<<<<<<<<<<<^^^^^^^^^^^^^^^^",
    "................................",
];

// Egress Control set, for each packet the route to another port, whose bit in the vector is 1.
const BIT_IS_1: [&str; 9] = [
    "EEEE^^^^EEEE^^^^EEEE^^^^EEEE^^^^",
    "EVEV^V^VEVEV^V^VEVEV^V^VEVEV^V^V",
    "EEBB^^BBEEBB^^BBEEBB^^BBEEBB^^BB",
    "EVBV^VBVEVBV^VBVEVBV^VBVEVBV^VBV",
    "EEEE^^^^EEEE^^^^EEEE^^^^EEEE^^^^",
    "EVEV^V^VEVEV^V^VEVEV^V^VEVEV^V^V",
    ">>>>>>>>^^^^^^^^>>>>>>>>^^^^^^^^",
    ">>>>>>>>>>>>>>>>>>>>>>>>>>>>>>>>",
    ">>>>>>>>>>>>>>>>>>>>>>>>>>>>>>>>",
];

// The same where that bit is 0.
const BIT_IS_0: [&str; 9] = [
    ">>>>>>>>>>>>>>>>>>>>>>>>>>>>>>>>",
    ">V>V>V>V>V>V>V>V>V>V>V>V>V>V>V>V",
    ">>BB>>BB>>BB>>BB>>BB>>BB>>BB>>BB",
    ">VBV>VBV>VBV>VBV>VBV>VBV>VBV>VBV",
    ">>>>>>>>>>>>>>>>>>>>>>>>>>>>>>>>",
    ">V>V>V>V>V>V>V>V>V>V>V>V>V>V>V>V",
    ">>>>>>>>^^^^^^^^>>>>>>>>^^^^^^^^",
    ">>>>>>>>>>>>>>>>>>>>>>>>>>>>>>>>",
    ">>>>>>>>>>>>>>>>>>>>>>>>>>>>>>>>",
];

// The port of the example that has the bus 06 below it, and the one beside it.
const PORT: u16 = 0x0500;

const BESIDE: u16 = 0x0508;

fn id(bits: u16) -> PortId {
    PortId::new(Bdf::from_bits(bits))
}

fn port_of(layout: &Layout) -> Option<DownstreamPort> {
    layout
        .ports()
        .iter()
        .find(|port| port.id == id(PORT))
        .copied()
}

fn memory(requester: u16, address_type: AddressType) -> Header {
    Header::Memory {
        requester: Bdf::from_bits(requester),
        address_type,
        address: 0x1000,
    }
}

fn other(requester: u16) -> Header {
    Header::OtherRequest {
        requester: Bdf::from_bits(requester),
    }
}

fn completion(relaxed_ordering: bool) -> Header {
    Header::Completion {
        target: Bdf::from_bits(0x0700),
        relaxed_ordering,
    }
}

// The packets in the order of the rows: an ID below the port, and one that isn't.
fn headers() -> [Header; 9] {
    [
        memory(0x0600, AddressType::Untranslated),
        memory(0x0300, AddressType::Untranslated),
        memory(0x0600, AddressType::Translated),
        memory(0x0300, AddressType::Translated),
        other(0x0600),
        other(0x0300),
        completion(false),
        completion(true),
        Header::Malformed,
    ]
}

fn routes() -> [Route; 4] {
    [
        Route::Up,
        Route::Port(id(BESIDE)),
        Route::OwnEgress,
        Route::Nobody,
    ]
}

fn letter_of_check(check: Check) -> u8 {
    match check {
        Check::SourceValidation => b'V',
        Check::TranslationBlocking => b'B',
        Check::EgressControl => b'E',
    }
}

fn letter_of_verdict(verdict: Verdict) -> u8 {
    match verdict {
        Verdict::Pass => b'?',
        Verdict::Violation(check) => letter_of_check(check),
    }
}

fn letter_of_route(route: &Route) -> u8 {
    match route {
        Route::Up => b'^',
        Route::Port(_) => b'>',
        Route::OwnEgress => b'<',
        Route::Nobody => b'.',
    }
}

// What the port makes of the packet's route.
fn letter_behind_vet(port: &DownstreamPort, route: &Route, header: &Header) -> u8 {
    match redirect(port, *route, header) {
        Ok(left) => letter_of_route(&left),
        Err(verdict) => letter_of_verdict(verdict),
    }
}

// What the port makes of the packet.
fn letter(port: &DownstreamPort, route: &Route, header: &Header) -> u8 {
    match vet(port, header) {
        Verdict::Pass => letter_behind_vet(port, route, header),
        Verdict::Violation(check) => letter_of_check(check),
    }
}

// The port with these controls, and with this vector.
fn with_controls(port: &DownstreamPort, bits: u8, vector: Option<u32>) -> Option<DownstreamPort> {
    let controls = AcsControl::from_register(bits)?;
    Some(DownstreamPort {
        id: port.id,
        secondary: port.secondary,
        subordinate: port.subordinate,
        base: port.base,
        limit: port.limit,
        controls,
        owner: port.owner,
        egress_vector: vector,
    })
}

// What such a port makes of the packet.
fn letter_with(
    port: &DownstreamPort,
    bits: u8,
    vector: Option<u32>,
    route: &Route,
    header: &Header,
) -> u8 {
    match with_controls(port, bits, vector) {
        Some(port) => letter(&port, route, header),
        None => b'?',
    }
}

// Is each letter of the row what a port with its setting makes of the packet? `more` are controls that are set beside.
fn is_row(
    letters: &str,
    port: &DownstreamPort,
    more: u8,
    vector: Option<u32>,
    route: &Route,
    header: &Header,
) -> bool {
    for (setting, wanted) in letters.as_bytes().iter().enumerate() {
        let bits = (setting % 32) as u8 | more;
        if letter_with(port, bits, vector, route, header) != *wanted {
            return false;
        }
    }
    letters.len() == 32
}

#[test]
fn each_setting_of_the_five_controls_does_with_each_packet_what_its_letter_says(
    rt: HostRuntime,
) -> Result<(), Fail> {
    let layout = Layout::read(rt.alloc(), EXAMPLE)?;
    let port = port_of(&layout).ok_or("no port")?;
    let headers = headers();
    let routes = routes();
    for (row, letters) in WITHOUT_EGRESS_CONTROL.iter().enumerate() {
        let header = &headers[row / 4 % 9];
        let is_so = is_row(letters, &port, 0, None, &routes[row % 4], header);
        assert!(rt; is_so, "row {row}");
    }
    Ok(())
}

#[test]
fn egress_control_asks_the_bit_of_the_other_port(rt: HostRuntime) -> Result<(), Fail> {
    let layout = Layout::read(rt.alloc(), EXAMPLE)?;
    let port = port_of(&layout).ok_or("no port")?;
    let beside = Route::Port(id(BESIDE));
    let headers = headers();
    for (row, header) in headers.iter().enumerate() {
        let is_so = is_row(
            BIT_IS_1[row],
            &port,
            0x20,
            Some(0xffff_ffff),
            &beside,
            header,
        );
        assert!(rt; is_so, "row {row} of bit 1");
        let is_so = is_row(
            BIT_IS_0[row],
            &port,
            0x20,
            Some(0xffff_fffd),
            &beside,
            header,
        );
        assert!(rt; is_so, "row {row} of bit 0");
    }
    Ok(())
}
