use fab_types::{AddressType, Bdf, Class, Status};
use std::test::Fail;
use tlp_view::{Enables, Kind, TlpView, cost};

/// A memory write of one DW to 1000h, by 03:00.0.
pub const WRITE: [u8; 16] = [
    0x40, 0, 0, 1, 3, 0, 0x2f, 0x0f, 0, 0, 0x10, 0, 0x11, 0x22, 0x33, 0x44,
];

/// A memory read of one DW at 1000h, by 03:00.0 with Tag 20h.
pub const READ: [u8; 12] = [0, 0, 0, 1, 3, 0, 0x20, 0x0f, 0, 0, 0x10, 0];

/// The number of the cause for which bytes are malformed, or 0.
fn cause_of(bytes: &[u8]) -> u8 {
    match TlpView::read(bytes) {
        Ok(_) => 0,
        Err(cause) => cause.number(),
    }
}

/// Bytes, and the number of the cause for which they are malformed. Byte enables are tested before the page.
const CAUSES: [(&[u8], u8); 10] = [
    (&WRITE, 0),
    (&[0x60, 0, 0, 1, 3, 0, 0, 0x0f, 0, 0, 0x10, 0], 1),
    (&[0x80, 0, 0, 0, 0, 0, 0, 0, 0, 0, 0, 0], 2),
    (
        &[0x40, 0, 0, 2, 3, 0, 0, 0xff, 0, 0, 0x10, 0, 1, 2, 3, 4],
        3,
    ),
    (&[0x40, 0, 0, 65, 3, 0, 0, 0xff, 0, 0, 0x10, 0], 3),
    (
        &[0x40, 0, 0, 1, 3, 0, 0, 0xff, 0, 0, 0x10, 0, 1, 2, 3, 4],
        4,
    ),
    (
        &[
            0x40, 0, 0, 2, 3, 0, 0, 0x66, 0, 0, 0x1f, 0xfc, 1, 2, 3, 4, 5, 6, 7, 8,
        ],
        4,
    ),
    (
        &[
            0x40, 0, 0, 2, 3, 0, 0, 0xff, 0, 0, 0x1f, 0xfc, 1, 2, 3, 4, 5, 6, 7, 8,
        ],
        5,
    ),
    (
        &[
            0x60, 0, 0, 1, 3, 0, 0, 0x0f, 0, 0, 0, 0, 0, 0, 0x10, 0, 1, 2, 3, 4,
        ],
        6,
    ),
    (
        &[0x40, 0x10, 0, 1, 3, 0, 0, 0x0f, 0, 0, 0x10, 0, 1, 2, 3, 4],
        7,
    ),
];

#[test]
fn the_first_cause_is_named(rt: HostRuntime) {
    for (bytes, cause) in CAUSES {
        assert_eq!(rt; cause_of(bytes), cause, "{bytes:?}");
    }
}

#[test]
fn a_payload_of_65_dw_is_refused(rt: HostRuntime) {
    let mut bytes = [0; 272];
    bytes[..12].copy_from_slice(&[0x40, 0, 0, 65, 3, 0, 0, 0xff, 0, 0, 0x10, 0]);
    assert_eq!(rt; cause_of(&bytes), 3);
}

/// What every packet has: its kind and class, who asks, and under which Tag. This helper and the next two have no
/// clauses, so that a test that calls them is proved in short time.
fn identity(packet: &TlpView<'_>) -> (Kind, Class, u16, u8) {
    let requester = packet.requester().bits();
    (packet.kind(), packet.class(), requester, packet.tag())
}

/// What a memory request has: its address, with the type of it, and its byte enables.
fn target(packet: &TlpView<'_>) -> (Option<u64>, Option<AddressType>, Option<Enables>) {
    (packet.address(), packet.at(), packet.enables())
}

/// A completion's status, its byte count and the low bits of the address.
pub fn result_of(packet: &TlpView<'_>) -> (Option<Status>, Option<u16>, Option<u8>) {
    (packet.status(), packet.byte_count(), packet.lower_address())
}

const FIRST_DW: Option<Enables> = Some(Enables { first: 15, last: 0 });

#[test]
fn a_write_gives_its_fields(rt: HostRuntime) -> Result<(), Fail> {
    let packet = TlpView::read(&WRITE).ok().ok_or("a packet")?;
    assert_eq!(rt; identity(&packet), (Kind::MWr, Class::Posted, 0x0300, 0x2f));
    assert_eq!(rt;
        target(&packet),
        (Some(0x1000), Some(AddressType::Untranslated), FIRST_DW)
    );
    assert_eq!(rt; result_of(&packet), (None, None, None));
    assert_eq!(rt; packet.length(), Some(1));
    assert_eq!(rt; packet.payload(), &WRITE[12..]);
    Ok(())
}

/// The class of bytes and what their data cost.
fn cost_of(bytes: &[u8]) -> (Class, u16) {
    let cost = cost(bytes);
    (cost.class, cost.data.get())
}

#[test]
fn malformed_bytes_cost_one_posted_header(rt: HostRuntime) {
    assert_eq!(rt; cost_of(&WRITE), (Class::Posted, 1));
    assert_eq!(rt; cost_of(&WRITE[..15]), (Class::Posted, 0));
    assert_eq!(rt; cost_of(&READ), (Class::NonPosted, 0));
    assert_eq!(rt; cost_of(&READ[..11]), (Class::Posted, 0));
}

#[test]
fn a_payload_is_split_between_dwords(rt: HostRuntime) -> Result<(), Fail> {
    let bytes = [
        0x40, 0, 0, 2, 3, 0, 0, 0x5a, 0, 0, 0x10, 0, 1, 2, 3, 4, 5, 6, 7, 8,
    ];
    let packet = TlpView::read(&bytes).ok().ok_or("a packet")?;
    let (before, after) = packet.split_at_dword(1).ok_or("two DW")?;
    assert_eq!(rt; before, [1, 2, 3, 4].as_slice());
    assert_eq!(rt; after, [5, 6, 7, 8].as_slice());
    assert!(rt; packet.split_at_dword(3).is_none());
    Ok(())
}

// What a header log of a real machine holds, with 0 for its payload, and what it is known to be.
#[derive(Drop)]
struct Logged {
    bytes: &'static [u8],
    kind: Kind,
    requester: u16,
    tag: u8,
    enables: Option<Enables>,
    address: Option<u64>,
}

#[test]
fn logged_headers_are_read(rt: HostRuntime) -> Result<(), Fail> {
    let rows = [
        Logged {
            bytes: &[0x40, 0, 0, 1, 0, 0, 0, 0x0f, 0xfe, 0xc3, 0, 0, 0, 0, 0, 0],
            kind: Kind::MWr,
            requester: 0,
            tag: 0,
            enables: FIRST_DW,
            address: Some(0xfec3_0000),
        },
        Logged {
            bytes: &[
                0x60, 0, 0, 1, 0, 0, 2, 0x0f, 0, 0, 0x2f, 0xf8, 0, 0, 0, 0, 0, 0, 0, 0,
            ],
            kind: Kind::MWr,
            requester: 0,
            tag: 2,
            enables: FIRST_DW,
            address: Some(0x2ff8_0000_0000),
        },
        Logged {
            bytes: &[4, 0, 0, 1, 0, 0, 7, 1, 2, 1, 0, 0x34],
            kind: Kind::CfgRd0,
            requester: 0,
            tag: 7,
            enables: None,
            address: None,
        },
        Logged {
            bytes: &[4, 0, 0, 1, 0, 0x18, 0, 3, 4, 1, 0, 0],
            kind: Kind::CfgRd0,
            requester: 0x0018,
            tag: 0,
            enables: None,
            address: None,
        },
        Logged {
            bytes: &[4, 0, 0, 1, 0, 0x20, 0x0a, 3, 5, 1, 0, 0],
            kind: Kind::CfgRd0,
            requester: 0x0020,
            tag: 0x0a,
            enables: None,
            address: None,
        },
    ];
    for row in &rows {
        let packet = TlpView::read(row.bytes).ok().ok_or("a packet")?;
        let (kind, _, requester, tag) = identity(&packet);
        assert_eq!(rt; (kind, requester, tag), (row.kind, row.requester, row.tag));
        let (address, _, enables) = target(&packet);
        assert_eq!(rt; (address, enables), (row.address, row.enables));
        assert_eq!(rt; packet.length(), Some(1));
    }
    Ok(())
}
