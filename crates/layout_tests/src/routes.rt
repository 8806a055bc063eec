use crate::example::EXAMPLE;
use bridge::{Bridge, Route};
use fab_types::{AddressType, Bdf, Header, PortId};
use layout::Layout;
use std::test::Fail;

fn port(id: u16) -> PortId {
    PortId::new(Bdf::from_bits(id))
}

fn request(address: u64) -> Header {
    Header::Memory {
        requester: Bdf::from_bits(0x0600),
        address_type: AddressType::Untranslated,
        address,
    }
}

fn completion(target: u16) -> Header {
    Header::Completion {
        target: Bdf::from_bits(target),
        relaxed_ordering: false,
    }
}

#[test]
fn packets_go_to_the_port_that_has_their_target_below(rt: HostRuntime) -> Result<(), Fail> {
    let layout = Layout::read(rt.alloc(), EXAMPLE)?;
    let bridge = Bridge::new(rt.alloc(), &layout)?;
    let route = |ingress: u16, header: Header| bridge.route(port(ingress), &header);
    assert_eq!(rt;
        route(0x0500, request(0x9020_0000)),
        Route::Port(port(0x0508))
    );
    assert_eq!(rt; route(0x0500, request(0x9000_0000)), Route::Up);
    assert_eq!(rt; route(0x0208, request(0x9020_0000)), Route::OwnEgress);
    assert_eq!(rt;
        route(0x0100, request(0x9030_0000)),
        Route::Port(port(0x0210))
    );
    assert_eq!(rt; route(0x0100, request(0x9040_0000)), Route::Nobody);
    assert_eq!(rt;
        route(0x0100, completion(0x0918)),
        Route::Port(port(0x0210))
    );
    Ok(())
}

/// The first of these addresses to which a request from above doesn't go as it says: to the port of this ID, or to nobody.
fn astray(bridge: &Bridge, requests: &[(u64, Option<u16>)]) -> Option<u64> {
    for (address, to) in requests {
        let wanted = match to {
            Some(id) => Route::Port(port(*id)),
            None => Route::Nobody,
        };
        if bridge.route(port(0x0100), &request(*address)) != wanted {
            return Some(*address);
        }
    }
    None
}

/// The first and the last bytes of the example's windows, and those beside them.
const BESIDE_ONE_ANOTHER: [(u64, Option<u16>); 12] = [
    (0, None),
    (0x8fff_ffff, None),
    (0x9000_0000, Some(0x0200)),
    (0x900f_ffff, Some(0x0200)),
    (0x9010_0000, Some(0x0208)),
    (0x9020_0000, Some(0x0208)),
    (0x902f_ffff, Some(0x0208)),
    (0x9030_0000, Some(0x0210)),
    (0x903f_ffff, Some(0x0210)),
    (0x9040_0000, None),
    (0x1_9000_0000, None),
    (u64::MAX, None),
];

#[test]
fn requests_go_by_the_first_and_the_last_byte_of_windows(rt: HostRuntime) -> Result<(), Fail> {
    let layout = Layout::read(rt.alloc(), EXAMPLE)?;
    let bridge = Bridge::new(rt.alloc(), &layout)?;
    assert_eq!(rt; astray(&bridge, &BESIDE_ONE_ANOTHER), None);
    Ok(())
}

const APART: &str = "pciefab 1
frames 4
switch 01:00.0 root
port 02:00.0 03 03 fff00000 ffffffff 1f 1
port 02:01.0 04 04 00000000 000fffff 1f 1
port 02:02.0 05 05 7ff00000 800fffff 1f 1
";

/// The same of these windows.
const OF_WINDOWS_APART: [(u64, Option<u16>); 11] = [
    (0, Some(0x0208)),
    (0xf_ffff, Some(0x0208)),
    (0x10_0000, None),
    (0x7fef_ffff, None),
    (0x7ff0_0000, Some(0x0210)),
    (0x800f_ffff, Some(0x0210)),
    (0x8010_0000, None),
    (0xffef_ffff, None),
    (0xfff0_0000, Some(0x0200)),
    (0xffff_ffff, Some(0x0200)),
    (0x1_0000_0000, None),
];

#[test]
fn windows_may_stand_apart_and_in_any_order(rt: HostRuntime) -> Result<(), Fail> {
    let layout = Layout::read(rt.alloc(), APART)?;
    let bridge = Bridge::new(rt.alloc(), &layout)?;
    assert_eq!(rt; astray(&bridge, &OF_WINDOWS_APART), None);
    Ok(())
}

#[test]
fn a_switch_has_a_table_of_its_ports_by_256_bus_numbers(rt: HostRuntime) -> Result<(), Fail> {
    let layout = Layout::read(rt.alloc(), EXAMPLE)?;
    let bridge = Bridge::new(rt.alloc(), &layout)?;
    let table = bridge.bus_table(port(0x0100)).ok_or("no switch")?;
    assert_eq!(rt; table.len(), 256);
    let place = |bus: usize| table.get(bus).copied();
    assert_eq!(rt; place(2), Some(None));
    assert_eq!(rt; place(3), Some(Some(port(0x0200))));
    assert_eq!(rt; place(4), Some(Some(port(0x0208))));
    assert_eq!(rt; place(7), Some(Some(port(0x0208))));
    assert_eq!(rt; place(9), Some(Some(port(0x0210))));
    assert_eq!(rt; place(10), Some(None));
    assert!(rt; bridge.bus_table(port(0x0208)).is_none());
    Ok(())
}
