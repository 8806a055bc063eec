//! What a platform that was read gives.

use crate::example::EXAMPLE;
use fab_types::{Bdf, DomainId};
use layout::Layout;
use platform::{CreditLimits, MapTarget};
use std::test::Fail;

fn read(rt: &HostRuntime, text: &str) -> Result<Layout, Fail> {
    Ok(Layout::read(rt.alloc(), text)?)
}

#[test]
fn an_id_is_owned_by_its_bus_or_as_a_host(rt: HostRuntime) -> Result<(), Fail> {
    let layout = read(&rt, EXAMPLE)?;
    let owners = [
        (0x0300, Some(1)),
        (0x0328, Some(1)),
        (0x0500, Some(2)),
        (0x0918, Some(1)),
        (0x0a00, None),
        (0x0010, Some(2)),
        (0x0018, None),
    ];
    for (id, owner) in owners {
        let found = layout.owner(Bdf::from_bits(id));
        assert_eq!(rt; found.map(|domain| domain.get()), owner);
    }
    Ok(())
}

/// The headers and the payload of each class, in the order of a line.
fn headers_and_data(limits: &CreditLimits) -> ((u16, u16, u16), (u16, u16, u16)) {
    (
        (
            limits.posted_headers,
            limits.non_posted_headers,
            limits.completion_headers,
        ),
        (
            limits.posted_data,
            limits.non_posted_data,
            limits.completion_data,
        ),
    )
}

#[test]
fn a_link_has_usual_credits_or_those_of_its_line(rt: HostRuntime) -> Result<(), Fail> {
    let mut text = String::from_str(rt.alloc(), EXAMPLE)?;
    text.push_str("credit 04:00.0 1 16 2 17 3 18\n")?;
    let layout = read(&rt, text.as_str())?;
    let links = [
        (0x0300, Some(((16, 16, 16), (64, 16, 64)))),
        (0x0400, Some(((1, 2, 3), (16, 17, 18)))),
        (0x0100, Some(((16, 16, 16), (64, 16, 64)))),
        (0x0200, None),
    ];
    for (id, wanted) in links {
        let found = layout.credits(Bdf::from_bits(id));
        assert!(rt; found.map(|limits| headers_and_data(&limits)) == wanted);
    }
    Ok(())
}

#[test]
fn a_domain_starts_from_its_own_share(rt: HostRuntime) -> Result<(), Fail> {
    let mut text = String::from_str(rt.alloc(), EXAMPLE)?;
    text.push_str("map 08:00.0 5 frame 3 r\nmap 03:00.0 9 frame 3 w\nmap 06:00.0 1 frame 2 w\n")?;
    let layout = read(&rt, text.as_str())?;
    let one = DomainId::new(1).ok_or("no domain")?;
    let start = layout.start(rt.alloc(), one)?.ok_or("no start")?;
    assert_eq!(rt; start.domain().get(), 1);
    assert_eq!(rt; start.budget(), 1000);
    assert_eq!(rt; start.frames(), [0, 3].as_slice());
    assert_eq!(rt; start.maps().len(), 4);
    assert!(rt;
        start
            .maps()
            .iter()
            .all(|map| map.target != MapTarget::Frame(2))
    );
    assert_eq!(rt;
        (
            start.switches().len(),
            start.ports().len(),
            start.functions().len()
        ),
        (2, 5, 4)
    );
    assert!(rt; start.is_guarded());
    let three = DomainId::new(3).ok_or("no domain")?;
    assert!(rt; layout.start(rt.alloc(), three)?.is_none());
    Ok(())
}
