//! The plan of the tests' layout, worked out by hand. Its workers are, from number 0 on, the ports 01:00.0, 04:00.0,
//! 02:00.0, 02:01.0, 02:02.0, 05:00.0 and 05:01.0, the functions 03:00.0, 06:00.0, 07:00.0 and 08:00.0, and the host.

use fab_types::{Bdf, PortId};
use layout::Layout;
use layout_tests::EXAMPLE;
use std::test::Fail;
use thread_crew::WorkerId;
use thread_plan::Plan;
use thread_rings::Wire;

fn plan(rt: &HostRuntime) -> Result<Plan, Fail> {
    let layout = Layout::read(rt.alloc(), EXAMPLE)?;
    Ok(Plan::new(rt.alloc(), &layout)?)
}

/// Is the wire at this place one between these workers?
fn leads(wires: &[Wire], place: usize, from: usize, to: usize) -> bool {
    matches!(wires.get(place), Some(wire) if wire.from == from && wire.to == to)
}

/// Are there so many wires, and are those at these places between these workers?
fn are(wires: &[Wire], count: usize, known: &[(usize, usize, usize)]) -> bool {
    for (place, from, to) in known {
        if !leads(wires, *place, *from, *to) {
            return false;
        }
    }
    wires.len() == count
}

#[test]
fn workers_are_those_of_ports_then_of_functions_and_of_the_host(
    rt: HostRuntime,
) -> Result<(), Fail> {
    let plan = plan(&rt)?;
    let port = |id: u16| WorkerId::Port(PortId::new(Bdf::from_bits(id)));
    let known = [
        (1, port(0x0400)),
        (2, port(0x0200)),
        (7, WorkerId::Function(Bdf::from_bits(0x0300))),
        (11, WorkerId::Host),
    ];
    for (number, id) in known {
        assert!(rt; plan.workers().get(number).copied() == Some(id));
    }
    assert_eq!(rt; plan.workers().len(), 12);
    Ok(())
}

#[test]
fn packets_go_up_a_link_and_down_it_and_their_credits_come_back(
    rt: HostRuntime,
) -> Result<(), Fail> {
    let plan = plan(&rt)?;
    assert!(rt; are(plan.links(), 12, &[(0, 0, 11), (2, 1, 3), (7, 5, 8)]));
    assert!(rt; are(plan.credits(), 12, &[(2, 3, 1), (7, 8, 5)]));
    Ok(())
}

#[test]
fn each_port_of_a_switch_leads_to_each(rt: HostRuntime) -> Result<(), Fail> {
    let plan = plan(&rt)?;
    let known = [(0, 0, 0), (7, 2, 4), (18, 1, 6), (24, 6, 6)];
    assert!(rt; are(plan.pairs(), 25, &known));
    Ok(())
}
