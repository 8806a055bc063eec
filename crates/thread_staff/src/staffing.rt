//! The workers of a layout are taken on, in the order of the layout's lines.

ghost use Rattle.std.specs.Prelude.{◌≡◌, ◌++◌, IfOk, OnOk, map};
ghost use Rattle.outboxes.specs.Outboxes.{function_box, host_boxes};
ghost use Rattle.thread_staff.specs.Building.{IsSharedOf};
ghost use Rattle.thread_staff.specs.Origins.{function_origin, origins_in, origins_of};
ghost use Rattle.thread_staff.specs.Kept.{role_of};
ghost use Rattle.thread_staff.specs.Roles.{downstream_role, function_role, roles_of, starting_shares, upstream_role};

use crate::function_job::function_post;
use crate::host_job::host_post;
use crate::port_job::add_port;
use crate::shared::Shared;
use crate::staff::Staff;
use fab_types::{NoMemory, PortId};
use injector::Injector;
use layout::{Layout, Start};
use outboxes::{OriginBox, Outboxes};
use port::Port;
use std::alloc::Global;

fn add_upstream(
    alloc: Global,
    layout: &Layout,
    shared: &Shared,
    staff: &mut Staff,
) -> Result<(), NoMemory>
    requires shared { IsSharedOf layout.now shared.now }
    ensures { OnOk result (map role_of staff.new ≡ map role_of staff.old ++ map (upstream_role layout.now) layout.now.switches) }
{
    for switch in layout.switches() {
        let port = Port::upstream(alloc, layout, switch)?;
        let id = PortId::new(switch.id);
        add_port(alloc, layout, shared, id, port, staff)?;
    }
    Ok(())
}

fn add_downstream(
    alloc: Global,
    layout: &Layout,
    shared: &Shared,
    staff: &mut Staff,
) -> Result<(), NoMemory>
    requires shared { IsSharedOf layout.now shared.now }
    ensures { OnOk result (map role_of staff.new ≡ map role_of staff.old ++ map (downstream_role layout.now) layout.now.ports) }
{
    for line in layout.ports() {
        let Some(port) = Port::downstream(alloc, layout, line)? else {
            unreachable!();
        };
        add_port(alloc, layout, shared, line.id, port, staff)?;
    }
    Ok(())
}

fn add_functions(
    alloc: Global,
    layout: &Layout,
    shared: &Shared,
    boxes: Vec<OriginBox>,
    staff: &mut Staff,
    injectors: &mut Vec<Injector>,
) -> Result<(), NoMemory>
    requires shared { IsSharedOf layout.now shared.now }
    requires boxes { boxes.items ≡ map (function_box layout.now) layout.now.functions }
    ensures roles { OnOk result (map role_of staff.new ≡ map role_of staff.old ++ map (function_role layout.now) layout.now.functions) }
    ensures origins { OnOk result (origins_in injectors.new.items ≡ origins_in injectors.old.items ++ map function_origin layout.now.functions) }
{
    let mut rest = boxes.into_iter();
    for line in layout.functions() {
        let Some(outbox) = rest.next() else {
            unreachable!();
        };
        let (post, injector) = function_post(alloc, layout, shared, line, outbox)?;
        staff.add(post)?;
        injectors.push(injector)?;
    }
    Ok(())
}

/// The outboxes of the functions of a layout, and those of the hosts.
fn boxes_of(alloc: Global, layout: &Layout) -> Result<(Vec<OriginBox>, Vec<OriginBox>), NoMemory>
    ensures functions { IfOk result (λ boxes. boxes.0.items ≡ map (function_box layout.now) layout.now.functions) }
    ensures hosts { IfOk result (λ boxes. boxes.1.items ≡ host_boxes layout.now 31) }
{
    let mut boxes = Outboxes::new(alloc, layout)?.into_boxes();
    let hosts = boxes.split_off(layout.functions().len())?;
    Ok((boxes, hosts))
}

/// All workers of a layout, and the injectors of its functions and hosts.
/// The workers stand over what they share, and have what the layout gives each domain. It answers `NoMemory`
/// where memory was refused.
pub fn staff_of(
    alloc: Global,
    layout: &Layout,
    shared: &Shared,
    starts: Vec<Start>,
) -> Result<(Staff, Vec<Injector>), NoMemory>
    requires shared { IsSharedOf layout.now shared.now }
    requires starts { starts.items ≡ starting_shares layout.now }
    ensures roles { IfOk result (λ made. map role_of made.0 ≡ roles_of layout.now) }
    ensures origins { IfOk result (λ made. origins_in made.1.items ≡ origins_of layout.now) }
{
    let (boxes, hosts) = boxes_of(alloc, layout)?;
    let mut staff = Staff::open(alloc)?;
    let mut injectors = Vec::new(alloc);
    add_upstream(alloc, layout, shared, &mut staff)?;
    add_downstream(alloc, layout, shared, &mut staff)?;
    add_functions(alloc, layout, shared, boxes, &mut staff, &mut injectors)?;
    let host = host_post(alloc, layout, shared, hosts, starts, &mut injectors)?;
    staff.add(host)?;
    Ok((staff, injectors))
}
