//! The outboxes of a layout at the start.

ghost use Rattle.std.specs.Prelude.{◌≡◌, ◌++◌, ◌∷◌, [], IfOk, OnOk, filter, map};
ghost use Rattle.platform.specs.Owners.{owns_port};
ghost use Rattle.outboxes.specs.Outboxes.{boxes_of, function_box, host_box, host_boxes, places_of};

use crate::origin_box::OriginBox;
use fab_types::{DomainId, NoMemory, Origin};
use layout::Layout;
use platform::{DownstreamPort, owns_port};
use std::alloc::Global;

/// Three packets of each class for each begin of a domain.
fn places_of(layout: &Layout, domain: Option<DomainId>) -> usize
    ensures { result ≡ places_of layout.now domain }
{
    match domain {
        Some(domain) => 3 * layout.budget(domain) as usize,
        None => 0,
    }
}

fn add_functions(alloc: Global, layout: &Layout, boxes: &mut Vec<OriginBox>) -> Result<(), NoMemory>
    ensures { OnOk result (boxes.new.items ≡ boxes.old.items ++ map (function_box layout.now) layout.now.functions) }
{
    for line in layout.functions() {
        let places = places_of(layout, layout.domain_above(line.id));
        boxes.push(OriginBox::new(alloc, Origin::Function(line.id), places)?)?;
    }
    Ok(())
}

fn add_host(
    alloc: Global,
    layout: &Layout,
    domain: DomainId,
    boxes: &mut Vec<OriginBox>,
) -> Result<(), NoMemory>
    ensures { OnOk result (boxes.new.items ≡ boxes.old.items ++ map (host_box layout.now) (filter (owns_port layout.now.ports) (domain ∷ []))) }
{
    if owns_port(layout.ports(), domain) {
        let places = places_of(layout, Some(domain));
        boxes.push(OriginBox::new(alloc, Origin::Host(domain), places)?)?;
    }
    Ok(())
}

fn add_hosts(alloc: Global, layout: &Layout, boxes: &mut Vec<OriginBox>) -> Result<(), NoMemory>
    ensures { OnOk result (boxes.new.items ≡ boxes.old.items ++ host_boxes layout.now 31) }
{
    for number in 1..32 {
        let Some(domain) = DomainId::new(number) else {
            unreachable!();
        };
        add_host(alloc, layout, domain, boxes)?;
    }
    Ok(())
}

/// An empty box for each function, and then for each domain's host.
/// The domains are those that own a port, by rising number.
pub(crate) fn boxes_of(alloc: Global, layout: &Layout) -> Result<Vec<OriginBox>, NoMemory>
    ensures { IfOk result (λ boxes. boxes.items ≡ boxes_of layout.now) }
{
    let mut boxes = Vec::new(alloc);
    add_functions(alloc, layout, &mut boxes)?;
    add_hosts(alloc, layout, &mut boxes)?;
    Ok(boxes)
}
