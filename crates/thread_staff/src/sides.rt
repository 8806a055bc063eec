//! A side of a link at its start.

ghost use Rattle.std.specs.Prelude.{◌≡◌, IfOk};
ghost use Rattle.interconnect.specs.Starts.{first_credits};
ghost use Rattle.layout.specs.Views.{credits_of};
ghost use Rattle.thread_staff.specs.Sides.{idle_side};

use fab_types::{Bdf, NoMemory};
use interconnect::first_credits;
use layout::Layout;
use std::alloc::Global;
use thread_workers::LinkSide;

/// Either side of the link with this lower end, on which nothing was sent. It answers `NoMemory` where memory was
/// refused.
pub(crate) fn side_of(alloc: Global, layout: &Layout, lower: Bdf) -> Result<LinkSide, NoMemory>
    ensures { IfOk result (λ side. side ≡ idle_side (first_credits (credits_of layout.now lower))) }
{
    let sends = first_credits(layout, lower);
    let receives = first_credits(layout, lower);
    LinkSide::new(alloc, sends, receives)
}
