//! The rings of a table are taken back.

ghost use Rattle.std.specs.Prelude.{◌≡◌, IfOk, map};
ghost use Rattle.thread_rings.specs.Wired.{tags_of};
ghost use Rattle.port_threads.specs.Fabrics.{AreDealt};
ghost use Rattle.port_threads.specs.Left.{AreBack};

use crate::ring_tallies::RingTallies;
use fab_types::NoMemory;
use std::alloc::Global;
use std::snapshot::Snapshot;
use thread_rings::{Ends, Laid, Wire, undo};

/// Puts the two ends of each ring together again. It answers `NoMemory` where memory was refused; then all rings are let
/// go, with what is in them.
pub(crate) fn tallied<T: Drop>(
    alloc: Global,
    made: &Snapshot<Vec<Laid<T>>>,
    wires: &[Wire],
    ends: Vec<Ends<T>>,
) -> Result<RingTallies<T>, NoMemory>
    requires { AreDealt wires.now made.now.value.items (map tags_of ends.items) }
    ensures back { IfOk result (λ table. AreBack wires.now made.now.value.items table) }
    ensures ends { IfOk result (λ table. map tags_of table.ends.value.items ≡ map tags_of ends.items) }
{
    let given = Snapshot::of(&ends);
    let rings = undo(alloc, made, wires, ends)?;
    Ok(RingTallies { rings, ends: given })
}
