//! IDs in their order.

ghost use Rattle.std.specs.Prelude.{IfOk};
ghost use Rattle.platform.specs.Rising.{IsRising};

use fab_types::Bdf;
use std::alloc::AllocError;

/// These IDs, rising.
pub fn rising(ids: Vec<Bdf>) -> Result<Vec<Bdf>, AllocError>
    ensures { IfOk result (λ sorted. IsRising ids.items sorted.items) }
{
    let mut sorted = ids;
    sorted.sort()?;
    Ok(sorted)
}
