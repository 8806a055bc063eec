//! A ring for each wire.

ghost use Rattle.std.specs.Prelude.{◌≡◌, [], IfOk, All, map};
ghost use Rattle.rtrb.specs.Ring.{received, sent};

use crate::ring::{Ring, empty_ring};
use crate::wire::Wire;
use std::alloc::{AllocError, Global};

/// A ring that is laid for a wire.
#[derive(Drop)]
pub struct Laid<T: Drop> {
    /// The wire.
    pub wire: Wire,
    /// Its ring, with both ends.
    pub ring: Ring<T>,
}

/// Makes a ring for each wire of a table, in its order. The number of a ring is the place of its wire, from 0. It
/// answers an error where memory was refused, also for a wire with more places than memory can have.
pub fn lay<T: Drop>(alloc: Global, wires: &[Wire]) -> Result<Vec<Laid<T>>, AllocError>
    ensures { IfOk result (λ rings. map (λ r. r.wire) rings.items ≡ wires.now) }
{
    let mut rings = Vec::with_capacity(alloc, wires.len())?;
    for wire in wires {
        let ring = empty_ring(alloc, wire.places)?;
        rings.push_reserved(Laid { wire: *wire, ring });
    }
    Ok(rings)
}
