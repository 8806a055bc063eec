//! A ring with both ends.

ghost use Rattle.std.specs.Prelude.{◌≡◌, [], IfOk};
ghost use Rattle.rtrb.specs.Ring.{IsPair, received, sent};

use rtrb::{Consumer, Producer, RingBuffer};
use std::alloc::{AllocError, Global};

/// A ring with both ends.
#[derive(Drop)]
pub struct Ring<T: Drop> {
    /// The end to put into.
    pub out: Producer<T>,
    /// The end to take from, in the order in which items were put in.
    pub input: Consumer<T>,
    pub ghost pair: { IsPair out input },
}

/// An empty ring with so many places.
pub(crate) fn empty_ring<T: Drop>(alloc: Global, places: usize) -> Result<Ring<T>, AllocError>
    ensures { IfOk result (λ r. (sent r.out ≡ []) × (received r.input ≡ [])) }
{
    let (out, input) = RingBuffer::new(alloc, places)?;
    Ok(Ring { out, input })
}
