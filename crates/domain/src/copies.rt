//! Copies of packets' bytes.

ghost use Rattle.std.specs.Prelude.{◌≡◌, ◌≤◌, length};

use arrayvec::ArrayVec;

/// A copy of a packet's bytes, which takes no memory but its own.
/// No packet has more than 272.
pub fn copied(bytes: &[u8]) -> ArrayVec<u8, 272>
    requires { length bytes.now ≤ 272 }
    ensures { result.items ≡ bytes.now }
{
    let mut copy = ArrayVec::new();
    if copy.try_extend_from_slice(bytes).is_err() {
        unreachable!();
    }
    copy
}
