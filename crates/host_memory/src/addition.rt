//! The sums of a FetchAdd.

ghost use Rattle.std.specs.Prelude.{◌≡◌, ◌≤◌, length};
ghost use Rattle.host_memory.specs.Additions.{sum_of};

use byteorder::{ByteOrder, LittleEndian};

/// The sum of two numbers of 32 bits.
pub(crate) fn sum_of_4(old: &[u8], operand: &[u8]) -> [u8; 4]
    requires old { 4 ≤ length old.now }
    requires operand { 4 ≤ length operand.now }
    ensures { result ≡ sum_of 4 old.now operand.now }
{
    let sum = LittleEndian::read_u32(old).wrapping_add(LittleEndian::read_u32(operand));
    let mut bytes = [0; 4];
    LittleEndian::write_u32(&mut bytes, sum);
    bytes
}

/// The sum of two numbers of 64 bits.
pub(crate) fn sum_of_8(old: &[u8], operand: &[u8]) -> [u8; 8]
    requires old { 8 ≤ length old.now }
    requires operand { 8 ≤ length operand.now }
    ensures { result ≡ sum_of 8 old.now operand.now }
{
    let sum = LittleEndian::read_u64(old).wrapping_add(LittleEndian::read_u64(operand));
    let mut bytes = [0; 8];
    LittleEndian::write_u64(&mut bytes, sum);
    bytes
}
